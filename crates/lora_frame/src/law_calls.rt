// Each law is called here, so that its clause can say no less than its statement.
ghost use Rattle.lora_frame.specs.Counter.{InferIsLeast};
ghost use Rattle.lora_frame.specs.Laws.{DeviceDecrypts, UplinkReadsBack};

use crate::counting::law_infer_is_least;
use crate::laws::{law_device_decrypts, law_uplink_reads_back};

/// Each law by a call of its own: so each ensures just this statement, and asks for nothing.
fn each_law()
    ensures infer_is_least { InferIsLeast }
    ensures device_decrypts { DeviceDecrypts }
    ensures uplink_reads_back { UplinkReadsBack }
{
    law_infer_is_least();
    law_device_decrypts();
    law_uplink_reads_back();
}
