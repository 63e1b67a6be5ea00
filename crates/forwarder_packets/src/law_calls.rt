// The law is called here, so that its clause can say no less than its statement.
ghost use Rattle.forwarder_packets.specs.PullResp.{PullRespsReadBack};

use crate::downlink::law_pull_resps_read_back;

/// The law by a call of its own: so it ensures just this statement, and asks for nothing.
fn each_law()
    ensures pull_resps_read_back { PullRespsReadBack }
{
    law_pull_resps_read_back();
}
