// The law is called here, so that its clause can say no less than its statement.
ghost use Rattle.serve_downlinks.specs.BatchLaw.{BatchesTellWhatIsSent};

use crate::laws::law_batches_tell_what_is_sent;

/// The law by a call of its own: so it ensures just this statement, and asks for nothing.
fn each_law()
    ensures { BatchesTellWhatIsSent }
{
    law_batches_tell_what_is_sent();
}
