// What is read of a journal that says a state in one batch.
ghost use Rattle.serve_journal.specs.RenewalLaw.{RenewalReadsAsState};

/// Of every state as a server has it, `read_journal` gives what `write_state` writes of it: the same gateways and devices, with what waits for
/// these, and books with the same members but for their numbers. A call does nothing.
pub fn law_renewal_reads_as_state()
    ensures { RenewalReadsAsState }
{}

/// The law by a call of its own: so it ensures just this statement, and asks for nothing.
fn each_renewed()
    ensures { RenewalReadsAsState }
{
    law_renewal_reads_as_state();
}
