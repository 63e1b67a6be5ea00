// What a journal says whose last batch was being written when the power went.
ghost use Rattle.serve_journal.specs.Torn.{TornIsDropped};

/// Of a journal, and of any front of one more batch with any of its bytes 0, `read` gives what it gives of the journal alone, or with
/// the whole batch. A call does nothing.
pub fn law_torn_is_dropped()
    ensures { TornIsDropped }
{}

/// The law by a call of its own: so it ensures just this statement, and asks for nothing.
fn each_torn()
    ensures { TornIsDropped }
{
    law_torn_is_dropped();
}
