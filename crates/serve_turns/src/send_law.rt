// What holds of the PULL_RESPs that a server sends.
ghost use Rattle.serve_turns.specs.SendLaw.{EachIsSentOnce, EverySendIsKept};

use std::alloc::Allocator;

/// Whatever a server knows, whatever comes and whatever the world around answers: each PULL_RESP of a turn asks for a downlink that
/// answers an uplink in it, and goes to the peer of its gateway; before it a batch that tells the downlink, and the next downlink
/// counter of its device before that, was added to the journal's file, and the disk kept it. None is sent where no journal is kept,
/// or where a write has failed and the journal was not put in place since. A call does nothing.
pub fn law_every_send_is_kept<A: Allocator>()
    ensures { EverySendIsKept A }
{}

/// Whatever a server knows, whatever comes and whatever the world around answers: the PULL_RESPs of a turn are, in their order, those of
/// the first of its downlinks that may be sent. So each downlink is sent once at most. A call does nothing.
pub fn law_each_downlink_is_sent_once<A: Allocator>()
    ensures { EachIsSentOnce A }
{}

/// Each law by a call of its own: so it ensures just this statement, and asks for nothing.
fn each_law<A: Allocator>()
    ensures kept { EverySendIsKept A }
    ensures once { EachIsSentOnce A }
{
    law_every_send_is_kept::<A>();
    law_each_downlink_is_sent_once::<A>();
}
