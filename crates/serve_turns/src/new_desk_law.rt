// What a desk that is made anew leaves as it was.
ghost use Rattle.serve_turns.specs.Life.{Life};
ghost use Rattle.serve_turns.specs.NewDeskLaw.{NewDeskKeeps};

use std::alloc::Allocator;

/// Whatever a server knows, a new desk leaves each gateway's book as it was, and of each device how it is set, its last uplink counter
/// and its next downlink counter. Where each device has an address of its own, and what waits for it may have been queued, all of that
/// waits as before, in its order. A call does nothing.
pub fn law_new_desk_keeps<A: Allocator>()
    ensures { (l : Life) → NewDeskKeeps A l }
{}

/// The law by a call: so it ensures just this statement, and asks for nothing.
fn each_law<A: Allocator>()
    ensures { (l : Life) → NewDeskKeeps A l }
{
    law_new_desk_keeps::<A>();
}
