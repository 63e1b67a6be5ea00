// What holds of turns one after another, and of all lives of a server.
ghost use Rattle.serve_turns.specs.CounterLaw.{DevicesGoOn, EachDownlinkIsCounted};
ghost use Rattle.serve_turns.specs.CounterLives.{EveryServedLifeRaisesCounters};
ghost use Rattle.serve_turns.specs.LifeLaw.{EveryServedLifeKeepsDuty};

use std::alloc::Allocator;

/// Whatever a server knows whose devices have DevAddrs of their own, and whatever comes: each downlink of a turn has the DevAddr of one of
/// its devices, and is made with its keys. Its downlink counter (LoRaWAN L2 1.0.4, section 4.3.1.5) is no less than the next one that the
/// device had before the turn, and less than the next one that it has once all that was due is answered. A call does nothing.
pub fn law_each_downlink_is_counted<A: Allocator>()
    ensures { EachDownlinkIsCounted A }
{}

/// No turn changes which devices a server has, nor how one is set but for the counters with which its desk opened, and no device's next
/// downlink counter falls in it, nor from its pass on. So devices that have DevAddrs of their own have them in each turn. A call does nothing.
pub fn law_devices_go_on<A: Allocator>()
    ensures { DevicesGoOn A }
{}

/// Over every list of lives of a server, if each opens with a book of what is kept of the journal, makes any turns and ends after any of
/// them, whatever comes and whatever the world around answers, and whichever of the downlinks get into the journal: all that ever got
/// into a gateway's is what one gateway may send. Two transmissions never overlap and keep a gap that no life's is below, and no hour of
/// a sub-band passes its limit. A call does nothing.
pub fn law_every_served_life_keeps_duty<A: Allocator>()
    ensures { EveryServedLifeKeepsDuty A }
{}

/// Over every list of lives of a server, each of which makes any turns and ends after any of them, whatever comes and whatever the world
/// around answers, and whichever of the downlinks get into the journal: in the lives that open with DevAddrs of their own, and with no
/// lower next counter of a device than was put there before, downlinks of two turns that get there never have the same counter of that
/// device. A call does nothing.
pub fn law_every_served_life_raises_counters<A: Allocator>()
    ensures { EveryServedLifeRaisesCounters A }
{}

/// Each law by a call of its own: so it ensures just this statement, and asks for nothing.
fn each_law<A: Allocator>()
    ensures counted { EachDownlinkIsCounted A }
    ensures go_on { DevicesGoOn A }
    ensures duty { EveryServedLifeKeepsDuty A }
    ensures counters { EveryServedLifeRaisesCounters A }
{
    law_each_downlink_is_counted::<A>();
    law_devices_go_on::<A>();
    law_every_served_life_keeps_duty::<A>();
    law_every_served_life_raises_counters::<A>();
}
