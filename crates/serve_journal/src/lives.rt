// What holds over all lives of a server, each of which may end at any moment.
ghost use Rattle.serve_journal.specs.Counters.{EveryLifeRaisesCounters};
ghost use Rattle.serve_journal.specs.Lives.{EveryLifeKeepsDuty};

/// Over every list of lives all that ever got into a gateway's journal is what one gateway may send: two transmissions never
/// overlap, and no hour of a sub-band passes its limit. A call does nothing.
pub fn law_every_life_keeps_duty()
    ensures { EveryLifeKeepsDuty }
{}

/// Over every list of lives no downlink counter of a device's session gets into the journal twice, and the next one that it tells is
/// above all. A call does nothing.
#[tactic(auto, using(crate::proofs::CounterLaws::every_life_raises_counters))]
pub fn law_every_life_raises_counters()
    ensures { EveryLifeRaisesCounters }
{}

/// Each law by a call of its own: so each ensures just this statement, and asks for nothing.
fn each_life()
    ensures duty { EveryLifeKeepsDuty }
    ensures counters { EveryLifeRaisesCounters }
{
    law_every_life_keeps_duty();
    law_every_life_raises_counters();
}
