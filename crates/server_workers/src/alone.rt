// One worker alone, on the calling thread.
ghost use Rattle.std.specs.Prelude.{◌≡◌, ◌+◌, ◌<◌, IfOk, IfErr, length};
ghost use Rattle.server_workers.specs.Alone.{HasTakenUp, IsServedAlone};
ghost use Rattle.server_workers.specs.Counts.{WereAsked};
ghost use Rattle.server_workers.specs.Filing.{HasRoomFor};
ghost use Rattle.server_workers.specs.Lists.{lists_of};
ghost use Rattle.server_workers.specs.Served.{IsServed};
ghost use Rattle.server_workers.specs.Serving.{IsSortedByNumber};
ghost use Rattle.server_workers.specs.Working.{IsMore};
ghost use Rattle.server_workers.specs.Works.{outcomes_airtime};

use crate::filed::Filed;
use crate::served::{ServeCause, ServeFault, Served};
use crate::serving::fault;
use crate::summing::taken_over;
use crate::turns::Given;
use crate::{Gate, Ledger, PARTS, Station, Till, Worked};
use std::alloc::Allocator;
use std::hash::BuildHasher;
use std::sync::Wait;

/// Has one worker take, try and settle these numbers of a station on the calling thread, in their order and each once. It wants
/// neither a channel nor lists beside its own. NoMemory where a growth of these was refused; then no number was taken.
pub(crate) fn serve_alone<R: Wait, B: Ledger, S: BuildHasher, A: Allocator + Copy, G: Gate>(
    rt: &R,
    alloc: A,
    station: &Station<B, S, A>,
    numbers: &[u64],
    mut till: Till<B>,
    gate: &G,
) -> Result<Served<B, A>, ServeFault<B>>
    requires { 16 < till.parts }
    ensures till { IfOk result (λ served. served.till
        ≡ record till { amount = till.amount + outcomes_airtime served.outcomes.items }) }
    ensures each { IfOk result (λ served. IsServedAlone numbers.now served) }
    ensures turns { IfOk result (λ served. IsServed numbers.now served) }
    ensures sorted { IfOk result (λ served. IsSortedByNumber served) }
    ensures ran { IfOk result (λ served. served.ran ≡ 1) }
    ensures asked { IfOk result (λ served. WereAsked 1 served.counts) }
    ensures back { IfErr result (λ fault. fault.till ≡ till) }
    ensures memory { IfErr result (λ fault. fault.cause ≡ ServeCause.NoMemory) }
{
    let Ok(filed) = Filed::with_room(alloc, numbers.len()) else {
        return Err(fault(ServeCause::NoMemory, till));
    };
    prove!(till.parts() <= PARTS); // So the worker's part fits when it is joined again.
    let mut worked = Worked::idle(till.split(), filed);
    worked.answer_all(rt, station, gate, numbers);
    Ok(taken_over(till, worked))
}

impl<B: Ledger, A: Allocator + Copy> Worked<B, A> {
    /// Answers the uplinks with these numbers, each once and in their order, and files what became of them. Takes no memory
    /// but for the tickets and for what is booked.
    fn answer_all<R: Wait, S: BuildHasher, G: Gate>(
        &mut self,
        rt: &R,
        station: &Station<B, S, A>,
        gate: &G,
        numbers: &[u64],
    )
        requires { HasRoomFor (length numbers.now) (lists_of self.old) }
        ensures more { IsMore self.old self.new }
        ensures turns { HasTakenUp numbers.now station.now numbers.now self.old self.new }
    {
        for number in numbers {
            self.answer(rt, station, gate, Given::listed(*number));
        }
    }
}
