// A worker takes, tries and settles one number after another.
ghost use Rattle.std.specs.Prelude.{◌≡◌, ◌+◌, ◌↔◌, ◌++◌, List, None, IsTrue};
ghost use Rattle.answer_ticket.specs.declared.outcome.Outcome.{Outcome as Ends};
ghost use Rattle.server_workers.specs.Filing.{HasRoom};
ghost use Rattle.server_workers.specs.Lists.{lists_of};
ghost use Rattle.server_workers.specs.Works.{IsOpen, outcomes_airtime};
ghost use Rattle.server_workers.specs.Working.{HasFiled, IsMore};
ghost use Rattle.server_workers.specs.Turns.{HasWorked, HasStopped};

use crate::turns::{Given, InChannel, next_of};
use crate::worked::Stopped;
use crate::{Gate, Ledger, Station, Worked};
use crossbeam_channel::Receiver;
use std::alloc::Allocator;
use std::hash::BuildHasher;
use std::sync::Wait;

/// Takes a ticket for each number of a channel, tries it until it is booked or refused to the last, and settles it,
/// until the channel is closed and empty, or a list of `worked` has no room left. A try that finds no memory, or no such
/// gateway, gives its ticket up. Takes no memory but for the tickets and for what is booked.
pub fn work<R: Wait, B: Ledger, S: BuildHasher, A: Allocator + Copy, G: Gate>(
    rt: &R,
    station: &Station<B, S, A>,
    numbers: &Receiver<u64, A>,
    gate: &G,
    mut worked: Worked<B, A>,
) -> Worked<B, A>
    ensures more { IsMore worked result }
    ensures till { (more : List Ends) × (result.outcomes.items ≡ worked.outcomes.items ++ more)
        × (result.till ≡ record worked.till { amount = worked.till.amount + outcomes_airtime more }) }
    ensures turns { HasWorked None station.now worked result }
    ensures stopped { HasStopped result }
{
    work_on(rt, station, numbers, gate, &mut worked);
    worked
}

/// The same, in place.
pub(crate) fn work_on<
    R: Wait,
    N: InChannel,
    B: Ledger,
    S: BuildHasher,
    A: Allocator + Copy,
    G: Gate,
>(rt: &R, station: &Station<B, S, A>, numbers: &Receiver<N, A>, gate: &G, worked: &mut Worked<B, A>)
    ensures more { IsMore worked.old worked.new }
    ensures turns { HasWorked N.numbers station.now worked.old worked.new }
    ensures stopped { HasStopped worked.new }
{
    for _ in rt.forever() {
        if !worked.has_room() {
            worked.stopped = Some(Stopped::Full);
            return;
        }
        match next_of(rt, numbers) {
            Ok(given) => worked.answer(rt, station, gate, given),
            Err(drained) => {
                worked.stopped = Some(Stopped::AtEnd(drained));
                return;
            }
        }
    }
}

impl<B: Ledger, A: Allocator> Worked<B, A> {
    /// Whether one more number fits, whatever becomes of it.
    fn has_room(&self) -> bool
        ensures { IsTrue result ↔ HasRoom (lists_of self.now) }
    {
        is_open(&self.receipts)
            && is_open(&self.outcomes)
            && is_open(&self.skipped)
            && is_open(&self.refused)
            && is_open(&self.strays)
    }
}

impl<B: Ledger, A: Allocator + Copy> Worked<B, A> {
    /// Answers the uplink with this number, and files what became of it.
    pub(crate) fn answer<R: Wait, S: BuildHasher, G: Gate>(
        &mut self,
        rt: &R,
        station: &Station<B, S, A>,
        gate: &G,
        given: Given,
    )
        requires { HasRoom (lists_of self.old) }
        ensures more { IsMore self.old self.new }
        ensures filed { HasFiled station.now given.number self.old self.new }
    {
        let turn = given.answered(rt, station, gate, &mut self.till, &mut self.overrun);
        turn.file(
            &mut self.receipts,
            &mut self.outcomes,
            &mut self.skipped,
            &mut self.refused,
            &mut self.strays,
        );
    }
}

/// Whether one more item fits.
fn is_open<X, A: Allocator>(list: &Vec<X, A>) -> bool
    ensures { IsTrue result ↔ IsOpen list.now }
{
    list.len() < list.capacity()
}
