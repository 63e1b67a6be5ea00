// Each number that a channel or a list gives is answered once, and what becomes of it is filed.
ghost use Rattle.std.specs.Prelude.{◌≡◌, ◌≤◌, false, None, IfOk};
ghost use Rattle.std.specs.Option.{option_to_list};
ghost use Rattle.server_station.specs.Handling.{IsHandled, was_taken};
ghost use Rattle.server_workers.specs.Turns.{IsOneOf};
ghost use Rattle.server_workers.specs.Works.{IsOpen, HasMore};
ghost use Rattle.server_workers.specs.Working.{receipts_of, outcomes_of, skipped_of, refused_of, strays_of};

use crate::{Gate, Handled, Ledger, Station, Till};
use answer_ticket::{Outcome, Receipt};
use crossbeam_channel::Receiver;
use server_desk::TakeFault;
use std::alloc::Allocator;
use std::hash::BuildHasher;
use std::sync::Wait;

/// A number in a channel, and of which numbers it is one, where these are known.
pub(crate) trait InChannel: Drop {
    ghost use Rattle.std.specs.Prelude.{ℕ, List, Option};

    ghost numbers: { Option (List ℕ) };

    /// The number.
    fn number(self) -> u64
        ensures { IsOneOf Self.numbers result };
}

impl InChannel for u64 {
    ghost numbers = { None };

    fn number(self) -> u64
        ensures one { IsOneOf None result }
        ensures same { result ≡ self }
    {
        self
    }
}

/// A number that a channel or a list gave, and that is still to be answered: it can't be dropped.
pub(crate) struct Given {
    number: u64,
}

/// That a channel is closed and empty: it is made only where a receive found it so.
#[derive(Clone, Copy)]
pub(crate) struct Drained {
    told: (),
}

/// What became of a number, which is still to be filed: it can't be dropped, and is made only by asking the station.
pub(crate) struct Turn<A: Allocator> {
    number: u64,
    handled: Handled<A>,
}

/// The next number of a channel, for which it waits.
pub(crate) fn next_of<R: Wait, N: InChannel, A: Allocator>(
    rt: &R,
    numbers: &Receiver<N, A>,
) -> Result<Given, Drained>
    ensures { IfOk result (λ given. IsOneOf N.numbers given.number) }
{
    match numbers.recv(rt) {
        Ok(item) => Ok(Given {
            number: item.number(),
        }),
        Err(_) => Err(Drained { told: () }),
    }
}

impl Given {
    /// A number of a list.
    pub(crate) fn listed(number: u64) -> Self
        ensures { result.number ≡ number }
    {
        Given { number }
    }

    /// Answers the uplink with this number, as the station does.
    pub(crate) fn answered<R: Wait, B: Ledger, S: BuildHasher, A: Allocator + Copy, G: Gate>(
        self,
        rt: &R,
        station: &Station<B, S, A>,
        gate: &G,
        till: &mut Till<B>,
        overrun: &mut u64,
    ) -> Turn<A>
        ensures number { result.number ≡ self.number }
        ensures turn { IsHandled station.now self.number till.old till.new result.handled }
        ensures overrun { overrun.old ≤ overrun.new }
        ensures idle { was_taken result.handled ≡ false → overrun.new ≡ overrun.old }
    {
        let Given { number } = self;
        let handled = station.answer(rt, gate, number, till, overrun);
        Turn { number, handled }
    }
}

impl<A: Allocator> Turn<A> {
    /// Files what became of the number in the one list for it.
    pub(crate) fn file(
        self,
        receipts: &mut Vec<Receipt<A>, A>,
        outcomes: &mut Vec<Outcome, A>,
        skipped: &mut Vec<u64, A>,
        refused: &mut Vec<(u64, TakeFault), A>,
        strays: &mut Vec<u64, A>,
    )
        requires receipts { IsOpen receipts.old }
        requires outcomes { IsOpen outcomes.old }
        requires skipped { IsOpen skipped.old }
        requires refused { IsOpen refused.old }
        requires strays { IsOpen strays.old }
        ensures receipts { HasMore (receipts_of self.handled) receipts.old receipts.new }
        ensures outcomes { HasMore (outcomes_of self.handled) outcomes.old outcomes.new }
        ensures skipped { HasMore (skipped_of self.number self.handled) skipped.old skipped.new }
        ensures refused { HasMore (refused_of self.number self.handled) refused.old refused.new }
        ensures strays { HasMore (strays_of self.number self.handled) strays.old strays.new }
    {
        let Turn { number, handled } = self;
        match handled {
            Handled::NotTaken(TakeFault::Engaged | TakeFault::NoMemory) => {
                skipped.push_reserved(number);
            }
            Handled::NotTaken(fault) => refused.push_reserved((number, fault)),
            Handled::Settled(outcome, receipt) => {
                outcomes.push_reserved(outcome);
                keep(receipts, receipt);
            }
            Handled::Stray(_, receipt) => {
                strays.push_reserved(number);
                keep(receipts, receipt);
            }
        }
    }
}

/// Keeps what was booked.
fn keep<A: Allocator>(receipts: &mut Vec<Receipt<A>, A>, receipt: Option<Receipt<A>>)
    requires { IsOpen receipts.old }
    ensures { HasMore (option_to_list receipt) receipts.old receipts.new }
{
    if let Some(receipt) = receipt {
        receipts.push_reserved(receipt);
    }
}
