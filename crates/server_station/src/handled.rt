// An uplink is answered, once.
ghost use Rattle.std.specs.Prelude.{◌≡◌, ◌≤◌, true, false, Some, None};
ghost use Rattle.answer_ticket.specs.Tried.{stub_of};
ghost use Rattle.server_station.specs.Handling.{IsHandled, IsEndOf, was_taken, outcome_of, receipt_of};
ghost use Rattle.server_station.specs.Tries.{IsAnswered, IsTriedOut};

use crate::{Gate, Ledger, Station, Till};
use answer_ticket::{Ending, Outcome, Receipt, Ticket, Tried, TriedOut};
use server_desk::TakeFault;
use std::alloc::Allocator;
use std::hash::BuildHasher;
use std::sync::Wait;

/// What became of an uplink that was taken up once.
#[derive(Drop)]
pub enum Handled<A: Allocator> {
    /// No ticket was given.
    NotTaken(TakeFault),
    /// Its answer was settled, with the receipt of what was booked.
    Settled(Outcome, Option<Receipt<A>>),
    /// The desk handed its stub back, whose answer ended so; with the receipt of what was booked.
    Stray(Outcome, Option<Receipt<A>>),
}

impl<B: Ledger, S: BuildHasher, A: Allocator + Copy> Station<B, S, A> {
    /// Takes a ticket for the uplink with this number, tries it until it is booked or refused to the last, and settles it.
    /// A try that finds no memory, or no such gateway, gives the ticket up. The airtime of what was booked is counted with
    /// the till, in microseconds, and in `overrun` each try that the gate didn't let in in time.
    pub fn answer<R: Wait, G: Gate>(
        &self,
        rt: &R,
        gate: &G,
        number: u64,
        till: &mut Till<B>,
        overrun: &mut u64,
    ) -> Handled<A>
        ensures turn { IsHandled self.now number till.old till.new result }
        ensures overrun { overrun.old ≤ overrun.new }
        ensures idle { was_taken result ≡ false → overrun.new ≡ overrun.old }
    {
        match self.take(rt, number) {
            Ok(ticket) => {
                let ended = self.try_all(rt, gate, ticket, overrun);
                self.settle_end(rt, ended, till)
            }
            Err(fault) => Handled::NotTaken(fault),
        }
    }

    /// Tries a ticket until it is booked or refused to the last, or gives it up.
    fn try_all<R: Wait, G: Gate>(
        &self,
        rt: &R,
        gate: &G,
        mut ticket: Ticket<A>,
        overrun: &mut u64,
    ) -> TriedOut<A>
        requires first { ticket.at ≡ 0 }
        ensures ended { IsEndOf ticket.job.number result }
        ensures tries { IsTriedOut self.now ticket.job result.stub.result result.receipt }
        ensures overrun { overrun.old ≤ overrun.new }
    {
        loop {
            let gateway = ticket.gateway();
            let Some(mut book) = self.enter(rt, gate, gateway, overrun) else {
                return given_up(ticket);
            };
            let tried = ticket.try_on(&mut book);
            drop(book);
            gate.left(gateway);
            match tried {
                Tried::Booked(stub, receipt) => {
                    return TriedOut {
                        stub,
                        receipt: Some(receipt),
                    };
                }
                Tried::Next(next, _) => ticket = next,
                Tried::Out(stub, _) => {
                    return TriedOut {
                        stub,
                        receipt: None,
                    };
                }
                Tried::Wrong(ticket) | Tried::NoMemory(ticket) => return given_up(ticket),
            }
        }
    }

    /// Settles what is left of a ticket.
    fn settle_end<R: Wait>(&self, rt: &R, ended: TriedOut<A>, till: &mut Till<B>) -> Handled<A>
        requires ended { IsEndOf ended.stub.number ended }
        requires answered { IsAnswered self.now ended.stub.number ended.stub.result ended.receipt }
        ensures turn { IsHandled self.now ended.stub.number till.old till.new result }
        ensures taken { was_taken result ≡ true }
        ensures outcome { outcome_of result ≡ Some ended.stub }
        ensures receipt { receipt_of result ≡ ended.receipt }
    {
        let TriedOut { stub, receipt } = ended;
        match self.settle(rt, stub, till) {
            Ok(outcome) => Handled::Settled(outcome, receipt),
            Err(stub) => Handled::Stray(stub.end(), receipt),
        }
    }
}

/// What is left of a ticket that is given up.
fn given_up<A: Allocator>(ticket: Ticket<A>) -> TriedOut<A>
    ensures { result ≡ record { stub = stub_of ticket.job Ending.GivenUp; receipt = None } }
{
    TriedOut {
        stub: ticket.give_up(),
        receipt: None,
    }
}
