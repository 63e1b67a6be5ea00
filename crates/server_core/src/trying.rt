// A ticket is tried.

ghost use Rattle.std.specs.Prelude.{IfOk};
ghost use Rattle.server_core.specs.Server.{seen, AreHere, ids_of};
ghost use Rattle.server_core.specs.Tries.{AreTries, AttemptIs};

use crate::books::place_of;
use crate::server::Server;
use crate::{NoMemory, Step};
use answer_ticket::{Stub, Ticket, Tried, TriedOut};
use std::alloc::{AllocError, Allocator};
use std::hash::BuildHasher;

/// What one try led to.
pub(crate) enum Attempt<A: Allocator> {
    /// The ticket was booked, or refused to the last.
    Over(TriedOut<A>),
    /// It stands at its next candidate.
    On(Ticket<A>),
}

impl<S: BuildHasher, A: Allocator + Copy> Server<S, A> {
    /// Tries a ticket until it is booked or refused to the last.
    pub(crate) fn tried(&mut self, ticket: Ticket<A>) -> Result<TriedOut<A>, NoMemory>
        requires { AreHere (ids_of self.old.books.items) ticket.job }
        ensures { IfOk result (λ ended. AreTries ticket (seen self.old) (seen self.new) ended) }
    {
        let mut ticket = ticket;
        loop {
            match self.tried_once(ticket)? {
                Attempt::Over(ended) => return Ok(ended),
                Attempt::On(next) => ticket = next,
            }
        }
    }

    /// Asks the book of its gateway for the candidate at which a ticket stands.
    fn tried_once(&mut self, ticket: Ticket<A>) -> Result<Attempt<A>, NoMemory>
        requires { AreHere (ids_of self.old.books.items) ticket.job }
        ensures { IfOk result (λ turn. AttemptIs ticket (seen self.old) (seen self.new) turn) }
    {
        let number = ticket.number();
        let Ok(()) = self.did(Step::Try { number }) else {
            return Err(spent(ticket.give_up()));
        };
        // Each candidate is on a gateway that heard the uplink, and each of those has a book.
        let Some(place) = place_of(&self.books, ticket.gateway()) else {
            unreachable!()
        };
        match ticket.try_on(&mut self.books[place]) {
            Tried::Booked(stub, receipt) => Ok(Attempt::Over(TriedOut {
                stub,
                receipt: Some(receipt),
            })),
            Tried::Next(ticket, _) => Ok(Attempt::On(ticket)),
            Tried::Out(stub, _) => Ok(Attempt::Over(TriedOut {
                stub,
                receipt: None,
            })),
            // The book was found by the candidate's gateway.
            Tried::Wrong(ticket) => {
                let _ = ticket.give_up().end();
                unreachable!()
            }
            Tried::NoMemory(ticket) => Err(spent(ticket.give_up())),
        }
    }
}

/// Spends what is left of a ticket where there is no memory to go on.
fn spent(stub: Stub) -> NoMemory {
    let _ = stub.end();
    AllocError
}
