// Tickets, and what becomes of them. A ticket and a stub can't be dropped: what isn't looked at is spent.

use crate::{WorkedBook, WorkedDesk};
use answer_ticket::{Outcome, Receipt, Stub, Ticket, Tried};
use gateway_book::Refusal;
use server_desk::TakeFault;
use std::alloc::{Allocator, Global};

/// The ticket for the uplink with this number.
pub fn taken(desk: &mut WorkedDesk, number: u64) -> Result<Ticket<Global>, TakeFault> {
    desk.take(number)
}

/// What is left of a ticket that is given up.
pub fn given_up<A: Allocator>(ticket: Ticket<A>) -> Stub {
    ticket.give_up()
}

/// What became of a ticket that is tried on this book.
pub fn tried_on(ticket: Ticket<Global>, book: &mut WorkedBook) -> Tried<Global> {
    ticket.try_on(book)
}

/// The outcome of a stub that is settled; one that is handed back is spent.
pub fn settled(desk: &mut WorkedDesk, stub: Stub) -> Option<Outcome> {
    match desk.settle(stub) {
        Ok(outcome) => Some(outcome),
        Err(stub) => {
            let _ = stub.end();
            None
        }
    }
}

/// The stub and the receipt of a try that was booked; any other is spent.
pub fn booked<A: Allocator>(tried: Tried<A>) -> Option<(Stub, Receipt<A>)> {
    match tried {
        Tried::Booked(stub, receipt) => Some((stub, receipt)),
        other => spent(other),
    }
}

/// The ticket and the refusal of a try that another may follow; any other is spent.
pub fn next_refused<A: Allocator>(tried: Tried<A>) -> Option<(Ticket<A>, Refusal)> {
    match tried {
        Tried::Next(ticket, refusal) => Some((ticket, refusal)),
        other => spent(other),
    }
}

/// The stub and the refusal of a try that was the last; any other is spent.
pub fn last_refused<A: Allocator>(tried: Tried<A>) -> Option<(Stub, Refusal)> {
    match tried {
        Tried::Out(stub, refusal) => Some((stub, refusal)),
        other => spent(other),
    }
}

/// The ticket of a try on another gateway's book; any other is spent.
pub fn handed_back<A: Allocator>(tried: Tried<A>) -> Option<Ticket<A>> {
    match tried {
        Tried::Wrong(ticket) => Some(ticket),
        other => spent(other),
    }
}

/// Spends what a try gave.
pub fn spent<A: Allocator, X>(tried: Tried<A>) -> Option<X> {
    let stub = match tried {
        Tried::Booked(stub, _) => stub,
        Tried::Next(ticket, _) => ticket.give_up(),
        Tried::Out(stub, _) => stub,
        Tried::Wrong(ticket) => ticket.give_up(),
        Tried::NoMemory(ticket) => ticket.give_up(),
    };
    let _ = stub.end();
    None
}
