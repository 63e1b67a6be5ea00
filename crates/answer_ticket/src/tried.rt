use crate::{Bytes, Stub, Ticket};
use gateway_book::Refusal;
use resv_list::Reservation;
use rx_windows::{Candidate, Window};
use std::alloc::Allocator;

/// What was booked: the transmission, and the bytes that the gateway is to send.
#[derive(Drop)]
pub struct Receipt<A: Allocator> {
    /// The number of the uplink's gathering.
    pub number: u64,
    /// The gateway whose book has the reservation.
    pub gateway: u16,
    /// The window in which the device listens.
    pub window: Window,
    /// The reservation in the gateway's book.
    pub reservation: Reservation,
    /// The frame: the bytes of PHYPayload.
    pub frame: Bytes<A>,
}

impl<A: Allocator> Receipt<A> {
    ghost use Rattle.std.specs.Prelude.{◌≡◌};
    ghost use Rattle.answer_ticket.specs.Tried.{booked_candidate};

    /// The candidate that was booked, which carries the payload at the head of the device's queue or doesn't.
    pub fn candidate(&self, carries: bool) -> Candidate
        ensures { result ≡ booked_candidate self.now carries }
    {
        Candidate {
            gateway: self.gateway,
            window: self.window,
            start: self.reservation.start,
            freq_hz: self.reservation.freq_hz,
            rate: self.reservation.rate,
            len: self.reservation.len,
            carries,
        }
    }
}

/// What is left of a ticket that was tried for as long as it could be, with the receipt where it was booked. It can't be dropped.
pub struct TriedOut<A: Allocator> {
    /// How it ended.
    pub stub: Stub,
    /// What was booked.
    pub receipt: Option<Receipt<A>>,
}

/// What became of a ticket that was tried on a gateway's book. It can't be dropped: what it hands back has to be
/// spent.
pub enum Tried<A: Allocator> {
    /// The candidate was booked.
    Booked(Stub, Receipt<A>),
    /// It was refused; the ticket stands at the next candidate.
    Next(Ticket<A>, Refusal),
    /// It was refused, and it was the last.
    Out(Stub, Refusal),
    /// The book is another gateway's; nothing changed.
    Wrong(Ticket<A>),
    /// The frame or the book found no memory; nothing changed.
    NoMemory(Ticket<A>),
}
