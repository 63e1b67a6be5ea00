ghost use Rattle.std.specs.Prelude.{◌≡◌, ◌≢◌, Some, IfOk};
ghost use Rattle.std.specs.Option.{option_map};
ghost use Rattle.answer_ticket.specs.Job.{IsJob, ask_for, frame_for};
ghost use Rattle.gateway_book.specs.Answer.{IsAsked};
ghost use Rattle.answer_ticket.specs.Ticket.{IsStanding, candidate_of};
ghost use Rattle.answer_ticket.specs.Ended.{IsWithinLongest, IsOfCandidate};
ghost use Rattle.answer_ticket.specs.Tried.{TriedIs, stub_of, booked_of, refused_of};

use crate::{Bytes, Ending, Job, Receipt, Stub, Tried};
use gateway_book::{GatewayBook, NoMemory, Refusal};
use resv_list::{Reservation, Roster};
use rx_windows::{Candidate, candidates};
use std::alloc::{AllocError, Allocator};
use std::marker::Model;

/// The right to one answer: a job, and the candidate to try next. Its type keeps that the candidates are RX1 of
/// each copy of the job and then RX2 of each copy (LoRaWAN L2 1.0.4, section 3.3). It can't be copied or dropped:
/// every call that takes it gives a ticket or a stub back.
pub struct Ticket<A: Allocator> {
    job: Job<A>,
    candidates: Vec<Candidate, A>,
    at: usize,
}

impl<A: Allocator> Model for Ticket<A> {
    ghost use Rattle.answer_ticket.specs.Ticket.{Standing, IsTicket};

    ghost Value = { Standing };

    ghost view = { λ t. record { job = t.job; at = t.at } };

    ghost invariant = { λ t. IsTicket (record { job = t.job; at = t.at }) t.candidates.items };
}

impl<A: Allocator> Ticket<A> {
    /// The ticket for a job, at its first candidate. The job has at least one copy, its copies and its plan are in
    /// range, its port is 1 to 223, and the plan's payload is as long as its body's. Where the growth for the
    /// candidates is refused, the job is dropped.
    pub fn new(alloc: A, job: Job<A>) -> Result<Self, NoMemory>
        requires { IsJob job }
        ensures { IfOk result (λ t. t ≡ record { job = job; at = 0 }) }
    {
        let candidates = candidates(alloc, job.copies.as_slice(), &job.plan)?;
        Ok(Ticket {
            job,
            candidates,
            at: 0,
        })
    }

    /// The number of the uplink's gathering; takes no memory.
    pub fn number(&self) -> u64
        ensures kept { IsStanding self.now }
        ensures number { result ≡ self.now.job.number }
    {
        self.job.number
    }

    /// The gateway of the candidate to try next; takes no memory.
    pub fn gateway(&self) -> u16
        ensures kept { IsStanding self.now }
        ensures gateway { option_map (λ c. c.gateway) (candidate_of self.now) ≡ Some result }
    {
        self.candidate().gateway
    }

    /// The downlink counter of the answer; takes no memory.
    pub fn counter(&self) -> u32
        ensures kept { IsStanding self.now }
        ensures counter { result ≡ self.now.job.counter }
    {
        self.job.counter
    }

    /// Spends the ticket with no answer; takes no memory.
    pub fn give_up(self) -> Stub
        ensures { result ≡ stub_of self.job Ending.GivenUp }
    {
        self.ended(Ending::GivenUp)
    }

    /// The candidate to try next.
    fn candidate(&self) -> Candidate
        ensures kept { IsStanding self.now }
        ensures candidate { candidate_of self.now ≡ Some result }
    {
        self.candidates[self.at]
    }

    /// The stub of this ticket.
    fn ended(self, ending: Ending) -> Stub
        requires short { IsWithinLongest ending }
        requires booked { IsOfCandidate ending }
        ensures { result ≡ stub_of self.job ending }
    {
        let Ticket {
            job,
            candidates: _,
            at: _,
        } = self;
        Stub::new(job.number, ending)
    }

    /// What is given where the book has reserved the candidate.
    fn booked(self, candidate: Candidate, reservation: Reservation, frame: Bytes<A>) -> Tried<A>
        requires { IsAsked (ask_for self.job candidate) reservation }
        ensures { result ≡ booked_of self.job candidate reservation frame }
    {
        let receipt = Receipt {
            number: self.job.number,
            gateway: candidate.gateway,
            window: candidate.window,
            reservation,
            frame,
        };
        let ending = Ending::Answered {
            gateway: candidate.gateway,
            window: candidate.window,
            start: candidate.start,
            airtime: reservation.airtime(),
            carried: candidate.carries,
        };
        Tried::Booked(self.ended(ending), receipt)
    }

    /// What is given where the book refused the candidate that the ticket stands at.
    fn refused(mut self, refusal: Refusal) -> Tried<A>
        ensures memory { refusal ≡ Refusal.NoMemory → result ≡ Tried.NoMemory self }
        ensures refused { refusal ≢ Refusal.NoMemory → result ≡ refused_of self refusal }
    {
        if refusal == Refusal::NoMemory {
            return Tried::NoMemory(self);
        }
        if self.at + 1 == self.candidates.len() {
            return Tried::Out(self.ended(Ending::Unanswered(refusal)), refusal);
        }
        self.at += 1;
        Tried::Next(self, refusal)
    }
}

impl<A: Allocator + Clone> Ticket<A> {
    /// Asks the book of a gateway once for the candidate that the ticket stands at; `Tried` has what becomes of the
    /// ticket. Another gateway's book is not asked. The frame is made first, so that whatever is booked can be sent;
    /// where it or the book finds no memory, ticket and book stay as they were.
    pub fn try_on<R: Roster>(self, book: &mut GatewayBook<R>) -> Tried<A>
        ensures { TriedIs self book.old book.new result }
    {
        let candidate = self.candidate();
        if book.id() != candidate.gateway {
            return Tried::Wrong(self);
        }
        let Ok(frame) = self.frame(&candidate) else {
            return Tried::NoMemory(self);
        };
        match book.book(self.job.ask(&candidate)) {
            Ok(reservation) => self.booked(candidate, reservation, frame),
            Err(refusal) => self.refused(refusal),
        }
    }

    /// The candidate's frame, on a clone of the candidates' allocator. Err(NoMemory) where that or the frame's growth
    /// is refused.
    fn frame(&self, candidate: &Candidate) -> Result<Bytes<A>, NoMemory>
        ensures { IfOk result (λ frame. frame ≡ frame_for self.now.job candidate.now) }
    {
        let alloc = self.candidates.allocator().clone()?;
        self.job.frame(alloc, candidate).map_err(|_| AllocError)
    }
}
