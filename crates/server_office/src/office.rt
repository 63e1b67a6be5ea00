ghost use Rattle.std.specs.Prelude.{◌≡◌, ◌+◌, Ok, Err, IfOk, OnOk, OnErr, MatchBool, MatchResult, IsOkUnless};
ghost use Rattle.answer_ticket.specs.Ended.{IsOfCandidate};
ghost use Rattle.server_desk.specs.Airtime.{airtime_of_ending};
ghost use Rattle.server_desk.specs.Desk.{total_of};
ghost use Rattle.server_desk.specs.Desk.{desk_queue, desk_hear, desk_pass, desk_take, desk_settle};
ghost use Rattle.server_desk.specs.Hearing.{decide, answer_to};
ghost use Rattle.server_desk.specs.Passing.{pass_answer};
ghost use Rattle.server_desk.specs.Queueing.{queue_answer};
ghost use Rattle.server_desk.specs.Settling.{may_settle};
ghost use Rattle.server_desk.specs.Taking.{take_answer};

use crate::{Ledger, Tally, Till};
use answer_ticket::{Ending, Outcome, Stub, Ticket};
pub use server_desk::NoMemory;
use server_desk::{Desk, DeskFault, DeskHeard, Heard1, QueueFault, TakeFault};
use std::alloc::{Allocator, Global};
use std::hash::BuildHasher;
use std::marker::Model;

/// What stands behind the desk's lock: the desk, and the tally of the ledger. Its type keeps that the tally is the airtime
/// of all settled answers, in microseconds. Seen as its desk.
#[derive(Drop)]
pub struct Office<B: Ledger, S: BuildHasher, A: Allocator = Global> {
    desk: Desk<S, A>,
    tally: Tally<B>,
}

impl<B: Ledger, S: BuildHasher, A: Allocator> Model for Office<B, S, A> {
    ghost use Rattle.std.specs.Prelude.{◌≡◌};
    ghost use Rattle.server_desk.specs.Desk.{DeskView};
    ghost use Rattle.server_desk.specs.Desk.{total_of};

    ghost Value = { DeskView };

    ghost view = { λ o. o.desk };

    ghost invariant = { λ o. o.tally ≡ total_of o.desk };
}

impl<B: Ledger, S: BuildHasher, A: Allocator + Copy> Office<B, S, A> {
    /// Queues a payload, as the desk does.
    pub fn queue(&mut self, addr: u32, port: u8, payload: &[u8]) -> Result<usize, QueueFault>
        ensures answer { MatchResult (queue_answer self.old.reg addr (port, payload.now))
            (λ _. IsOkUnless result QueueFault.NoMemory) (λ fault. result ≡ Err fault) }
        ensures told { IfOk result (λ count. queue_answer self.old.reg addr (port, payload.now) ≡ Ok count) }
        ensures step { OnOk result (self.new ≡ desk_queue self.old addr (port, payload.now)) }
        ensures refused { OnErr result (self.new ≡ self.old) }
    {
        self.desk.queue(addr, port, payload)
    }

    /// Takes in a copy of an uplink, as the desk does.
    pub fn hear(
        &mut self,
        bytes: &[u8],
        heard: Heard1,
        arrived: u64,
    ) -> Result<DeskHeard, DeskFault>
        ensures answer { MatchResult (answer_to (decide self.old.ids self.old.reg bytes.now heard arrived) self.old.reg)
            (λ _. IsOkUnless result DeskFault.NoMemory) (λ fault. result ≡ Err fault) }
        ensures told { IfOk result (λ told. answer_to (decide self.old.ids self.old.reg bytes.now heard arrived) self.old.reg
            ≡ Ok told) }
        ensures step { OnOk result (self.new ≡ desk_hear self.old bytes.now heard arrived) }
        ensures refused { OnErr result (self.new ≡ self.old) }
    {
        self.desk.hear(bytes, heard, arrived)
    }

    /// Gives a ticket, as the desk does.
    pub fn take(&mut self, n: u64) -> Result<Ticket<A>, TakeFault>
        ensures answer { MatchResult (take_answer self.old.reg self.old.known n) (λ _. IsOkUnless result TakeFault.NoMemory)
            (λ fault. result ≡ Err fault) }
        ensures job { IfOk result (λ ticket. take_answer self.old.reg self.old.known n ≡ Ok ticket.job) }
        ensures first { IfOk result (λ ticket. ticket.at ≡ 0) }
        ensures step { OnOk result (self.new ≡ desk_take self.old n) }
        ensures refused { OnErr result (self.new ≡ self.old) }
    {
        self.desk.take(n)
    }
}

impl<B: Ledger, S: BuildHasher, A: Allocator> Office<B, S, A> {
    /// A desk beside the tally of its settled answers' airtime, in microseconds.
    pub fn new(desk: Desk<S, A>, tally: Tally<B>) -> Self
        requires { tally ≡ total_of desk }
        ensures { result ≡ desk }
    {
        Office { desk, tally }
    }

    /// The desk, and the tally of its settled answers' airtime, in microseconds. Takes no memory.
    pub fn parted(self) -> (Desk<S, A>, Tally<B>)
        ensures desk { result.0 ≡ self }
        ensures tally { result.1 ≡ total_of self }
    {
        let Office { desk, tally } = self;
        (desk, tally)
    }

    /// Closes the least gathering that is due, as the desk does. Takes no memory.
    pub fn pass(&mut self, now: u64) -> Option<u64>
        ensures answer { result ≡ pass_answer self.old.reg now }
        ensures step { self.new ≡ desk_pass self.old now }
    {
        self.desk.pass(now)
    }

    /// Settles an answer, as the desk does. The airtime of an answer that was booked is counted in the tally and with the
    /// till; else both stay as they are. Takes no memory.
    pub fn settle(&mut self, stub: Stub, till: &mut Till<B>) -> Result<Outcome, Stub>
        ensures answer { MatchBool (may_settle self.old.ids self.old.known stub.number stub.result) (result ≡ Ok stub)
            (result ≡ Err stub) }
        ensures step { self.new ≡ desk_settle self.old stub.number stub.result }
        ensures booked { IfOk result (λ outcome. IsOfCandidate outcome.result) }
        ensures counted { OnOk result (till.new ≡ record till.old { amount = till.old.amount + airtime_of_ending stub.result }) }
        ensures refused { OnErr result (till.new ≡ till.old) }
    {
        match self.desk.settle(stub) {
            Err(stub) => Err(stub),
            Ok(outcome) => {
                if let Ending::Answered { airtime, .. } = outcome.result {
                    self.tally.add(till, airtime);
                }
                Ok(outcome)
            }
        }
    }
}
