// A ticket is given for an uplink.

ghost use Rattle.std.specs.Prelude.{◌≡◌, Ok, IfOk, OnOk, OnErr, MatchResult, IsOkUnless};
ghost use Rattle.uplink_gather.specs.Gatherings.{copies_of};
ghost use Rattle.rx_windows.specs.Rank.{ranked};
ghost use Rattle.server_desk.specs.Taking.{take_answer};
ghost use Rattle.server_desk.specs.Invariant.{MayBeGiven};
ghost use Rattle.server_desk.specs.Desk.{desk_take};

use crate::answers::{Asked, Known, numbered};
use crate::{Desk, NoMemory, TakeFault};
use answer_ticket::{Copies, Ticket};
use rx_windows::rank;
use std::alloc::Allocator;
use std::hash::BuildHasher;

impl<S: BuildHasher, A: Allocator + Copy> Desk<S, A> {
    /// Gives a ticket for the uplink with this number, at its first candidate, or answers the first fault that holds, in
    /// the order of `TakeFault`. The ticket's downlink counter is used up, whatever becomes of the ticket. A fault changes
    /// nothing; `NoMemory` comes only where a growth was refused.
    pub fn take(&mut self, n: u64) -> Result<Ticket<A>, TakeFault>
        ensures answer { MatchResult (take_answer self.old.reg self.old.known n) (λ _. IsOkUnless result TakeFault.NoMemory)
            (λ fault. result ≡ Err fault) }
        ensures job { IfOk result (λ ticket. take_answer self.old.reg self.old.known n ≡ Ok ticket.job) }
        ensures first { IfOk result (λ ticket. ticket.at ≡ 0) }
        ensures step { OnOk result (self.new ≡ desk_take self.old n) }
        ensures refused { OnErr result (self.new ≡ self.old) }
    {
        let asked = match self.owed(n) {
            Ok(asked) => asked,
            Err(fault) => return Err(fault),
        };
        let ticket = match self.ticket(n, &asked) {
            Ok(ticket) => ticket,
            Err(_) => return Err(TakeFault::NoMemory),
        };
        self.give(n, &asked);
        Ok(ticket)
    }

    /// The ticket for uplink `n`, which says this.
    fn ticket(&self, n: u64, asked: &Asked) -> Result<Ticket<A>, NoMemory>
        requires { MayBeGiven self.now.reg self.now.known n asked.now }
        ensures job { IfOk result (λ ticket. take_answer self.now.reg self.now.known n ≡ Ok ticket.job) }
        ensures first { IfOk result (λ ticket. ticket.at ≡ 0) }
    {
        let copies = self.copies_by_rank(n)?;
        let job = self.devices[asked.device].job(n, asked, copies)?;
        Ticket::new(*self.known.allocator(), job)
    }

    /// The copies of uplink `n`, the best one first.
    fn copies_by_rank(&self, n: u64) -> Result<Copies<A>, NoMemory>
        ensures { IfOk result (λ copies. copies ≡ ranked (copies_of n self.now.reg.gathered.list)) }
    {
        let mut copies = Vec::from_slice(*self.known.allocator(), self.gather.copies(n))?;
        rank(&mut copies);
        Ok(Copies::new(copies))
    }
}

impl<S: BuildHasher, A: Allocator> Desk<S, A> {
    /// What the uplink with this number says, where a ticket may be given for it, or why none is.
    #[tactic(auto, using(crate::proofs::TakeLemmas::within_here), unfolding(crate::specs::Taking::take_answer))]
    fn owed(&self, n: u64) -> Result<Asked, TakeFault>
        ensures { MatchResult result (λ asked. MayBeGiven self.now.reg self.now.known n asked)
            (λ fault. take_answer self.now.reg self.now.known n ≡ Err fault) }
    {
        if !self.gather.is_closed(n) {
            return Err(TakeFault::NotReady);
        }
        let Some(asked) = numbered(&self.asked, n) else {
            return Err(TakeFault::NotReady);
        };
        let Some(known) = numbered(&self.known, n) else {
            return Err(TakeFault::NotReady);
        };
        if !known.is_not_given() {
            return Err(TakeFault::Taken);
        }
        match self.devices[asked.device].take_fault(&asked) {
            None => Ok(asked),
            Some(fault) => Err(fault),
        }
    }

    /// The ticket for uplink `n`, which says this, is out from now on.
    fn give(&mut self, n: u64, asked: &Asked)
        requires { MayBeGiven self.old.reg self.old.known n asked.now }
        ensures { self.new ≡ desk_take self.old n }
    {
        self.devices[asked.device].give();
        self.known[n as usize - 1] = Known::Pending;
    }
}
