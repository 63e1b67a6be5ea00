// What became of numbers that were taken up: one list for each end.
ghost use Rattle.std.specs.Prelude.{◌≡◌, ◌+◌, ◌≤◌, IfOk, vec_len, vec_capacity};
ghost use Rattle.server_workers.specs.Filing.{filing, nothing, AreEmptyFor, AreJoined, IsReordered, IsByNumber};
ghost use Rattle.server_workers.specs.Filing.{HasRoomForMore};
ghost use Rattle.server_workers.specs.Works.{IsJoined};

use answer_ticket::{Outcome, Receipt};
use server_desk::TakeFault;
use std::alloc::{AllocError, Allocator, Global};

/// What became of some numbers.
#[derive(Drop)]
pub struct Filed<A: Allocator = Global> {
    /// What was booked.
    pub receipts: Vec<Receipt<A>, A>,
    /// How the settled answers ended.
    pub outcomes: Vec<Outcome, A>,
    /// The numbers whose device has another ticket out, or for which there was no memory.
    pub skipped: Vec<u64, A>,
    /// The other numbers that got no ticket, and why.
    pub refused: Vec<(u64, TakeFault), A>,
    /// The numbers whose stubs were handed back.
    pub strays: Vec<u64, A>,
}

impl<A: Allocator + Copy> Filed<A> {
    /// Nothing yet.
    pub fn none(alloc: A) -> Self
        ensures { filing result ≡ nothing }
    {
        Filed {
            receipts: Vec::new(alloc),
            outcomes: Vec::new(alloc),
            skipped: Vec::new(alloc),
            refused: Vec::new(alloc),
            strays: Vec::new(alloc),
        }
    }

    /// Nothing yet, and room for `room` items in each list.
    pub(crate) fn with_room(alloc: A, room: usize) -> Result<Self, AllocError>
        ensures { IfOk result (λ filed. AreEmptyFor room filed) }
    {
        Ok(Filed {
            receipts: Vec::with_capacity(alloc, room)?,
            outcomes: Vec::with_capacity(alloc, room)?,
            skipped: Vec::with_capacity(alloc, room)?,
            refused: Vec::with_capacity(alloc, room)?,
            strays: Vec::with_capacity(alloc, room)?,
        })
    }
}

impl<A: Allocator> Filed<A> {
    /// Takes in what else was filed, for which there is room. Takes no memory.
    pub(crate) fn append(&mut self, more: Filed<A>)
        requires { HasRoomForMore more self.old }
        ensures { AreJoined self.old more self.new }
    {
        join(&mut self.receipts, more.receipts);
        join(&mut self.outcomes, more.outcomes);
        join(&mut self.skipped, more.skipped);
        join(&mut self.refused, more.refused);
        join(&mut self.strays, more.strays);
    }

    /// Sorts each list by number. Takes no memory.
    pub fn sort(&mut self)
        ensures same { IsReordered (filing self.old) (filing self.new) }
        ensures sorted { IsByNumber (filing self.new) }
    {
        self.receipts.sort_unstable_by_key(|receipt| receipt.number);
        self.outcomes.sort_unstable_by_key(|outcome| outcome.number);
        self.skipped.sort_unstable();
        self.refused.sort_unstable_by_key(|refused| refused.0);
        self.strays.sort_unstable();
    }
}

/// Moves the items of a list to the end of another, which has room for them.
fn join<X: Drop, A: Allocator>(all: &mut Vec<X, A>, mut more: Vec<X, A>)
    requires { vec_len all.old + vec_len more ≤ vec_capacity all.old }
    ensures { IsJoined all.old more all.new }
{
    let Ok(()) = all.append(&mut more) else {
        unreachable!()
    };
}
