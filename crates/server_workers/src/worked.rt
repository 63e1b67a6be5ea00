// What a worker has done so far.
ghost use Rattle.std.specs.Prelude.{◌≡◌};
ghost use Rattle.server_workers.specs.Works.{outcomes_airtime};

use crate::turns::Drained;
use crate::{Ledger, Till};
use answer_ticket::{Outcome, Receipt};
use server_desk::TakeFault;
use std::alloc::{Allocator, Global};

/// Why a worker stopped.
#[derive(Clone, Copy)]
pub(crate) enum Stopped {
    /// One more number may not fit into its lists.
    Full,
    /// The channel of numbers is closed and empty.
    AtEnd(Drained),
}

/// What a worker has done so far. Its type keeps that the till has one part, and as amount the airtime of the outcomes,
/// in microseconds.
#[derive(Drop)]
pub struct Worked<B: Ledger, A: Allocator = Global> {
    /// The worker's share of the station's ledger.
    pub till: Till<B>,
    /// What was booked.
    pub receipts: Vec<Receipt<A>, A>,
    /// How the settled answers ended.
    pub outcomes: Vec<Outcome, A>,
    /// The numbers whose device has another ticket out, or for which there was no memory.
    pub skipped: Vec<u64, A>,
    /// The other numbers that got no ticket, and why.
    pub refused: Vec<(u64, TakeFault), A>,
    /// The numbers whose stubs were handed back.
    pub strays: Vec<u64, A>,
    /// How many tries went on although the gate didn't let them in; it stays at its greatest value.
    pub overrun: u64,
    /// Why it stopped, if it did; no code reads it, but clauses speak of it.
    pub(crate) stopped: Option<Stopped>,
    ghost one_part: { till.parts ≡ 1 },
    ghost counted: { till.amount ≡ outcomes_airtime outcomes.items },
}
