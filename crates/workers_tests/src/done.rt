// What workers did.

use answer_ticket::{Ending, Outcome};
use server_core::TakeFault;
use server_workers::{Ledger, ServeCause, Served, Worked};

/// What workers did together.
#[derive(Clone, Copy, Debug, PartialEq)]
pub(crate) struct Done<'a> {
    /// How many workers were started.
    pub(crate) ran: u8,
    /// How many answers were booked.
    pub(crate) answered: usize,
    /// How many receipts there are.
    pub(crate) receipts: usize,
    /// The numbers that were skipped.
    pub(crate) skipped: &'a [u64],
    /// How many numbers were refused.
    pub(crate) refused: usize,
    /// How many stubs were handed back.
    pub(crate) strays: usize,
    /// How many tries the gate didn't let in.
    pub(crate) overrun: u64,
    /// Whether the receipts and the outcomes are those of the numbers, in order.
    pub(crate) are_in_order: bool,
}

/// Nothing, by nobody.
pub(crate) const NOTHING: Done = Done {
    ran: 0,
    answered: 0,
    receipts: 0,
    skipped: &[],
    refused: 0,
    strays: 0,
    overrun: 0,
    are_in_order: false,
};

/// What workers did, or why nobody served and how many parts the till has that was handed back.
pub(crate) type Told<'a> = Result<Done<'a>, (ServeCause, u32)>;

/// What one worker did by itself.
#[derive(Clone, Copy, Debug, PartialEq)]
pub(crate) struct DoneAlone<'a> {
    /// How many outcomes there are.
    pub(crate) outcomes: usize,
    /// The numbers that were skipped.
    pub(crate) skipped: &'a [u64],
    /// The numbers that were refused, and why.
    pub(crate) refused: &'a [(u64, TakeFault)],
    /// How many tries the gate didn't let in.
    pub(crate) overrun: u64,
    /// Which number is left first, of each channel.
    pub(crate) left: [Option<u64>; 2],
}

/// What workers did at these numbers.
pub(crate) fn done_by<'a, B: Ledger>(served: &'a Served<B>, numbers: &[u64]) -> Done<'a> {
    Done {
        ran: served.ran,
        answered: answered(&served.outcomes),
        receipts: served.receipts.len(),
        skipped: served.skipped.as_slice(),
        refused: served.refused.len(),
        strays: served.strays.len(),
        overrun: served.overrun,
        are_in_order: are_in_order(served, numbers),
    }
}

/// What one worker did, who left these numbers first.
pub(crate) fn done_alone<B: Ledger>(worked: &Worked<B>, left: [Option<u64>; 2]) -> DoneAlone<'_> {
    DoneAlone {
        outcomes: worked.outcomes.len(),
        skipped: worked.skipped.as_slice(),
        refused: worked.refused.as_slice(),
        overrun: worked.overrun,
        left,
    }
}

/// How many answers were booked.
fn answered(outcomes: &[Outcome]) -> usize {
    let mut answered = 0usize;
    for outcome in outcomes {
        if let Ending::Answered { .. } = outcome.result {
            answered = answered.saturating_add(1);
        }
    }
    answered
}

/// Whether the receipts and the outcomes are those of the numbers, in order.
fn are_in_order<B: Ledger>(served: &Served<B>, numbers: &[u64]) -> bool {
    for (i, number) in numbers.iter().enumerate() {
        let receipt = served.receipts.get(i).map(|receipt| receipt.number);
        let outcome = served.outcomes.get(i).map(|outcome| outcome.number);
        if receipt != Some(*number) || outcome != Some(*number) {
            return false;
        }
    }
    true
}
