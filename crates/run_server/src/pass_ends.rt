// How the uplinks that one `pass` closed ended.
ghost use Rattle.std.specs.Prelude.{◌≡◌, map, IfOk, IsTrue};
ghost use Rattle.std.specs.List.Sorted.{IsStrictlyIncreasing};
ghost use Rattle.run_server.specs.Booking.{booking_of};
ghost use Rattle.server_workers.specs.Filing.{filing, IsByNumber};
ghost use Rattle.run_server.specs.PassEnds.{end_of, left_by};
ghost use Rattle.run_server.specs.PassAnswers.{answer_in, IsToldOf};

use crate::numbered::with_number;
use crate::pass_answers::{Answer, answer_to};
use answer_ticket::Ending;
use server_core::{NoMemory, TakeFault};
use server_workers::Filed;
use std::alloc::Global;

/// Where in each list the next number is looked for first.
#[derive(Drop, Default)]
struct Likely {
    receipt: usize,
    outcome: usize,
    refused: usize,
    stray: usize,
}

/// How one uplink ended.
#[derive(Clone, Copy)]
pub(crate) enum End {
    /// Its answer was settled.
    Settled(Ending),
    /// It got no ticket.
    Refused(TakeFault),
    /// Its stub was handed back.
    Stray,
}

/// Those of these numbers that have not ended. Err(NoMemory) where a growth was refused.
pub(crate) fn left_of(
    alloc: Global,
    filed: &Filed<Global>,
    numbers: &[u64],
) -> Result<Vec<u64>, NoMemory>
    requires { IsByNumber (filing filed.now) }
    ensures { IfOk result (λ left. left.items ≡ left_by (filing filed.now) numbers.now) }
{
    let mut left = Vec::new(alloc);
    let mut likely = Likely::default();
    for number in numbers {
        if end_of(filed, &mut likely, *number).is_none() {
            left.push(*number)?;
        }
    }
    Ok(left)
}

/// The answers to the uplinks with these numbers, one for each, of lists that are sorted by number. Where the numbers rise
/// frames are moved out of the receipts; where they don't, so that one may stand twice, they are copied. Err(NoMemory) where
/// a growth was refused.
pub fn answers(
    alloc: Global,
    filed: &mut Filed<Global>,
    numbers: &[u64],
) -> Result<Vec<Answer>, NoMemory>
    requires { IsByNumber (filing filed.old) }
    ensures told { IfOk result (λ answers. answers.items ≡ map (answer_in (filing filed.old)) numbers.now) }
    ensures booked { map booking_of filed.new.receipts.items ≡ map booking_of filed.old.receipts.items }
{
    let is_moved = do_rise(numbers);
    let mut answers = Vec::with_capacity(alloc, numbers.len())?;
    let mut likely = Likely::default();
    for number in numbers {
        answers.push(answer(alloc, filed, &mut likely, *number, is_moved)?)?;
    }
    Ok(answers)
}

/// The answer to the uplink with this number; one of which nothing is known is named a stray. Its frame is moved out of its
/// receipt, or copied.
fn answer(
    alloc: Global,
    filed: &mut Filed<Global>,
    likely: &mut Likely,
    number: u64,
    is_moved: bool,
) -> Result<Answer, NoMemory>
    requires { IsByNumber (filing filed.old) }
    ensures answer { IfOk result (λ answer. answer ≡ answer_in (filing filed.old) number) }
    ensures told { IsToldOf is_moved number (filing filed.old) (filing filed.new) }
{
    let end = end_of(filed, likely, number).unwrap_or(End::Stray);
    let receipts = filed.receipts.as_mut_slice();
    answer_to(alloc, number, end, receipts, &mut likely.receipt, is_moved)
}

/// How the uplink with this number ended.
fn end_of(filed: &Filed<Global>, likely: &mut Likely, number: u64) -> Option<End>
    requires { IsByNumber (filing filed.now) }
    ensures { result ≡ end_of (filing filed.now) number }
{
    if let Some(outcome) = with_number(filed.outcomes.as_slice(), &mut likely.outcome, number) {
        return Some(End::Settled(outcome.result));
    }
    if let Some((_, fault)) = with_number(filed.refused.as_slice(), &mut likely.refused, number) {
        return Some(End::Refused(*fault));
    }
    with_number(filed.strays.as_slice(), &mut likely.stray, number).map(|_| End::Stray)
}

/// Whether each of these numbers is greater than the one before.
fn do_rise(numbers: &[u64]) -> bool
    ensures { IsTrue result → IsStrictlyIncreasing numbers.now }
{
    numbers.is_sorted_by(|one, next| one < next)
}
