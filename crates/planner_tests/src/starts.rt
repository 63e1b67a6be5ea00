// The earliest start on a copy of a book: worked answers, with asks before and without.

use crate::asks::{ask_in_k, ask_in_m};
use crate::trials::{Live, booked, sought};
use airtime_planner::what_if_earliest;
use bumpalo::Bump;
use gateway_book::Ask;
use radio_airtime::DataRate;
use std::alloc::Global;
use std::test::Fail;
use test_asserts::{equal, equal_at};

/// Numbers and starts of asks in sub-band K.
type InK = &'static [(u64, u64)];

/// Three members that fill an hour of sub-band K.
const MEMBERS: InK = &[(1, 0), (2, 1_000_000), (3, 2_000_000)];

/// The asks before, the rate of the ask (DR0 in sub-band K, DR5 in sub-band M) with its first and its last start, and the
/// earliest.
static EARLIEST: [(InK, DataRate, u64, u64, Option<u64>); 9] = [
    (&[], DataRate::Dr0, 0, u64::MAX, Some(3_600_000_000)),
    (&[], DataRate::Dr0, 0, 3_600_000_000, Some(3_600_000_000)),
    (&[], DataRate::Dr0, 0, 3_599_999_999, None),
    (&[], DataRate::Dr5, 0, 10_000_000, Some(2_991_232)),
    (&[], DataRate::Dr5, 9, 8, None),
    (&[REFUSED], DataRate::Dr0, 0, u64::MAX, Some(3_600_000_000)),
    (&[ACCEPTED], DataRate::Dr0, 0, u64::MAX, Some(3_601_000_000)),
    (
        &[REFUSED, ACCEPTED],
        DataRate::Dr0,
        0,
        u64::MAX,
        Some(3_601_000_000),
    ),
    (&[REFUSED, ACCEPTED], DataRate::Dr0, 0, 3_600_999_999, None),
];

/// Of asks before, what is accepted alone stays.
const REFUSED: (u64, u64) = (6, 3_599_999_999);

const ACCEPTED: (u64, u64) = (4, 3_600_000_000);

fn asks_in_k(alloc: Global, rows: InK) -> Result<Vec<Ask, Global>, Fail> {
    let mut asks = Vec::new(alloc);
    for (number, start) in rows {
        asks.push(ask_in_k(*number, *start))?;
    }
    Ok(asks)
}

/// The earliest start of an ask at this rate, after these asks.
fn found(
    arena: &Bump<Global>,
    alloc: Global,
    book: &Live,
    before: InK,
    rate: DataRate,
    start: u64,
    last: u64,
) -> Result<Option<u64>, Fail> {
    let asks = asks_in_k(alloc, before)?;
    let ask = match rate {
        DataRate::Dr0 => ask_in_k(5, start),
        _ => ask_in_m(5, start),
    };
    Ok(sought(arena, alloc, book, asks.as_slice(), ask, last)?)
}

/// Each is found, and the arena is reset after each.
fn are_found(arena: &mut Bump<Global>, alloc: Global, book: &Live) -> Result<(), Fail> {
    for (before, rate, start, last, wanted) in &EARLIEST {
        let got = found(arena, alloc, book, *before, *rate, *start, *last)?;
        equal_at(&(*before, *last), &got, wanted)?;
        arena.reset()?;
    }
    Ok(())
}

#[test]
fn names_the_earliest_start_of_a_copy(rt: HostRuntime) -> Result<(), Fail> {
    let book = booked(rt.alloc(), asks_in_k(rt.alloc(), MEMBERS)?.as_slice())?;
    let before = book.totals();
    let mut arena = Bump::new(rt.alloc());
    are_found(&mut arena, rt.alloc(), &book)?;
    are_found(&mut arena, rt.alloc(), &book)?;
    equal(&book.totals(), &before)
}

/// The earliest start from moment 0 on of an ask that itself names a later one.
fn from_the_beginning(alloc: Global, book: &Live) -> Result<Option<u64>, Fail> {
    let list = book.list(alloc)?;
    let totals = book.totals();
    let arena = Bump::new(alloc);
    Ok(what_if_earliest(
        &arena,
        &list,
        totals.floor,
        book.cap(),
        book.gap(),
        totals.booked,
        &[],
        ask_in_k(5, 9_000_000_000),
        0,
        u64::MAX,
    )?)
}

#[test]
fn passes_over_the_start_that_the_ask_names(rt: HostRuntime) -> Result<(), Fail> {
    let book = booked(rt.alloc(), asks_in_k(rt.alloc(), MEMBERS)?.as_slice())?;
    equal(
        &from_the_beginning(rt.alloc(), &book)?,
        &Some(3_600_000_000),
    )
}
