// Worked trials: asks with what each is to be answered.

use crate::asks::{Answer, Row, answers_in_m, ask_in_m, asks_in_m};
use crate::trials::{AMPLE_BYTES, Live, answers_of, booked, tried};
use airtime_planner::{what_if, what_if_earliest};
use bumpalo::Bump;
use gateway_book::{Ask, GatewayBook, Refusal};
use resv_list::VecRoster;
use std::alloc::Global;
use std::test::Fail;
use test_asserts::{equal, equal_at};

const TAKEN: Option<Refusal> = Some(Refusal::Taken { start: 10_000_000 });

/// Three asks beside one member that begins at ten seconds.
static BESIDE: [Row; 3] = [
    (8, 10_000_000, TAKEN),
    (9, 10_041_216, None),
    (10, 10_041_215, TAKEN),
];

/// The asks of the rows are answered so on a copy of the book.
fn is_answered(arena: &Bump<Global>, alloc: Global, book: &Live, rows: &[Row]) -> Result<(), Fail> {
    let asks = asks_in_m(alloc, rows)?;
    let out = answers_of(arena, alloc, book, asks.as_slice())?;
    equal(&out.as_slice(), &answers_in_m(alloc, rows)?.as_slice())
}

#[test]
fn an_arena_that_is_reset_gives_the_same_answers(rt: HostRuntime) -> Result<(), Fail> {
    let book = booked(rt.alloc(), &[ask_in_m(1, 10_000_000)])?;
    let before = book.totals();
    let mut arena = Bump::new(rt.alloc());
    for _turn in 0..2 {
        is_answered(&arena, rt.alloc(), &book, &BESIDE)?;
        arena.reset()?;
    }
    equal(&book.totals(), &before)
}

/// An answer that was there, and one ask.
static BEHIND: [Row; 2] = [(2, 0, Some(Refusal::Full)), (3, 0, None)];

/// The answers to one ask and then to none, behind one that was there.
fn answered_behind(alloc: Global) -> Result<Vec<Answer, Global>, Fail> {
    let book = booked(alloc, &[])?;
    let arena = Bump::new(alloc);
    let mut out = Vec::new(alloc);
    out.push(Err(Refusal::Full))?;
    tried(&arena, alloc, &book, &[ask_in_m(3, 0)], &mut out)?;
    tried(&arena, alloc, &book, &[], &mut out)?;
    Ok(out)
}

#[test]
fn answers_stand_behind_what_was_there(rt: HostRuntime) -> Result<(), Fail> {
    let out = answered_behind(rt.alloc())?;
    let wanted = answers_in_m(rt.alloc(), &BEHIND)?;
    equal(&out.as_slice(), &wanted.as_slice())
}

/// Two asks where all but the airtime of one has been booked.
static LAST_AIRTIME: [Row; 2] = [
    (8, 10_000_000, None),
    (9, 10_041_216, Some(Refusal::TotalsFull)),
];

/// The answers to them, where nothing is kept.
fn nearly_all_booked(alloc: Global) -> Result<Vec<Answer, Global>, Fail> {
    let list = GatewayBook::new(VecRoster::new(alloc), 1, 4_096, 0)?.list(alloc)?;
    let arena = Bump::try_with_capacity(alloc, AMPLE_BYTES)?;
    let asks = asks_in_m(alloc, &LAST_AIRTIME)?;
    let mut out = Vec::new(alloc);
    what_if(
        &arena,
        &list,
        0,
        4_096,
        0,
        (1 << 62) - 41_216,
        &asks,
        &mut out,
    )?;
    Ok(out)
}

#[test]
fn booked_airtime_is_raised_by_what_a_trial_accepts(rt: HostRuntime) -> Result<(), Fail> {
    let out = nearly_all_booked(rt.alloc())?;
    let wanted = answers_in_m(rt.alloc(), &LAST_AIRTIME)?;
    equal(&out.as_slice(), &wanted.as_slice())
}

/// The earliest start of one more ask after these, where nothing is kept and all but the airtime of one has been booked.
fn earliest_of_the_last(alloc: Global, asks: &[Ask]) -> Result<Option<u64>, Fail> {
    let list = GatewayBook::new(VecRoster::new(alloc), 1, 4_096, 0)?.list(alloc)?;
    let arena = Bump::try_with_capacity(alloc, AMPLE_BYTES)?;
    Ok(what_if_earliest(
        &arena,
        &list,
        0,
        4_096,
        0,
        (1 << 62) - 41_216,
        asks,
        ask_in_m(9, 0),
        0,
        u64::MAX,
    )?)
}

#[test]
fn nothing_starts_once_all_airtime_is_booked(rt: HostRuntime) -> Result<(), Fail> {
    equal_at(&0, &earliest_of_the_last(rt.alloc(), &[])?, &Some(0))?;
    equal_at(
        &1,
        &earliest_of_the_last(rt.alloc(), &[ask_in_m(8, 10_000_000)])?,
        &None,
    )
}
