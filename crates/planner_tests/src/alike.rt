// Random asks: a trial answers as the live book does, which is asked afterwards, and names the same earliest start.
ghost use Rattle.std.specs.Prelude.{◌≡◌, []};

use crate::asks::Answer;
use crate::trials::{answers_of, sought};
use bumpalo::Bump;
use gateway_book::{Ask, GatewayBook};
use radio_airtime::DataRate;
use resv_list::{HOUR, Roster, VecRoster};
use resv_tree::TreeRoster;
use std::alloc::Global;
use std::test::Fail;
use test_asserts::{equal_at, holds};

/// How many transmissions a book may keep here.
const CAP: u32 = 24;

/// What these books keep between two transmissions, in microseconds.
const GAP: u32 = 1_000;

/// The next of some numbers that look random (Knuth's MMIX).
fn drawn_after(number: u64) -> u64 {
    number
        .wrapping_mul(6_364_136_223_846_793_005)
        .wrapping_add(1_442_695_040_888_963_407)
}

/// An ask within two hours from a moment, in one of three sub-bands or in none, at DR0, and seldom too long.
fn drawn_ask(number: u64, drawn: u64, from: u64) -> Ask {
    let freq_hz = match (drawn >> 33) % 8 {
        0 => 865_000_000,
        1 | 2 => 868_100_000,
        3 | 4 => 869_525_000,
        _ => 863_500_000,
    };
    Ask {
        number,
        start: from.saturating_add((drawn >> 40) % 7_200 * 1_000_000),
        freq_hz,
        rate: DataRate::Dr0,
        len: 12 + ((drawn >> 27) % 54) as u8,
    }
}

/// Twelve asks within two hours from a moment.
fn drawn_asks(alloc: Global, drawn: &mut u64, from: u64) -> Result<Vec<Ask, Global>, Fail> {
    let mut asks = Vec::new(alloc);
    for number in 0..12 {
        *drawn = drawn_after(*drawn);
        asks.push(drawn_ask(number, *drawn, from))?;
    }
    Ok(asks)
}

/// Asks the live book, of whose answers these are to be; how many of the asks it accepts.
fn live_accepts<R: Roster>(
    book: &mut GatewayBook<R>,
    asks: &[Ask],
    answers: &[Answer],
) -> Result<usize, Fail> {
    let mut accepted: usize = 0;
    for (place, ask) in asks.iter().enumerate() {
        let answer = book.book(*ask);
        equal_at(&place, &answers.get(place).copied(), &Some(answer))?;
        accepted = accepted.saturating_add(usize::from(answer.is_ok()));
    }
    holds(asks.len() == answers.len())?;
    Ok(accepted)
}

/// Tries asks on a copy of a book, and looks for a start after them, and asks the book itself; how many it accepts.
fn answers_alike<R: Roster>(
    arena: &mut Bump<Global>,
    alloc: Global,
    book: &mut GatewayBook<R>,
    asks: &[Ask],
    ask: Ask,
) -> Result<usize, Fail> {
    let last = ask.start.saturating_add(HOUR);
    let start = sought(arena, alloc, book, asks, ask, last)?;
    arena.reset()?;
    let answers = answers_of(arena, alloc, book, asks)?;
    arena.reset()?;
    let accepted = live_accepts(book, asks, answers.as_slice())?;
    equal_at(&ask, &start, &book.earliest(ask, ask.start, last))?;
    Ok(accepted)
}

/// Does so again and again, and lets some time pass between.
fn stays_alike<R: Roster + Drop>(roster: R, alloc: Global) -> Result<(), Fail>
    requires { R.list roster ≡ [] }
{
    let mut book = GatewayBook::new(roster, 1, CAP, GAP)?;
    let mut arena = Bump::new(alloc);
    let mut drawn = 1;
    let (mut least, mut most) = (12, 0);
    for _round in 0..40 {
        let from = book.totals().floor.saturating_sub(1_000_000);
        let asks = drawn_asks(alloc, &mut drawn, from)?;
        let ask = drawn_ask(12, drawn_after(drawn), from);
        let accepted = answers_alike(&mut arena, alloc, &mut book, asks.as_slice(), ask)?;
        (least, most) = (accepted.min(least), accepted.max(most));
        book.tick(from.saturating_add((drawn >> 44) % 1_200 * 1_000_000));
    }
    // Of some twelve two at least were accepted, and of some two at least were refused.
    holds(most > 1 && least < 11)
}

#[test]
fn a_trial_answers_as_the_live_book(rt: HostRuntime) -> Result<(), Fail> {
    stays_alike(VecRoster::new(rt.alloc()), rt.alloc())?;
    stays_alike(TreeRoster::new(rt.alloc()), rt.alloc())
}
