// Asks that are tried on a copy of a book, and the earliest start that is found on one, where the arena or the answers find no
// memory.

use crate::asks::{Answer, Row, answers_like, ask_in_k};
use crate::trials::{Live, booked, sought, tried};
use bumpalo::Bump;
use gateway_book::{Ask, GatewayBook, Refusal};
use radio_airtime::DataRate;
use radio_bands::Band;
use refusing_alloc::{Call, Refuser, Refusing, growths_of, was_refused};
use resv_list::Roster;
use std::alloc::{Allocator, Global};
use std::test::Fail;
use test_asserts::{equal, holds, holds_at};

/// Twelve bytes on 863.5 MHz at DR0: 991,232 microseconds on air, of which three fill an hour of the sub-band.
const ASK: Ask = Ask {
    number: 9,
    start: 0,
    freq_hz: 863_500_000,
    rate: DataRate::Dr0,
    len: 12,
};

/// A book whose three members fill an hour of the sub-band.
fn live(memory: Global) -> Result<Live, Fail> {
    let asks = [
        ask_in_k(1, 0),
        ask_in_k(2, 1_000_000),
        ask_in_k(3, 2_000_000),
    ];
    booked(memory, &asks)
}

/// Asks within the hour that is full, and behind it.
static ASKS: [Ask; 5] = [
    Ask {
        number: 6,
        start: 3_599_999_999,
        ..ASK
    },
    Ask {
        number: 4,
        start: 3_600_000_000,
        ..ASK
    },
    Ask {
        number: 5,
        start: 0,
        ..ASK
    },
    Ask {
        number: 7,
        start: 3_601_000_000,
        ..ASK
    },
    Ask {
        number: 8,
        start: 3_602_000_000,
        ..ASK
    },
];

/// What the live book would answer to them, behind an answer that was there before.
static ROWS: [Row; 6] = [
    (0, 0, Some(Refusal::Full)),
    (6, 3_599_999_999, Some(HOUR_FULL)),
    (4, 3_600_000_000, None),
    (5, 0, Some(Refusal::Taken { start: 0 })),
    (7, 3_601_000_000, None),
    (8, 3_602_000_000, None),
];

const HOUR_FULL: Refusal = Refusal::DutyFull {
    band: Band::K,
    from: 0,
    spent: 2_973_696,
};

/// A book and memory for its list, whose asks are tried with no growth of theirs granted from one on; what they are answered, and
/// their memory.
#[derive(Drop)]
struct Trying<'b, R: Roster, A: Allocator>(&'b GatewayBook<R>, Global, &'b [Answer], A);

/// Whether a trial in this arena finds no memory.
fn is_starved<R: Roster, A: Allocator>(
    arena: &Bump<A>,
    trying: &Trying<'_, R, A>,
    out: &mut Vec<Answer, A>,
) -> bool {
    tried(arena, trying.1, trying.0, &ASKS, out).is_err()
}

/// With one answer there before a trial.
fn begin<A: Allocator>(out: &mut Vec<Answer, A>) -> Result<(), Fail> {
    Ok(out.push(Err(Refusal::Full))?)
}

/// Whether that one is still alone.
fn is_as_begun(out: &[Answer]) -> bool {
    out == [Err(Refusal::Full)].as_slice()
}

/// So it is, and with memory the same call is not refused.
fn is_tried_again<R: Roster, A: Allocator>(
    arena: &Bump<A>,
    trying: &Trying<'_, R, A>,
    out: &mut Vec<Answer, A>,
) -> bool {
    is_as_begun(out.as_slice()) && !is_starved(arena, trying, out)
}

/// A trial in this arena, with one answer that was there before. Where it is refused that one stays alone, and with memory the
/// same call answers as ever.
fn is_tried_in<R: Roster, A: Allocator>(
    arena: &Bump<A>,
    alloc: &Refuser,
    trying: &Trying<'_, R, A>,
    out: &mut Vec<Answer, A>,
    number: u64,
) -> Result<bool, Fail> {
    begin(out)?;
    alloc.refuse_from(number);
    let is_refused = is_starved(arena, trying, out);
    if was_refused(alloc, number, is_refused, true)? {
        holds(is_tried_again(arena, trying, out))?;
    }
    equal(&out.as_slice(), &trying.2)?;
    Ok(is_refused)
}

impl<'b, R: Roster, A: Allocator + Copy> Call for Trying<'b, R, A> {
    fn is_refused(&mut self, alloc: &Refuser, number: u64) -> Result<bool, Fail> {
        is_tried_in(
            &Bump::new(self.3),
            alloc,
            self,
            &mut Vec::new(self.3),
            number,
        )
    }
}

/// A book and memory for its list, on a copy of which the earliest start of one ask more is looked for, after the first two of
/// the asks; and memory for the copy.
#[derive(Drop)]
struct Seeking<'b, R: Roster, A: Allocator>(&'b GatewayBook<R>, Global, A);

/// The earliest start after them: as the second member leaves the hour.
const EARLIEST: Option<u64> = Some(3_601_000_000);

/// What a search in this arena finds; nothing where there is no memory.
fn earliest_in<R: Roster, A: Allocator>(
    arena: &Bump<A>,
    seeking: &Seeking<'_, R, A>,
) -> Option<Option<u64>> {
    sought(arena, seeking.1, seeking.0, &ASKS[..2], ASK, u64::MAX).ok()
}

/// A search in this arena; where it is refused, the same call answers with memory as ever.
fn is_sought_in<R: Roster, A: Allocator>(
    arena: &Bump<A>,
    alloc: &Refuser,
    seeking: &Seeking<'_, R, A>,
    number: u64,
) -> Result<bool, Fail> {
    alloc.refuse_from(number);
    let mut found = earliest_in(arena, seeking);
    let is_refused = found.is_none();
    if was_refused(alloc, number, is_refused, true)? {
        found = earliest_in(arena, seeking);
    }
    equal(&found, &Some(EARLIEST))?;
    Ok(is_refused)
}

impl<'b, R: Roster, A: Allocator + Copy> Call for Seeking<'b, R, A> {
    fn is_refused(&mut self, alloc: &Refuser, number: u64) -> Result<bool, Fail> {
        is_sought_in(&Bump::new(self.2), alloc, self, number)
    }
}

/// A call on a copy takes two growths at least: the copy takes one, and so does what is booked on it, or the list of answers.
fn takes_two<C: Call>(alloc: &Refuser, call: &mut C) -> Result<(), Fail> {
    match growths_of(alloc, call) {
        Ok(growths) => holds_at(&growths, growths >= 2),
        Err(fail) => Err(fail),
    }
}

/// A trial and a search on copies of a book leave it as it was.
fn growths_on<R: Roster, A: Allocator + Copy>(
    alloc: &Refuser,
    own: A,
    book: &GatewayBook<R>,
    memory: Global,
    answers: &[Answer],
) -> Result<(), Fail> {
    let before = book.totals();
    takes_two(alloc, &mut Trying(book, memory, answers, own))?;
    takes_two(alloc, &mut Seeking(book, memory, own))?;
    equal(&book.totals(), &before)
}

// Refuses `airtime_planner` `what_if`: 1 for the answers, and chunks of the arena by size.
// Refuses `airtime_planner` `what_if_earliest`: chunks of the arena by size.
#[test]
fn each_growth_on_a_copy_is_refused(rt: HostRuntime) -> Result<(), Fail> {
    let answers = answers_like(rt.alloc(), &ROWS, &ASK)?;
    let book = live(rt.alloc())?;
    let alloc = &Refusing::new(rt.alloc());
    growths_on(alloc, alloc, &book, rt.alloc(), answers.as_slice())
}
