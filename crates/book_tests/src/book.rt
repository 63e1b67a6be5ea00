// Worked books: calls in turn, each with what it is to answer, over each of the rosters.
ghost use Rattle.std.specs.Prelude.{◌≡◌, []};

use crate::asks::ask_in_m;
use crate::book_steps::{Step, is_answered};
use gateway_book::{CancelFault, GatewayBook, OpenFault, Refusal};
use radio_bands::Band;
use resv_list::{Roster, VecRoster};
use resv_tree::TreeRoster;
use std::alloc::Global;
use std::test::Fail;
use test_asserts::{equal, equal_at, holds_at};

/// Three members of sub-band K fill the hour that opens here.
const FULL_FROM_0: Result<u64, Refusal> = Err(Refusal::DutyFull {
    band: Band::K,
    from: 0,
    spent: 2_973_696,
});

const FULL_LATER: Result<u64, Refusal> = Err(Refusal::DutyFull {
    band: Band::K,
    from: 3_000_000_000,
    spent: 2_973_696,
});

/// 363 members of sub-band P, whose limit is the widest, fill an hour.
const FULL_IN_P: Result<u64, Refusal> = Err(Refusal::DutyFull {
    band: Band::P,
    from: 0,
    spent: 359_817_216,
});

/// The least start that is too near.
const TAKEN_AT_10: Result<u64, Refusal> = Err(Refusal::Taken { start: 10_000_000 });

const TAKEN_AT_9: Result<u64, Refusal> = Err(Refusal::Taken { start: 9_957_784 });

/// The last start of twelve bytes in sub-band M: they end at 2^61, the end of time.
const LAST_START: u64 = 2_305_843_009_213_652_736;

const LAST_END: u64 = 2_305_843_009_213_693_952;

/// A book's steps, by what they show, with its cap and its gap.
type Worked = (&'static str, u32, u32, &'static [Step]);

static WORKED: [Worked; 14] = [
    ("nothing is booked", 65_536, 0, NOTHING),
    ("the hour after", 65_536, 0, HOUR_AFTER),
    ("an hour between", 65_536, 0, HOUR_BETWEEN),
    ("the hour before", 65_536, 0, HOUR_BEFORE),
    ("the hour of the widest limit", 65_536, 0, WIDEST_HOUR),
    ("what has not begun is cancelled", 65_536, 0, CANCELLED),
    ("the end of time", 65_536, 0, TO_THE_END),
    ("no more than may be kept", 1, 0, ONE_KEPT),
    (
        "one may be kept, in a thousand hours",
        1,
        0,
        A_THOUSAND_HOURS,
    ),
    ("what no hour reaches is retired", 65_536, 0, OUT_OF_SIGHT),
    ("two that touch", 65_536, 0, NEIGHBOURS),
    ("the earliest start", 200, 0, EARLIEST),
    ("a gap is kept before and behind", 4_096, 1_000, WITH_A_GAP),
    (
        "a gap counts neither at the end of time nor as airtime",
        4_096,
        100_000,
        GAP_AT_THE_END,
    ),
];

const NOTHING: &[Step] = &[
    Step::Busiest(Band::K, None),
    Step::Busiest(Band::M, None),
    Step::Busiest(Band::Q, None),
    Step::Totals([0; 6]),
];

const HOUR_AFTER: &[Step] = &[
    Step::InK(0, Ok(991_232)),
    Step::InK(1_000_000, Ok(1_991_232)),
    Step::InK(2_000_000, Ok(2_991_232)),
    Step::InK(3_599_999_999, FULL_FROM_0),
    Step::InK(3_600_000_000, Ok(3_600_991_232)),
    Step::Busiest(Band::K, Some((0, 2_973_696))),
    Step::Totals([3_964_928, 0, 0, 3_964_928, 4, 0]),
];

const HOUR_BETWEEN: &[Step] = &[
    Step::InK(0, Ok(991_232)),
    Step::InK(3_000_000_000, Ok(3_000_991_232)),
    Step::InK(4_000_000_000, Ok(4_000_991_232)),
    Step::InK(4_001_000_000, Ok(4_001_991_232)),
    Step::InK(3_500_000_000, FULL_LATER),
    Step::Totals([3_964_928, 0, 0, 3_964_928, 4, 0]),
];

const HOUR_BEFORE: &[Step] = &[
    Step::InK(1_000_000_000, Ok(1_000_991_232)),
    Step::InK(1_001_000_000, Ok(1_001_991_232)),
    Step::InK(1_002_000_000, Ok(1_002_991_232)),
    Step::InK(0, FULL_FROM_0),
    Step::Totals([2_973_696, 0, 0, 2_973_696, 3, 0]),
];

const WIDEST_HOUR: &[Step] = &[Step::ManyInP(363), Step::InP(359_817_216, FULL_IN_P)];

const CANCELLED: &[Step] = &[
    Step::InM(1, 10_000_000, Ok(10_041_216)),
    Step::Tick(9_999_999),
    Step::Cancel(1, 10_000_000, Ok(41_216)),
    Step::Cancel(1, 10_000_000, Err(CancelFault::NotHere)),
    Step::InM(2, 20_000_000, Ok(20_041_216)),
    Step::Tick(20_000_000),
    Step::Cancel(2, 20_000_000, Err(CancelFault::Begun)),
    Step::InM(3, 19_999_999, Err(Refusal::Passed)),
    Step::Totals([82_432, 41_216, 0, 41_216, 1, 20_000_000]),
];

const TO_THE_END: &[Step] = &[
    Step::InM(1, LAST_START + 1, Err(Refusal::PastEnd)),
    Step::InM(2, LAST_START, Ok(LAST_END)),
    Step::Totals([41_216, 0, 0, 41_216, 1, 0]),
];

const ONE_KEPT: &[Step] = &[
    Step::InM(1, 0, Ok(41_216)),
    Step::InM(2, 1_000_000, Err(Refusal::Full)),
    Step::Tick(3_600_000_001),
    Step::InM(3, 3_600_000_001, Ok(3_600_041_217)),
    Step::Totals([82_432, 0, 41_216, 41_216, 1, 3_600_000_001]),
];

const A_THOUSAND_HOURS: &[Step] = &[
    Step::HoursInM(1_000),
    Step::Totals([41_216_000, 0, 41_174_784, 41_216, 1, 3_596_400_000_999]),
    Step::Busiest(Band::M, Some((3_596_400_000_999, 41_216))),
];

const OUT_OF_SIGHT: &[Step] = &[
    Step::InK(0, Ok(991_232)),
    Step::InK(1_000_000, Ok(1_991_232)),
    Step::InK(2_000_000, Ok(2_991_232)),
    Step::Tick(3_600_000_000),
    Step::InK(3_600_000_000, Ok(3_600_991_232)),
    Step::Totals([3_964_928, 0, 0, 3_964_928, 4, 3_600_000_000]),
    Step::Busiest(Band::K, Some((0, 2_973_696))),
    Step::Tick(3_600_000_001),
    Step::Busiest(Band::K, Some((1_000_000, 2_973_696))),
    Step::Cancel(0, 0, Err(CancelFault::Begun)),
    Step::Totals([3_964_928, 0, 991_232, 2_973_696, 3, 3_600_000_001]),
];

const NEIGHBOURS: &[Step] = &[
    Step::InM(1, 10_000_000, Ok(10_041_216)),
    Step::InM(2, 10_041_216, Ok(10_082_432)),
    Step::InM(3, 10_041_215, TAKEN_AT_10),
    Step::Busiest(Band::M, Some((10_000_000, 82_432))),
    Step::Busiest(Band::K, None),
    Step::Totals([82_432, 0, 0, 82_432, 2, 0]),
];

/// Three that fill an hour of sub-band K, and what may come next; the ask's own start counts for nothing.
const EARLIEST: &[Step] = &[
    Step::InK(0, Ok(991_232)),
    Step::InK(1_000_000, Ok(1_991_232)),
    Step::InK(2_000_000, Ok(2_991_232)),
    Step::EarliestInK(7, 0, u64::MAX, Some(3_600_000_000)),
    Step::EarliestInK(7, 0, 3_600_000_000, Some(3_600_000_000)),
    Step::EarliestInK(7, 0, 3_599_999_999, None),
    Step::EarliestInM(u64::MAX, 0, 10_000_000, Some(2_991_232)),
    Step::EarliestInM(u64::MAX, 9, 8, None),
    Step::EarliestInM(u64::MAX, u64::MAX, u64::MAX, None),
    Step::Tick(5_000_000),
    Step::EarliestInM(u64::MAX, 0, 4_999_999, None),
    Step::EarliestInM(u64::MAX, 0, 5_000_000, Some(5_000_000)),
];

/// A start is refused where the gap before or behind it is one microsecond short, and taken where it is just kept; the member
/// that is named is the least that is too near.
const WITH_A_GAP: &[Step] = &[
    Step::InM(1, 10_000_000, Ok(10_041_216)),
    Step::InM(2, 10_042_215, TAKEN_AT_10),
    Step::InM(3, 10_042_216, Ok(10_083_432)),
    Step::InM(4, 9_957_785, TAKEN_AT_10),
    Step::InM(5, 9_957_784, Ok(9_999_000)),
    Step::InM(6, 9_999_000, TAKEN_AT_9),
    Step::InM(7, 10_041_216, TAKEN_AT_10),
    Step::Totals([123_648, 0, 0, 123_648, 3, 0]),
    Step::Busiest(Band::M, Some((9_957_784, 123_648))),
];

/// The last transmission of time needs no time behind it, and a gap is no airtime.
const GAP_AT_THE_END: &[Step] = &[
    Step::InM(1, LAST_START, Ok(LAST_END)),
    Step::InM(
        2,
        LAST_START - 141_215,
        Err(Refusal::Taken { start: LAST_START }),
    ),
    Step::EarliestInM(
        0,
        LAST_START - 141_216,
        LAST_START,
        Some(LAST_START - 141_216),
    ),
    Step::Totals([41_216, 0, 0, 41_216, 1, 0]),
];

/// Runs a book's steps over an empty roster.
fn run_worked<R: Roster + Drop>(roster: R, worked: &Worked) -> Result<(), Fail>
    requires { R.list roster ≡ [] }
{
    let (name, cap, gap, steps) = *worked;
    let mut book = GatewayBook::new(roster, 1, cap, gap)?;
    for (place, step) in steps.iter().enumerate() {
        holds_at(&(name, place), is_answered(&mut book, step))?;
    }
    Ok(())
}

fn run_on_each(alloc: Global, worked: &Worked) -> Result<(), Fail> {
    run_worked(VecRoster::new(alloc), worked)?;
    run_worked(TreeRoster::new(alloc), worked)
}

#[test]
fn worked_books(rt: HostRuntime) -> Result<(), Fail> {
    for worked in &WORKED {
        run_on_each(rt.alloc(), worked)?;
    }
    Ok(())
}

/// A cap and a gap, and why they open no book.
static OPENED: [(u32, u32, Option<OpenFault>); 8] = [
    (0, 0, Some(OpenFault::BadCap)),
    (1, 0, None),
    (65_536, 100_000, None),
    (65_537, 0, Some(OpenFault::BadCap)),
    (1, 100_001, Some(OpenFault::BadGap)),
    (4_096, u32::MAX, Some(OpenFault::BadGap)),
    (0, 100_001, Some(OpenFault::BadCap)),
    (65_537, 100_001, Some(OpenFault::BadCap)),
];

/// The id, the cap and the gap of the book that is opened.
fn opened<R: Roster + Drop>(roster: R, cap: u32, gap: u32) -> Result<(u16, u32, u32), OpenFault>
    requires { R.list roster ≡ [] }
{
    let book = GatewayBook::new(roster, 7, cap, gap)?;
    Ok((book.id(), book.cap(), book.gap()))
}

#[test]
fn opens_with_a_cap_and_a_gap_in_range(rt: HostRuntime) -> Result<(), Fail> {
    for (cap, gap, fault) in &OPENED {
        let wanted = match fault {
            Some(fault) => Err(*fault),
            None => Ok((7, *cap, *gap)),
        };
        let roster = VecRoster::new(rt.alloc());
        equal_at(cap, &opened(roster, *cap, *gap), &wanted)?;
    }
    Ok(())
}

/// The list of a book that books two over an empty roster is what was answered.
fn keeps_two<R: Roster + Drop>(roster: R, alloc: Global) -> Result<(), Fail>
    requires { R.list roster ≡ [] }
{
    let mut book = GatewayBook::new(roster, 7, 65_536, 0)?;
    let booked = [
        book.book(ask_in_m(1, 10_000_000))?,
        book.book(ask_in_m(2, 10_041_216))?,
    ];
    equal(&book.list(alloc)?.as_slice(), &booked.as_slice())?;
    equal(&(book.id(), book.cap()), &(7, 65_536))
}

#[test]
fn keeps_what_it_has_booked(rt: HostRuntime) -> Result<(), Fail> {
    keeps_two(VecRoster::new(rt.alloc()), rt.alloc())?;
    keeps_two(TreeRoster::new(rt.alloc()), rt.alloc())
}
