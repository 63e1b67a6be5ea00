// The hours that members open: worked rows on each roster.

use crate::members::{mixed_at, put};
use radio_bands::Band;
use resv_list::{HOUR, Roster, VecRoster};
use resv_tree::TreeRoster;
use std::test::Fail;
use test_asserts::{equal, equal_at, holds};

/// What is asked for, and the start of what is found: sub-band, from, to, most.
type Row = (Band, u64, u64, u64, Option<u64>);

/// The start of what is found first over so much.
fn found<R: Roster>(roster: &R, row: &Row) -> Option<u64> {
    let (band, from, to, most, _) = *row;
    Some(roster.first_over(band, from, to, most)?.start)
}

/// What a band's fullest hour has in each of three sub-bands.
fn fullest<R: Roster>(roster: &R) -> [u64; 3] {
    [
        roster.most(Band::K),
        roster.most(Band::M),
        roster.most(Band::P),
    ]
}

/// Where there is no member.
static NONE: Row = (Band::K, 0, u64::MAX, 0, None);

/// Three of sub-band K, 991,232 us each, of which the last begins an hour after the first, and one of sub-band M with 41,216.
static STARTS: [u64; 4] = [3_600_000_000, 1, 0, 3_599_999_997];

static ROWS: [Row; 16] = [
    (Band::K, 0, u64::MAX, 0, Some(0)),
    (Band::K, 0, u64::MAX, 1_982_463, Some(0)),
    (Band::K, 0, u64::MAX, 1_982_464, None),
    (Band::K, 1, u64::MAX, 0, Some(3_599_999_997)),
    (
        Band::K,
        3_599_999_997,
        u64::MAX,
        991_232,
        Some(3_599_999_997),
    ),
    (Band::K, 3_599_999_998, u64::MAX, 991_232, None),
    (
        Band::K,
        3_599_999_998,
        u64::MAX,
        991_231,
        Some(3_600_000_000),
    ),
    (Band::K, 1, 3_599_999_997, 0, None),
    (Band::K, 1, 3_599_999_998, 0, Some(3_599_999_997)),
    (Band::K, 0, 0, 0, None),
    (Band::K, 3_600_000_000, 1, 0, None),
    (Band::K, 3_600_000_001, u64::MAX, 0, None),
    (Band::M, 0, u64::MAX, 0, Some(1)),
    (Band::M, 0, u64::MAX, 41_216, None),
    (Band::M, 2, u64::MAX, 0, None),
    (Band::P, 0, u64::MAX, 0, None),
];

/// Whether the stretch of sub-band K has at most so much.
static WITHIN: [(u64, u64, u64, bool); 4] = [
    (0, HOUR, 1_982_464, true),
    (0, HOUR, 1_982_463, false),
    (0, HOUR + 1, 1_982_464, false),
    (1, HOUR + 1, 1_982_464, true),
];

/// Asks for hours of the four members.
fn answers_rows<R: Roster>(roster: &R) -> Result<(), Fail> {
    for row in &ROWS {
        equal_at(row, &found(roster, row), &row.4)?;
    }
    for (from, to, most, wanted) in &WITHIN {
        equal_at(from, &roster.is_within(Band::K, *from, *to, *most), wanted)?;
    }
    Ok(())
}

/// Asks for hours of no member, of four, and of three.
fn finds_hours<R: Roster + Drop>(mut roster: R) -> Result<(), Fail> {
    equal(&found(&roster, &NONE), &None)?;
    equal(&fullest(&roster), &[0, 0, 0])?;
    for start in &STARTS {
        put(&mut roster, mixed_at(*start)?)?;
    }
    answers_rows(&roster)?;
    equal(&fullest(&roster), &[1_982_464, 41_216, 0])?;
    holds(roster.remove(3_599_999_997).is_some())?;
    equal(&fullest(&roster), &[991_232, 41_216, 0])
}

#[test]
fn finds_the_hours_that_members_open(rt: HostRuntime) -> Result<(), Fail> {
    finds_hours(VecRoster::new(rt.alloc()))?;
    finds_hours(TreeRoster::new(rt.alloc()))
}
