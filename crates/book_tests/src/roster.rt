// Rosters, called through their trait: each of them alone, and both against one another.

use crate::asks::drawn_after;
use crate::members::{in_m, inserted, mixed_at, put};
use radio_bands::Band;
use resv_list::{Dropped, Reservation, Roster, RosterFault, VecRoster};
use resv_tree::TreeRoster;
use std::alloc::Global;
use std::test::Fail;
use test_asserts::{equal, equal_at, holds, holds_at};

/// The member that begins at this start, if there is to be one.
fn wanted(start: Option<u64>) -> Result<Option<Reservation>, Fail> {
    match start {
        Some(start) => Ok(Some(in_m(start)?)),
        None => Ok(None),
    }
}

/// Of members that begin at 0, 10 and 20: a moment, the start of the last before it, and of the first from it on.
static NEAREST: [(u64, Option<u64>, Option<u64>); 5] = [
    (0, None, Some(0)),
    (1, Some(0), Some(10)),
    (10, Some(0), Some(10)),
    (20, Some(10), Some(20)),
    (21, Some(20), None),
];

/// What stands round the moments between three members.
fn stand_round<R: Roster>(roster: &R) -> Result<(), Fail> {
    for (start, before, from) in &NEAREST {
        equal_at(start, &roster.before(*start), &wanted(*before)?)?;
        equal_at(start, &roster.first_from(*start), &wanted(*from)?)?;
    }
    Ok(())
}

/// No member, and then three.
fn keeps_by_start<R: Roster + Drop>(mut roster: R) -> Result<(), Fail> {
    holds(roster.before(0).is_none() && roster.first_from(0).is_none())?;
    equal(&roster.len(), &0)?;
    for start in [20, 0, 10] {
        put(&mut roster, in_m(start)?)?;
    }
    equal(&roster.len(), &3)?;
    stand_round(&roster)
}

#[test]
fn keeps_reservations_by_start(rt: HostRuntime) -> Result<(), Fail> {
    keeps_by_start(VecRoster::new(rt.alloc()))?;
    keeps_by_start(TreeRoster::new(rt.alloc()))
}

/// Puts a thousand members into the roster, their starts rising or falling.
fn put_thousand<R: Roster>(roster: &mut R, falls: bool) -> Result<(), Fail> {
    for place in 0..1_000 {
        put(roster, in_m(if falls { 999 - place } else { place })?)?;
    }
    let spent = [
        roster.spent(Band::M, 0, 1_000),
        roster.spent(Band::K, 0, 1_000),
    ];
    equal(&spent, &[41_216_000, 0])
}

/// Takes out the member that begins at this start, once.
fn take_once<R: Roster>(roster: &mut R, start: u64) -> Result<(), Fail> {
    let member = in_m(start)?;
    equal(&roster.remove(start), &Some(member))?;
    equal(&roster.remove(start), &None)
}

/// Takes out those of them that have even starts.
fn take_even<R: Roster>(roster: &mut R) -> Result<(), Fail> {
    for half in 0..500 {
        take_once(roster, 2 * half)?;
    }
    let spent = [
        roster.spent(Band::M, 0, 1_000),
        roster.spent(Band::M, 0, 1),
        roster.spent(Band::M, 1, 2),
    ];
    equal(&spent, &[20_608_000, 0, 41_216])?;
    equal(&roster.len(), &500)
}

/// Puts a thousand into a roster, and takes out half of them.
fn takes_even<R: Roster + Drop>(mut roster: R, falls: bool) -> Result<(), Fail> {
    put_thousand(&mut roster, falls)?;
    take_even(&mut roster)
}

/// The same in a tree, whose height is bounded by the number of its members.
fn tree_takes_even(mut tree: TreeRoster<Global>, falls: bool) -> Result<(), Fail> {
    put_thousand(&mut tree, falls)?;
    holds_at(&tree.height(), tree.height() <= 19)?;
    take_even(&mut tree)?;
    holds_at(&tree.height(), tree.height() <= 17)
}

#[test]
fn sums_a_thousand_and_half_of_them(rt: HostRuntime) -> Result<(), Fail> {
    for falls in [false, true] {
        takes_even(VecRoster::new(rt.alloc()), falls)?;
        tree_takes_even(TreeRoster::new(rt.alloc()), falls)?;
    }
    Ok(())
}

/// Of a thousand members: before which start all are dropped, how many go, their airtime, and how many are left.
static DROPPED: [(u64, usize, u64, usize); 5] = [
    (0, 0, 0, 1_000),
    (400, 400, 16_486_400, 600),
    (400, 0, 0, 600),
    (401, 1, 41_216, 599),
    (5_000, 599, 24_688_384, 0),
];

/// Drops all that was put in, in three goes.
fn put_and_drop<R: Roster>(roster: &mut R, falls: bool) -> Result<(), Fail> {
    put_thousand(roster, falls)?;
    for (before, count, airtime, left) in &DROPPED {
        let (count, airtime) = (*count, *airtime);
        equal_at(
            before,
            &roster.drop_before(*before),
            &Dropped { count, airtime },
        )?;
        equal_at(before, &roster.len(), left)?;
        let first = if *left == 0 { None } else { Some(*before) };
        equal_at(before, &roster.first_from(0), &wanted(first)?)?;
        equal_at(before, &roster.spent(Band::M, 0, *before), &0)?;
    }
    Ok(())
}

#[test]
fn drops_what_begins_before_a_moment(rt: HostRuntime) -> Result<(), Fail> {
    put_and_drop(&mut VecRoster::new(rt.alloc()), false)?;
    let mut tree = TreeRoster::new(rt.alloc());
    put_and_drop(&mut tree, true)?;
    equal(&tree.height(), &0)
}

/// Fills the roster to its greatest number, and asks for one more.
fn fill<R: Roster + Drop>(mut roster: R) -> Result<(), Fail> {
    for start in 0..65_536 {
        put(&mut roster, in_m(start)?)?;
    }
    let more = in_m(65_536)?;
    equal(
        &inserted(&mut roster, more),
        &Some(Err((RosterFault::Full, more))),
    )?;
    equal(&roster.len(), &65_536)
}

#[test]
fn is_full_at_its_greatest_number(rt: HostRuntime) -> Result<(), Fail> {
    fill(VecRoster::new(rt.alloc()))?;
    fill(TreeRoster::new(rt.alloc()))
}

/// Takes out what begins at `start`, or puts one in where nothing does.
fn toggle<R: Roster>(roster: &mut R, start: u64) -> Result<Option<Reservation>, Fail> {
    let taken = roster.remove(start);
    if taken.is_none() {
        put(roster, mixed_at(start)?)?;
    }
    Ok(taken)
}

/// One of three sub-bands.
pub(crate) fn drawn_band(number: u64) -> Band {
    match number % 3 {
        0 => Band::K,
        1 => Band::M,
        _ => Band::P,
    }
}

/// Drops, seldom, what begins before a moment.
fn dropped<R: Roster>(roster: &mut R, drawn: u64, from: u64) -> Option<Dropped> {
    if drawn % 64 == 0 {
        Some(roster.drop_before(from))
    } else {
        None
    }
}

/// The same change to two rosters, and the same questions.
fn turn_alike<R: Roster, S: Roster>(one: &mut R, other: &mut S, drawn: u64) -> Result<(), Fail> {
    let (start, from) = ((drawn >> 55) % 512, (drawn >> 46) % 512);
    equal(&toggle(one, start)?, &toggle(other, start)?)?;
    equal(&dropped(one, drawn, from), &dropped(other, drawn, from))?;
    equal(&one.len(), &other.len())?;
    equal(&one.before(from), &other.before(from))?;
    equal(&one.first_from(from), &other.first_from(from))?;
    let band = drawn_band(drawn);
    equal(
        &one.spent(band, from, start),
        &other.spent(band, from, start),
    )
}

/// Random changes within 512 starts.
fn answer_alike<R: Roster, S: Roster>(one: &mut R, other: &mut S) -> Result<(), Fail> {
    let mut drawn = 1;
    for _turn in 0..10_000 {
        drawn = drawn_after(drawn);
        turn_alike(one, other, drawn)?;
    }
    Ok(())
}

#[test]
fn the_tree_is_as_the_vector(rt: HostRuntime) -> Result<(), Fail> {
    let mut tree = TreeRoster::new(rt.alloc());
    answer_alike(&mut tree, &mut VecRoster::new(rt.alloc()))?;
    holds(0 < tree.height() && tree.height() <= 12)
}
