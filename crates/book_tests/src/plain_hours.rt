// The hours that members open, on each roster, against a plain list of the same members.

use crate::asks::drawn_after;
use crate::members::{mixed_at, put};
use crate::roster::drawn_band;
use radio_bands::Band;
use resv_list::{HOUR, Reservation, Roster, VecRoster};
use resv_tree::TreeRoster;
use std::alloc::Global;
use std::test::Fail;
use test_asserts::{equal, holds_at};

/// The airtime of those of the sub-band that begin in the hour that opens at `from`.
fn spent_in(members: &[Reservation], band: Band, from: u64) -> u64 {
    let mut sum: u64 = 0;
    for member in members {
        if member.band() == band && member.start >= from && member.start - from < HOUR {
            sum = sum.saturating_add(member.airtime());
        }
    }
    sum
}

/// The one with the least start of those of the sub-band in the stretch whose hour has more.
fn first_over_in(
    members: &[Reservation],
    band: Band,
    from: u64,
    to: u64,
    most: u64,
) -> Option<Reservation> {
    let mut first: Option<Reservation> = None;
    for member in members {
        let is_asked_for = member.band() == band && from <= member.start && member.start < to;
        if is_asked_for && spent_in(members, band, member.start) > most {
            let is_first = first.map_or(true, |other| member.start < other.start);
            first = if is_first { Some(*member) } else { first };
        }
    }
    first
}

/// The most that the hour of one of the sub-band has.
fn most_in(members: &[Reservation], band: Band) -> u64 {
    let mut most: u64 = 0;
    for member in members {
        if member.band() == band {
            most = most.max(spent_in(members, band, member.start));
        }
    }
    most
}

/// Takes out what begins at `start`, or puts one in where nothing does, in both.
fn toggle<R: Roster>(
    roster: &mut R,
    members: &mut Vec<Reservation, Global>,
    start: u64,
) -> Result<(), Fail> {
    match members.iter().position(|member| member.start == start) {
        Some(place) => remove_alike(roster, start, members.remove(place)),
        None => {
            members.push(mixed_at(start)?)?;
            put(roster, mixed_at(start)?)
        }
    }
}

fn remove_alike<R: Roster>(roster: &mut R, start: u64, wanted: Reservation) -> Result<(), Fail> {
    equal(&roster.remove(start), &Some(wanted))
}

/// Drops what begins before a moment, in both.
fn drop_both<R: Roster>(
    roster: &mut R,
    members: &mut Vec<Reservation, Global>,
    from: u64,
) -> Result<(), Fail> {
    let before = members.len();
    members.retain(|member| member.start >= from);
    let fewer = before.saturating_sub(members.len());
    equal(&roster.drop_before(from).count, &fewer)
}

/// The same questions to both.
fn answers_alike<R: Roster>(
    roster: &R,
    members: &[Reservation],
    drawn: u64,
    from: u64,
    to: u64,
) -> Result<(), Fail> {
    let band = drawn_band(drawn);
    let most = most_in(members, band);
    equal(&roster.most(band), &most)?;
    let less = most.saturating_sub((drawn >> 33) % 4 * 500_000);
    equal(
        &roster.first_over(band, from, to, less),
        &first_over_in(members, band, from, to, less),
    )
}

/// What the roster's stretch has is the least that it is within.
fn is_within_its_own<R: Roster>(roster: &R, band: Band, from: u64, to: u64) -> bool {
    let spent = roster.spent(band, from, to);
    roster.is_within(band, from, to, spent)
        && (spent == 0 || !roster.is_within(band, from, to, spent.saturating_sub(1)))
}

/// Random changes to a roster and to the list, some of which drop what begins before a moment, and the same questions to both;
/// the starts lie within two hours.
fn keeps_alike<R: Roster + Drop>(
    mut roster: R,
    mut members: Vec<Reservation, Global>,
) -> Result<(), Fail> {
    let mut drawn = 1;
    for turn in 0..600 {
        drawn = drawn_after(drawn);
        let (start, from) = ((drawn >> 57) * 60_000_001, (drawn >> 50) % 128 * 60_000_001);
        toggle(&mut roster, &mut members, start)?;
        if drawn % 64 == 0 {
            drop_both(&mut roster, &mut members, from)?;
        }
        answers_alike(&roster, members.as_slice(), drawn, from, start)?;
        holds_at(
            &turn,
            is_within_its_own(&roster, drawn_band(drawn), from, start),
        )?;
    }
    Ok(())
}

#[test]
fn hours_are_those_of_a_plain_list(rt: HostRuntime) -> Result<(), Fail> {
    keeps_alike(VecRoster::new(rt.alloc()), Vec::new(rt.alloc()))?;
    keeps_alike(TreeRoster::new(rt.alloc()), Vec::new(rt.alloc()))
}
