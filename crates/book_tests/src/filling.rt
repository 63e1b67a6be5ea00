// Rosters that are made of a list at once, beside one into which the members of that list were put one by one.
ghost use Rattle.std.specs.Prelude.{◌≡◌, ◌≤◌, [], length};
ghost use Rattle.resv_list.specs.Reservations.{IsByStart};

use crate::asks::drawn_after;
use crate::members::put;
use crate::roster::drawn_band;
use gateway_book::{Ask, GatewayBook};
use radio_airtime::DataRate;
use resv_list::{MAX_MEMBERS, Reservation, Roster, VecRoster};
use resv_tree::TreeRoster;
use std::alloc::Global;
use std::test::Fail;
use test_asserts::{equal, equal_at};

/// An ask within four hours, in one of three sub-bands, at DR0.
fn drawn_ask(number: u64, drawn: u64) -> Ask {
    let freq_hz = match (drawn >> 33) % 3 {
        0 => 863_500_000,
        1 => 868_100_000,
        _ => 869_525_000,
    };
    Ask {
        number,
        start: (drawn >> 40) % 14_400 * 1_000_000,
        freq_hz,
        rate: DataRate::Dr0,
        len: 12 + ((drawn >> 27) % 40) as u8,
    }
}

/// A book of what it accepts of so many random asks.
fn drawn_book(alloc: Global, asks: u64) -> Result<GatewayBook<VecRoster<Global>>, Fail> {
    let mut book = GatewayBook::new(VecRoster::new(alloc), 1, 4_096, 0)?;
    let mut drawn = asks;
    for number in 0..asks {
        drawn = drawn_after(drawn);
        let _answer = book.book(drawn_ask(number, drawn));
    }
    Ok(book)
}

/// A tree into which these members are put one by one.
fn put_in(alloc: Global, members: &[Reservation]) -> Result<TreeRoster<Global>, Fail> {
    let mut tree = TreeRoster::new(alloc);
    for member in members {
        put(&mut tree, *member)?;
    }
    Ok(tree)
}

/// The roster holds just these members, all at once and one after another.
fn lists<R: Roster>(alloc: Global, roster: &R, members: &[Reservation]) -> Result<(), Fail> {
    equal(&roster.len(), &members.len())?;
    equal(&roster.members(alloc)?.as_slice(), &members)?;
    let mut from = 0;
    for member in members {
        equal(&roster.first_from(from), &Some(*member))?;
        from = member.start.saturating_add(1);
    }
    Ok(())
}

/// The same random questions to two rosters of the same members.
fn answers_alike<R: Roster, S: Roster>(one: &R, other: &S) -> Result<(), Fail> {
    let mut drawn = 1;
    for turn in 0..400 {
        drawn = drawn_after(drawn);
        equal_at(&turn, &told(one, drawn), &told(other, drawn))?;
    }
    Ok(())
}

/// Of a random stretch of time and sub-band: the most, the sum, and the first over a little less than the most.
fn told<R: Roster>(roster: &R, drawn: u64) -> (u64, u64, Option<Reservation>) {
    let from = (drawn >> 40) % 14_400 * 1_000_000;
    let to = (drawn >> 20) % 16_000 * 1_000_000;
    let band = drawn_band(drawn >> 60);
    let most = roster.most(band);
    let less = most.saturating_sub((drawn >> 14) % 40 * 500_000);
    (
        most,
        roster.spent(band, from, to),
        roster.first_over(band, from, to, less),
    )
}

/// An empty roster that is filled with these members holds them, and is as another that does.
fn is_filled_alike<R: Roster + Drop>(
    alloc: Global,
    roster: R,
    other: &TreeRoster<Global>,
    members: &[Reservation],
) -> Result<(), Fail>
    requires empty { R.list roster ≡ [] }
    requires by_start { IsByStart members.now }
    requires room { length members.now ≤ MAX_MEMBERS }
{
    let filled = roster.filled(members)?;
    lists(alloc, &filled, members)?;
    answers_alike(other, &filled)
}

#[test]
fn a_roster_that_is_made_at_once_is_as_one_by_one(rt: HostRuntime) -> Result<(), Fail> {
    for asks in [0, 1, 2, 3, 4, 5, 700] {
        let alloc = rt.alloc();
        let members = drawn_book(alloc, asks)?.list(alloc)?;
        let other = put_in(alloc, &members)?;
        is_filled_alike(alloc, VecRoster::new(alloc), &other, &members)?;
        is_filled_alike(alloc, TreeRoster::new(alloc), &other, &members)?;
    }
    Ok(())
}
