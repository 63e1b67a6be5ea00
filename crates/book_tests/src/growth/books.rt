// Rosters and books.
ghost use Rattle.std.specs.Prelude.{◌≡◌, []};

use crate::saved::{SECOND, loaded};
use gateway_book::{Ask, GatewayBook, LoadFault, NoMemory, Refusal, Totals};
use radio_airtime::DataRate;
use refusing_alloc::{Call, Refuser, Refusing, growths_of, same, was_refused};
use resv_list::{Roster, VecRoster};
use resv_tree::TreeRoster;
use std::alloc::Allocator;
use std::test::Fail;

/// Twelve bytes on 868.1 MHz at DR5, 41,216 us.
const ASK: Ask = Ask {
    number: 9,
    start: 0,
    freq_hz: 868_100_000,
    rate: DataRate::Dr5,
    len: 12,
};

/// A booking at this moment, which leaves the book as it was where it is refused.
#[derive(Drop)]
struct Booking<R: Roster>(GatewayBook<R>, u64);

impl<R: Roster> Call for Booking<R> {
    fn is_refused(&mut self, alloc: &Refuser, number: u64) -> Result<bool, Fail> {
        let before = self.0.totals();
        alloc.refuse(number);
        let fault = self.0.book(ask_at(self.1)).err();
        is_booked(alloc, number, fault, (before, self.0.totals()))
    }
}

/// The ask for that moment.
fn ask_at(start: u64) -> Ask {
    Ask { start, ..ASK }
}

/// Whether a booking with this fault found no memory. The totals before and after it differ just where there is no fault.
fn is_booked(
    alloc: &Refuser,
    number: u64,
    fault: Option<Refusal>,
    (before, after): (Totals, Totals),
) -> Result<bool, Fail> {
    let is_starved = fault == Some(Refusal::NoMemory);
    let more = if is_starved { 0 } else { 1 };
    let wanted = Totals {
        booked: before.booked.saturating_add(41_216 * more),
        kept_airtime: before.kept_airtime.saturating_add(41_216 * more),
        kept: before.kept.saturating_add(more as usize),
        ..before
    };
    same((after, fault.is_some()), (wanted, is_starved))?;
    was_refused(alloc, number, is_starved, false)
}

/// Books one member behind so many, a second apart: it takes one growth, of so many at least, which is refused once.
fn takes_one<R: Roster>(
    alloc: &Refuser,
    booking: &mut Booking<R>,
    least: u64,
    members: u64,
) -> Result<(), Fail> {
    booking.1 = members.saturating_mul(1_000_000);
    let growths = growths_of(alloc, booking)?;
    same((members, growths.max(least)), (members, 1))
}

/// Books one member after another: each takes one.
fn each_takes_one<R: Roster>(
    alloc: &Refuser,
    booking: &mut Booking<R>,
    least: u64,
) -> Result<(), Fail> {
    for members in 0..9 {
        takes_one(alloc, booking, least, members)?;
    }
    Ok(())
}

/// So they do in a book over an empty roster.
fn each_takes_one_over<R: Roster + Drop>(alloc: &Refuser, roster: R, least: u64) -> Result<(), Fail>
    requires { R.list roster ≡ [] }
{
    let book = GatewayBook::new(roster, 1, 4_096, 0)?;
    each_takes_one(alloc, &mut Booking(book, 0), least)
}

/// Over a tree each booking takes a growth, and over a vector one at most.
fn bookings_take<A: Allocator + Copy>(alloc: &Refuser, own: A) -> Result<(), Fail> {
    each_takes_one_over(alloc, TreeRoster::new(own), 0)?;
    each_takes_one_over(alloc, VecRoster::new(own), 1)
}

// Refuses `resv_list` `Roster::insert`: 1 in a tree, a node; in a vector 0 or 1, by size.
// Refuses `gateway_book` `GatewayBook::book`: as `insert`, for what is accepted.
#[test]
fn a_booking(rt: HostRuntime) -> Result<(), Fail> {
    let alloc = &Refusing::new(rt.alloc());
    bookings_take(alloc, alloc)
}

/// The list of a book and a copy that is made of it, which take this memory, and both leave the book as it was.
#[derive(Drop)]
struct Copying<R: Roster, A: Allocator + Copy>(GatewayBook<R>, A);

/// How many members the list has, and what the copy over an empty roster has counted.
fn copied<R: Roster, A: Allocator, C: Roster + Drop>(
    book: &GatewayBook<R>,
    own: A,
    roster: C,
) -> Result<(usize, Totals), NoMemory>
    requires { C.list roster ≡ [] }
{
    let list = book.list(own)?;
    let totals = book.totals();
    let copy = GatewayBook::trial(
        roster,
        book.id(),
        book.cap(),
        book.gap(),
        totals.floor,
        totals.booked,
        &list,
    )?;
    Ok((list.len(), copy.totals()))
}

impl<R: Roster, A: Allocator + Copy> Call for Copying<R, A> {
    fn is_refused(&mut self, alloc: &Refuser, number: u64) -> Result<bool, Fail> {
        let before = self.0.totals();
        alloc.refuse(number);
        let copied = copied(&self.0, self.1, TreeRoster::new(self.1)).ok();
        is_copied(alloc, number, copied, (before, self.0.totals()))
    }
}

/// Whether a list and a copy found no memory. Else they have all members, and the totals of the book, which are as before.
fn is_copied(
    alloc: &Refuser,
    number: u64,
    copied: Option<(usize, Totals)>,
    (before, after): (Totals, Totals),
) -> Result<bool, Fail> {
    let is_starved = copied.is_none();
    let wanted = (!is_starved).then_some((before.kept, before));
    same((copied, after), (wanted, before))?;
    was_refused(alloc, number, is_starved, false)
}

/// Books the member of this number, a second behind the one before. Then the list takes one growth, and the copy one for each
/// member; each is refused once.
fn copy_takes<R: Roster, A: Allocator + Copy>(
    alloc: &Refuser,
    copying: &mut Copying<R, A>,
    members: u64,
) -> Result<(), Fail> {
    copying.0.book(ask_at(members.saturating_mul(1_000_000)))?;
    let growths = growths_of(alloc, copying)?;
    same((members, growths), (members, members.saturating_add(1)))
}

/// Books one member after another.
fn copies_take<R: Roster, A: Allocator + Copy>(
    alloc: &Refuser,
    copying: &mut Copying<R, A>,
) -> Result<(), Fail> {
    for members in 1..6 {
        copy_takes(alloc, copying, members)?;
    }
    Ok(())
}

/// So they do of a book over an empty roster.
fn copies_take_over<R: Roster + Drop, A: Allocator + Copy>(
    alloc: &Refuser,
    own: A,
    roster: R,
) -> Result<(), Fail>
    requires { R.list roster ≡ [] }
{
    let book = GatewayBook::new(roster, 1, 4_096, 0)?;
    copies_take(alloc, &mut Copying(book, own))
}

/// And over a tree.
fn copies_of_a_tree_take<A: Allocator + Copy>(alloc: &Refuser, own: A) -> Result<(), Fail> {
    copies_take_over(alloc, own, TreeRoster::new(own))
}

// Refuses `resv_list` `Roster::filled` (over a tree): in a tree 1 for each member; in a vector by size.
// Refuses `resv_list` `Roster::members` (a book's `list` calls it): 1, none where there is no member.
// Refuses `gateway_book` `GatewayBook::list` (over a tree): 1, none where there is no member.
// Refuses `gateway_book` `GatewayBook::trial` (over a tree): as `filled`.
#[test]
fn the_list_and_a_copy_of_a_book(rt: HostRuntime) -> Result<(), Fail> {
    let alloc = &Refusing::new(rt.alloc());
    copies_of_a_tree_take(alloc, alloc)
}

/// A saved book of two transmissions is loaded on this memory, over a tree or over a vector.
#[derive(Drop)]
struct Loading<A: Allocator + Copy>(A, bool);

/// What the book of that text has booked, and how many it keeps, over an empty roster.
fn kept_in<R: Roster + Drop>(roster: R) -> Result<(u64, usize), LoadFault>
    requires { R.list roster ≡ [] }
{
    let totals = loaded(SECOND, roster)?.totals();
    Ok((totals.booked, totals.kept))
}

impl<A: Allocator + Copy> Call for Loading<A> {
    fn is_refused(&mut self, alloc: &Refuser, number: u64) -> Result<bool, Fail> {
        alloc.refuse(number);
        let kept = if self.1 {
            kept_in(TreeRoster::new(self.0))
        } else {
            kept_in(VecRoster::new(self.0))
        };
        is_loaded(alloc, number, kept)
    }
}

/// Whether a load found no memory, which is the one fault that it may tell.
fn is_loaded(
    alloc: &Refuser,
    number: u64,
    kept: Result<(u64, usize), LoadFault>,
) -> Result<bool, Fail> {
    let is_starved = kept == Err(LoadFault::NoMemory);
    if !is_starved {
        same(kept, Ok((82_432, 2)))?;
    }
    was_refused(alloc, number, is_starved, false)
}

/// Over a tree each member takes a growth, and over a vector the first one alone.
fn loads_take<A: Allocator + Copy>(alloc: &Refuser, own: A) -> Result<(), Fail> {
    same(growths_of(alloc, &mut Loading(own, true))?, 2)?;
    same(growths_of(alloc, &mut Loading(own, false))?, 1)
}

// Refuses `gateway_book` `GatewayBook::load` (of forty members in `each_growth_that_is_refused_is_told`; in a tree by
// `tests/refused_books.py`): as `insert`, for each member.
// Refuses `gateway_book` `GatewayBook::load_counted` (`load` calls it): as `load`.
#[test]
fn a_saved_book(rt: HostRuntime) -> Result<(), Fail> {
    let alloc = &Refusing::new(rt.alloc());
    loads_take(alloc, alloc)
}
