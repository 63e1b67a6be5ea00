// What the calls of a roster and of a book take from their allocator: only what takes one more takes memory, and a list as
// much as its members need, in one growth. An arena tells how much of it is left, and is reset only where all was given back.
ghost use Rattle.std.specs.Prelude.{◌≡◌, []};

use crate::asks::{ask_in_m, book_spaced};
use crate::members::{in_m, put};
use bumpalo::Bump;
use gateway_book::GatewayBook;
use radio_bands::Band;
use resv_list::{Roster, VecRoster};
use resv_tree::TreeRoster;
use std::alloc::Global;
use std::test::Fail;
use test_asserts::{equal, equal_at, holds, holds_at};

/// More than these rosters take.
const AMPLE_BYTES: usize = 1 << 20;

/// A roster of which an arena has the members.
type Kept<'a> = TreeRoster<&'a Bump<Global>>;

/// Asks a roster all that any roster can be asked.
fn asks_all<R: Roster>(roster: &R) {
    roster.len();
    roster.before(5_000_000);
    roster.first_from(5_000_000);
    roster.spent(Band::M, 0, 9_000_000);
    roster.is_within(Band::M, 0, 9_000_000, 0);
    roster.first_over(Band::M, 0, 9_000_000, 100_000);
    roster.most(Band::M);
}

/// How many bytes of an arena a member takes; the roster is asked besides, which takes none.
fn taken_by_member<R: Roster>(
    arena: &Bump<Global>,
    roster: &mut R,
    start: u64,
) -> Result<usize, Fail> {
    let free = arena.chunk_capacity();
    put(roster, in_m(start)?)?;
    let left = arena.chunk_capacity();
    asks_all(roster);
    equal(&arena.chunk_capacity(), &left)?;
    Ok(free.saturating_sub(left))
}

/// Seven members take as much each.
fn take_alike<R: Roster>(arena: &Bump<Global>, roster: &mut R) -> Result<(), Fail> {
    let each = taken_by_member(arena, roster, 7_000_000)?;
    for start in [
        1_000_000, 3_000_000, 9_000_000, 2_000_000, 8_000_000, 4_000_000,
    ] {
        equal_at(&start, &taken_by_member(arena, roster, start)?, &each)?;
    }
    Ok(())
}

/// Taking members out, and dropping some, takes none.
fn take_out<R: Roster>(arena: &Bump<Global>, roster: &mut R) -> Result<(), Fail> {
    let left = arena.chunk_capacity();
    holds(roster.remove(3_000_000).is_some())?;
    holds(roster.remove(3_000_000).is_none())?;
    equal(&roster.drop_before(6_000_000).count, &3)?;
    holds(arena.chunk_capacity() >= left)
}

/// Nor does a question for the height of a tree.
fn ask_height(arena: &Bump<Global>, tree: &Kept<'_>) -> Result<(), Fail> {
    let left = arena.chunk_capacity();
    tree.height();
    equal(&arena.chunk_capacity(), &left)
}

#[test]
fn only_a_new_member_takes_memory(rt: HostRuntime) -> Result<(), Fail> {
    let arena = Bump::try_with_capacity(rt.alloc(), AMPLE_BYTES)?;
    let free = arena.chunk_capacity();
    let mut roster = TreeRoster::new(&arena);
    equal(&arena.chunk_capacity(), &free)?;
    take_alike(&arena, &mut roster)?;
    ask_height(&arena, &roster)?;
    take_out(&arena, &mut roster)
}

/// Two that a book accepts take memory each.
fn accepts_two<R: Roster>(arena: &Bump<Global>, book: &mut GatewayBook<R>) -> Result<(), Fail> {
    for start in [0, 3_000_000] {
        let free = arena.chunk_capacity();
        holds_at(&start, book.book(ask_in_m(start, start)).is_ok())?;
        holds_at(&start, arena.chunk_capacity() < free)?;
    }
    Ok(())
}

/// Refused asks, a refused cancel, and what a book is asked take none.
fn refuses_all<R: Roster>(arena: &Bump<Global>, book: &mut GatewayBook<R>) -> Result<(), Fail> {
    let left = arena.chunk_capacity();
    for start in [0, 1_000_000, 6_000_000, 1 << 61] {
        holds_at(&start, book.book(ask_in_m(9, start)).is_err())?;
    }
    book.totals();
    book.busiest(Band::M);
    holds(book.cancel(9, 0).is_err())?;
    equal(&arena.chunk_capacity(), &left)
}

/// Nor do a cancel and a tick.
fn gives_back<R: Roster>(arena: &Bump<Global>, book: &mut GatewayBook<R>) -> Result<(), Fail> {
    let left = arena.chunk_capacity();
    holds(book.cancel(3_000_000, 3_000_000).is_ok())?;
    book.tick(7_200_000_000);
    holds(arena.chunk_capacity() >= left)
}

/// A book that keeps two at most, over an empty roster in the arena.
fn takes_for_two<R: Roster + Drop>(arena: &Bump<Global>, roster: R) -> Result<(), Fail>
    requires { R.list roster ≡ [] }
{
    let mut book = GatewayBook::new(roster, 1, 2, 0)?;
    accepts_two(arena, &mut book)?;
    refuses_all(arena, &mut book)?;
    gives_back(arena, &mut book)
}

#[test]
fn only_what_a_book_accepts_takes_memory(rt: HostRuntime) -> Result<(), Fail> {
    let arena = Bump::try_with_capacity(rt.alloc(), AMPLE_BYTES)?;
    takes_for_two(&arena, TreeRoster::new(&arena))
}

/// Each of a thousand that are booked is retired by the tick before the next one.
fn retires_a_thousand<R: Roster + Drop>(roster: R) -> Result<(), Fail>
    requires { R.list roster ≡ [] }
{
    let mut book = GatewayBook::new(roster, 1, 1, 0)?;
    for number in 0..1_000 {
        let start = 7_200_000_000u64.saturating_mul(number);
        book.tick(start);
        holds_at(&number, book.book(ask_in_m(number, start)).is_ok())?;
    }
    Ok(())
}

#[test]
fn a_book_of_one_needs_memory_for_one(rt: HostRuntime) -> Result<(), Fail> {
    let arena = Bump::try_with_capacity(rt.alloc(), 1_024)?;
    arena.set_allocation_limit(Some(arena.allocated_bytes()));
    retires_a_thousand(TreeRoster::new(&arena))
}

/// A book of forty, of which one is cancelled; ticks retire others, ten at a time, and the rest is dropped with it.
fn comes_and_goes<R: Roster + Drop>(roster: R) -> Result<(), Fail>
    requires { R.list roster ≡ [] }
{
    let mut book = GatewayBook::new(roster, 1, 64, 0)?;
    book_spaced(&mut book, 40)?;
    holds(book.cancel(7, 700_000_000).is_ok())?;
    for (now, kept) in [(4_650, 29), (5_650, 19), (6_650, 9)] {
        book.tick(1_000_000 * now);
        equal_at(&now, &book.totals().kept, &kept)?;
    }
    Ok(())
}

#[test]
fn all_that_a_book_took_is_given_back(rt: HostRuntime) -> Result<(), Fail> {
    let mut arena = Bump::try_with_capacity(rt.alloc(), AMPLE_BYTES)?;
    comes_and_goes(TreeRoster::new(&arena))?;
    arena.reset()?;
    comes_and_goes(VecRoster::new(&arena))?;
    arena.reset()?;
    Ok(())
}

/// How many bytes an arena gives for the list of a book with so many members.
fn given_for_list<R: Roster>(
    arena: &Bump<Global>,
    book: &GatewayBook<R>,
    count: u64,
) -> Result<u64, Fail> {
    let free = arena.chunk_capacity();
    let members = book.list(arena)?;
    equal(&(members.len() as u64), &count)?;
    Ok(free.saturating_sub(arena.chunk_capacity()) as u64)
}

/// The same of a book over an empty roster.
fn taken_by_list<R: Roster + Drop>(alloc: Global, roster: R, count: u64) -> Result<u64, Fail>
    requires { R.list roster ≡ [] }
{
    let mut book = GatewayBook::new(roster, 1, 100, 0)?;
    book_spaced(&mut book, count)?;
    given_for_list(&Bump::try_with_capacity(alloc, AMPLE_BYTES)?, &book, count)
}

#[test]
fn a_list_takes_one_growth_for_its_members(rt: HostRuntime) -> Result<(), Fail> {
    let each = taken_by_list(rt.alloc(), TreeRoster::new(rt.alloc()), 1)?;
    holds(each > 0)?;
    for count in [2, 3, 5, 9, 30] {
        let taken = taken_by_list(rt.alloc(), TreeRoster::new(rt.alloc()), count)?;
        equal_at(&count, &taken, &each.saturating_mul(count))?;
    }
    Ok(())
}
