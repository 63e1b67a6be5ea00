// Trials on a copy of a book.

use crate::asks::Answer;
use airtime_planner::{what_if, what_if_earliest};
use bumpalo::Bump;
use gateway_book::{Ask, GatewayBook, NoMemory};
use resv_list::{Roster, VecRoster};
use std::alloc::{Allocator, Global};
use std::test::Fail;
use test_asserts::holds;

/// More bytes than any of these trials takes.
pub(crate) const AMPLE_BYTES: usize = 1 << 20;

pub(crate) type Live = GatewayBook<VecRoster<Global>>;

/// Books these asks.
fn book_all<R: Roster>(book: &mut GatewayBook<R>, asks: &[Ask]) -> Result<(), Fail> {
    for ask in asks {
        holds(book.book(*ask).is_ok())?;
    }
    Ok(())
}

/// A book that has booked these asks.
pub(crate) fn booked(alloc: Global, asks: &[Ask]) -> Result<Live, Fail> {
    let mut book = GatewayBook::new(VecRoster::new(alloc), 1, 4_096, 0)?;
    book_all(&mut book, asks)?;
    Ok(book)
}

/// Tries the asks on a copy of the book.
pub(crate) fn tried<P: Allocator, R: Roster, A: Allocator>(
    arena: &Bump<P>,
    alloc: Global,
    book: &GatewayBook<R>,
    asks: &[Ask],
    out: &mut Vec<Answer, A>,
) -> Result<(), NoMemory> {
    let list = book.list(alloc)?;
    let totals = book.totals();
    what_if(
        arena,
        &list,
        totals.floor,
        book.cap(),
        book.gap(),
        totals.booked,
        asks,
        out,
    )
}

/// The answers of such a trial alone.
pub(crate) fn answers_of<R: Roster>(
    arena: &Bump<Global>,
    alloc: Global,
    book: &GatewayBook<R>,
    asks: &[Ask],
) -> Result<Vec<Answer, Global>, NoMemory> {
    let mut out = Vec::new(alloc);
    tried(arena, alloc, book, asks, &mut out)?;
    Ok(out)
}

/// Looks for the earliest start of an ask, from its own to `last`, on a copy of the book after the asks.
pub(crate) fn sought<P: Allocator, R: Roster>(
    arena: &Bump<P>,
    alloc: Global,
    book: &GatewayBook<R>,
    asks: &[Ask],
    ask: Ask,
    last: u64,
) -> Result<Option<u64>, NoMemory> {
    let list = book.list(alloc)?;
    let totals = book.totals();
    what_if_earliest(
        arena,
        &list,
        totals.floor,
        book.cap(),
        book.gap(),
        totals.booked,
        asks,
        ask,
        ask.start,
        last,
    )
}
