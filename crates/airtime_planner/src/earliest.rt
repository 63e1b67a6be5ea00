// The earliest start of an ask, looked for on a copy of a book.
ghost use Rattle.std.specs.Prelude.{◌≡◌, IfOk, OnOk};
ghost use Rattle.gateway_book.specs.Book.{IsBookList, state_of};
ghost use Rattle.airtime_planner.specs.WhatIf.{opened_at};
ghost use Rattle.airtime_planner.specs.EarliestAfter.{after_asks, earliest_after};

use crate::asking::{TRIAL, answer_to};
use bumpalo::Bump;
use gateway_book::{Ask, GatewayBook, NoMemory};
use resv_list::{Reservation, Roster};
use resv_tree::TreeRoster;
use std::alloc::Allocator;

/// The least start from `not_before` to `last`, both included, at which a book with this list, floor, cap, gap and booked
/// airtime (all but the cap in microseconds of its clock) would accept `ask`, after the asks before it: each of them that is
/// accepted stays. `None` where there is none. The asks are tried on a copy in the arena, which is dropped before the call
/// returns, so that the arena can be reset; nothing else takes memory.
pub fn what_if_earliest<P: Allocator>(
    arena: &Bump<P>,
    list: &[Reservation],
    floor: u64,
    cap: u32,
    gap: u32,
    booked: u64,
    asks: &[Ask],
    ask: Ask,
    not_before: u64,
    last: u64,
) -> Result<Option<u64>, NoMemory>
    requires { IsBookList (record { cap = cap; gap = gap }) floor booked list.now }
    ensures { IfOk result (λ start. start ≡ earliest_after (record { cap = cap; gap = gap }) (opened_at floor booked list.now)
        asks.now ask not_before last) }
{
    let mut book = GatewayBook::trial(
        TreeRoster::new(arena),
        TRIAL,
        cap,
        gap,
        floor,
        booked,
        list,
    )?;
    book_all(&mut book, asks)?;
    Ok(book.earliest(ask, not_before, last))
}

/// Books the asks, one after another, as far as the book accepts them; where there is no memory, some of them.
fn book_all<R: Roster>(book: &mut GatewayBook<R>, asks: &[Ask]) -> Result<(), NoMemory>
    ensures state { OnOk result (state_of book.new ≡ after_asks book.old.rules (state_of book.old) asks.now) }
    ensures rules { OnOk result (book.new.rules ≡ book.old.rules) }
{
    for ask in asks {
        let _answer = answer_to(book, *ask)?;
    }
    Ok(())
}
