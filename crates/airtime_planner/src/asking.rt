// Asks that are tried on a copy of a book.
ghost use Rattle.std.specs.Prelude.{◌≡◌, None, IfOk, OnOk, OnErr};
ghost use Rattle.gateway_book.specs.Answer.{refusal_of};
ghost use Rattle.gateway_book.specs.Book.{IsBookList, state_of, terms_of};
ghost use Rattle.gateway_book.specs.Step.{book_step};
ghost use Rattle.airtime_planner.specs.WhatIf.{AddsAnswers, AddsSome, IsAnswer, opened_at};

use bumpalo::Bump;
use gateway_book::{Ask, GatewayBook, NoMemory, Refusal};
use resv_list::{Reservation, Roster};
use resv_tree::TreeRoster;
use std::alloc::{AllocError, Allocator};

/// The number of a trial's gateway, which no answer names.
pub(crate) const TRIAL: u16 = 0;

/// What a book with this list, floor, cap, gap and booked airtime (all but the cap in microseconds of its clock) would answer
/// to the asks, one after another: each that is accepted stays for the next. The answers are put behind what `out` has. They are
/// tried on a copy in the arena, which is dropped before the call returns, so that the arena can be reset.
///
/// Where the arena or `out` finds no memory, `out` is as before.
pub fn what_if<P: Allocator, A: Allocator>(
    arena: &Bump<P>,
    list: &[Reservation],
    floor: u64,
    cap: u32,
    gap: u32,
    booked: u64,
    asks: &[Ask],
    out: &mut Vec<Result<Reservation, Refusal>, A>,
) -> Result<(), NoMemory>
    requires { IsBookList (record { cap = cap; gap = gap }) floor booked list.now }
    ensures answers { OnOk result (AddsAnswers (record { cap = cap; gap = gap }) (opened_at floor booked list.now) asks.now
        out.old.items out.new.items) }
    ensures unchanged { OnErr result (out.new.items ≡ out.old.items) }
{
    out.reserve(asks.len())?;
    let mut book = GatewayBook::trial(
        TreeRoster::new(arena),
        TRIAL,
        cap,
        gap,
        floor,
        booked,
        list,
    )?;
    let before = out.len();
    match answer_all(&mut book, asks, out) {
        Ok(()) => Ok(()),
        Err(failed) => {
            out.truncate(before);
            Err(failed)
        }
    }
}

/// Puts the book's answers to the asks, one after another, behind what `out` has; where there is no memory, some of them.
fn answer_all<R: Roster, A: Allocator>(
    book: &mut GatewayBook<R>,
    asks: &[Ask],
    out: &mut Vec<Result<Reservation, Refusal>, A>,
) -> Result<(), NoMemory>
    ensures answers { OnOk result (AddsAnswers book.old.rules (state_of book.old) asks.now out.old.items out.new.items) }
    ensures some { OnErr result (AddsSome out.old.items out.new.items) }
{
    for ask in asks {
        let answer = answer_to(book, *ask)?;
        if out.push(answer).is_err() {
            return Err(AllocError);
        }
    }
    Ok(())
}

/// A book's answer to an ask; want of memory is no answer and changes nothing, and comes only where the ask would be accepted.
pub fn answer_to<R: Roster>(
    book: &mut GatewayBook<R>,
    ask: Ask,
) -> Result<Result<Reservation, Refusal>, NoMemory>
    ensures answer { IfOk result (IsAnswer book.old.rules (state_of book.old) ask) }
    ensures step { OnOk result (state_of book.new ≡ book_step book.old.rules (state_of book.old) ask) }
    ensures rules { book.new.rules ≡ book.old.rules }
    ensures unchanged { OnErr result (book.new ≡ book.old) }
    ensures wanting { OnErr result (refusal_of (terms_of book.old) book.old.list ask ≡ None) }
{
    match book.book(ask) {
        Ok(reservation) => Ok(Ok(reservation)),
        Err(refusal) => {
            if refusal == Refusal::NoMemory {
                return Err(AllocError);
            }
            Ok(Err(refusal))
        }
    }
}
