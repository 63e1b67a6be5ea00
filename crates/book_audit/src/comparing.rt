// A station's books against its desk, against one another, and against receipts.

ghost use Rattle.std.specs.Prelude.{◌≡◌, All, IfErr, OnOk};
ghost use Rattle.book_audit.specs.Audit.{airtime_at, books_of, kept_numbers, EachStandsOnce, IsAccountedFor, HasWholeSum};
ghost use Rattle.book_audit.specs.Audit.{IsCauseOf};

use crate::FinishCause;
use crate::apart::first_apart;
use crate::held::{first_doubled, held_by_number};
use crate::lost::first_lost;
use crate::marks::are_told;
use answer_ticket::Receipt;
use server_desk::{Book, Desk};
use std::alloc::Allocator;
use std::hash::BuildHasher;

/// Tells the first fault that the books have, in the order of `FinishCause`, but never `TillMissing`: tills aren't looked at.
/// Mostly what the books keep is what the receipts tell, and that is seen without a list of all that they keep; where it isn't,
/// such a list is made. NoMemory where a growth for that was refused; by then each gateway has booked what it answered.
pub fn compare<S: BuildHasher, A: Allocator + Copy>(
    alloc: A,
    desk: &Desk<S, A>,
    shelf: &[(u16, Book<A>)],
    receipts: &[Receipt<A>],
) -> Result<(), FinishCause>
    ensures equal { OnOk result (All (λ s. s.1.booked ≡ airtime_at desk.now s.0) shelf.now) }
    ensures sum { OnOk result (HasWholeSum desk.now shelf.now) }
    ensures once { OnOk result (EachStandsOnce (kept_numbers (books_of shelf.now))) }
    ensures accounted { OnOk result (All (IsAccountedFor shelf.now) receipts.now) }
    ensures cause { IfErr result (IsCauseOf desk.now shelf.now receipts.now) }
{
    if let Some((gateway, (booked, answered))) = first_apart(desk, shelf) {
        return Err(FinishCause::Apart {
            gateway,
            booked,
            answered,
        });
    }
    match are_told(alloc, shelf, receipts) {
        Ok(true) => return Ok(()),
        Ok(false) => {}
        Err(_) => return Err(FinishCause::NoMemory),
    }
    let Ok(held) = held_by_number(alloc, shelf) else {
        return Err(FinishCause::NoMemory);
    };
    if let Some((number, gateway, other)) = first_doubled(&held) {
        return Err(FinishCause::Doubled {
            number,
            gateway,
            other,
        });
    }
    if let Some(number) = first_lost(shelf, &held, receipts) {
        return Err(FinishCause::Lost { number });
    }
    Ok(())
}
