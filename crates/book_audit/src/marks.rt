// Which receipts' reservations the books keep, without a list of all that they keep.
ghost use Rattle.std.specs.Prelude.{◌≡◌, ◌++◌, [], ◌∷◌, List, length, map, All, IsTrue, IfOk, IfSome};
ghost use Rattle.book_audit.specs.Audit.{books_of, held_by, kept_numbers, EachStandsOnce, IsAccountedFor};
ghost use Rattle.book_audit.specs.Held.{Kept};
ghost use Rattle.book_audit.specs.Marks.{AreMarked, DoRise};

use crate::lost::{is_past, is_same};
use answer_ticket::Receipt;
use resv_list::Reservation;
use server_desk::{Book, NoMemory};
use std::alloc::Allocator;

/// Whether what the books keep are reservations of these receipts, none of them twice, and the book of each other receipt is
/// past it. Then no number is kept twice and all receipts are accounted for; where it isn't so, that may still be. It takes a
/// byte for each receipt, and a list of what one book keeps.
pub(crate) fn are_told<A: Allocator + Copy>(
    alloc: A,
    shelf: &[(u16, Book<A>)],
    receipts: &[Receipt<A>],
) -> Result<bool, NoMemory>
    ensures once { IfOk result (λ told. IsTrue told → EachStandsOnce (kept_numbers (books_of shelf.now))) }
    ensures accounted { IfOk result (λ told. IsTrue told → All (IsAccountedFor shelf.now) receipts.now) }
{
    if !do_rise(receipts) {
        return Ok(false);
    }
    match marks_of(alloc, shelf, receipts)? {
        Some(marks) => Ok(are_past(shelf, receipts, &marks)),
        None => Ok(false),
    }
}

/// Whether the numbers of these receipts' reservations rise.
fn do_rise<A: Allocator>(receipts: &[Receipt<A>]) -> bool
    ensures { IsTrue result → DoRise receipts.now }
{
    receipts.is_sorted_by(|one, next| one.reservation.number < next.reservation.number)
}

/// A mark for each of these receipts, set where a book keeps its reservation; nothing where a book keeps what none of them
/// tells, or one of their reservations twice.
fn marks_of<A: Allocator + Copy>(
    alloc: A,
    shelf: &[(u16, Book<A>)],
    receipts: &[Receipt<A>],
) -> Result<Option<Vec<bool, A>>, NoMemory>
    requires { DoRise receipts.now }
    ensures { IfOk result (λ made. IfSome made (λ marks. AreMarked receipts.now (held_by shelf.now) marks.items)) }
{
    let mut marks = Vec::new(alloc);
    marks.resize(receipts.len(), false)?;
    for (gateway, book) in shelf {
        let members = book.list(alloc)?;
        if !mark_all(receipts, *gateway, &members, &mut marks) {
            return Ok(None);
        }
    }
    Ok(Some(marks))
}

/// Marks the receipts of what the book of the gateway with this number keeps, and tells whether each had one without a mark.
fn mark_all<A: Allocator>(
    receipts: &[Receipt<A>],
    gateway: u16,
    members: &[Reservation],
    marks: &mut [bool],
) -> bool
    requires rising { DoRise receipts.now }
    requires each { length marks.old ≡ length receipts.now }
    ensures each { length marks.new ≡ length receipts.now }
    ensures marked { IsTrue result → (held : List Kept) → AreMarked receipts.now held marks.old
        → AreMarked receipts.now (held ++ map (λ r. (gateway, r)) members.now) marks.new }
{
    let mut ahead = 1;
    for member in members {
        let at = place_of(receipts, &mut ahead, member.number);
        if !mark(receipts, gateway, member, at, marks) {
            return false;
        }
    }
    true
}

/// Where the receipt of the reservation with this number stands, if there is one; the numbers rise. Mostly they are so much
/// ahead of their places, which is renewed.
fn place_of<A: Allocator>(receipts: &[Receipt<A>], ahead: &mut u64, number: u64) -> usize {
    let likely = number.wrapping_sub(*ahead) as usize;
    if let Some(receipt) = receipts.get(likely) {
        if receipt.reservation.number == number {
            return likely;
        }
    }
    let at = receipts.partition_point(|receipt| receipt.reservation.number < number);
    *ahead = number.wrapping_sub(at as u64);
    at
}

/// Marks the receipt at this place, if it is of this reservation of the gateway with this number and has no mark, and tells
/// whether that was so.
fn mark<A: Allocator>(
    receipts: &[Receipt<A>],
    gateway: u16,
    member: &Reservation,
    at: usize,
    marks: &mut [bool],
) -> bool
    requires rising { DoRise receipts.now }
    requires each { length marks.old ≡ length receipts.now }
    ensures each { length marks.new ≡ length receipts.now }
    ensures marked { IsTrue result → (held : List Kept) → AreMarked receipts.now held marks.old
        → AreMarked receipts.now (held ++ (gateway, member.now) ∷ []) marks.new }
{
    if at >= receipts.len() || marks[at] {
        return false;
    }
    let receipt = &receipts[at];
    if receipt.gateway != gateway || !is_same(&receipt.reservation, member) {
        return false;
    }
    marks[at] = true;
    true
}

/// Whether the book of each receipt without a mark is past it.
fn are_past<A: Allocator + Copy>(
    shelf: &[(u16, Book<A>)],
    receipts: &[Receipt<A>],
    marks: &[bool],
) -> bool
    requires { AreMarked receipts.now (held_by shelf.now) marks.now }
    ensures { IsTrue result → All (IsAccountedFor shelf.now) receipts.now }
{
    receipts.iter().zip(marks).all(|(receipt, marked)| *marked
        || is_past(shelf, receipt.gateway, &receipt.reservation))
}
