// Receipts whose reservations are gone.

ghost use Rattle.std.specs.Prelude.{◌≡◌, ◌+◌, ◌<◌, ◌↔◌, All, Contains, IsTrue, MatchOption};
ghost use Rattle.std.specs.List.Sorted.{IsPermutation, IsNonDecreasingBy};
ghost use Rattle.book_audit.specs.Audit.{held_by, HasBook, IsAccountedFor, IsLost};
ghost use Rattle.book_audit.specs.Held.{AllDiffer, StandsAt};

use crate::held::Held;
use answer_ticket::Receipt;
use gateway_book::HOUR;
use resv_list::Reservation;
use server_desk::Book;
use std::alloc::Allocator;

/// The number of the first receipt whose gateway is unknown, or whose reservation is not kept there though the book's floor
/// is no more than an hour past its start. `held` is what the books keep, in the order of the numbers, which differ. Takes no
/// memory.
pub(crate) fn first_lost<A: Allocator + Copy>(
    shelf: &[(u16, Book<A>)],
    held: &[Held],
    receipts: &[Receipt<A>],
) -> Option<u64>
    requires same { IsPermutation (held_by shelf.now) held.now }
    requires rising { IsNonDecreasingBy (λ h. h.1.number) held.now }
    requires differ { AllDiffer held.now }
    ensures { MatchOption result (All (IsAccountedFor shelf.now) receipts.now) (IsLost shelf.now receipts.now) }
{
    let mut likely = 0;
    for receipt in receipts {
        if !is_accounted_for(shelf, held, &mut likely, receipt) {
            return Some(receipt.number);
        }
    }
    None
}

/// Whether a receipt's reservation is kept by the book of its gateway, or that book is past it. It is looked for as `is_held`
/// does.
fn is_accounted_for<A: Allocator + Copy>(
    shelf: &[(u16, Book<A>)],
    held: &[Held],
    likely: &mut usize,
    receipt: &Receipt<A>,
) -> bool
    requires same { IsPermutation (held_by shelf.now) held.now }
    requires rising { IsNonDecreasingBy (λ h. h.1.number) held.now }
    requires differ { AllDiffer held.now }
    ensures { IsTrue result ↔ IsAccountedFor shelf.now receipt.now }
{
    if is_held(held, likely, receipt.gateway, &receipt.reservation) {
        return true;
    }
    is_past(shelf, receipt.gateway, &receipt.reservation)
}

/// Whether the list has this reservation of the gateway with this number. It is looked for at the likely place first, which is
/// renewed: behind where it stands, or would stand by its number.
fn is_held(held: &[Held], likely: &mut usize, gateway: u16, reservation: &Reservation) -> bool
    requires rising { IsNonDecreasingBy (λ h. h.1.number) held.now }
    requires differ { AllDiffer held.now }
    ensures { IsTrue result ↔ Contains held.now (gateway, reservation.now) }
{
    if stands_at(held, *likely, gateway, reservation) {
        *likely = likely.saturating_add(1);
        return true;
    }
    let at = held.partition_point(|(_, member)| member.number < reservation.number);
    *likely = at.saturating_add(1);
    stands_at(held, at, gateway, reservation)
}

/// Whether this reservation of the gateway with this number stands at a place of the list.
fn stands_at(held: &[Held], at: usize, gateway: u16, reservation: &Reservation) -> bool
    ensures { IsTrue result ↔ StandsAt held.now at (gateway, reservation.now) }
{
    held.get(at).is_some_and(|(keeper, member)| *keeper == gateway && is_same(member, reservation))
}

/// Whether the book of the gateway with this number has a floor more than an hour past the reservation's start.
pub(crate) fn is_past<A: Allocator + Copy>(
    shelf: &[(u16, Book<A>)],
    gateway: u16,
    reservation: &Reservation,
) -> bool
    ensures { IsTrue result ↔ HasBook shelf.now gateway (λ b. reservation.now.start + HOUR < b.floor) }
{
    let last = reservation.start + HOUR;
    for (id, book) in shelf {
        if *id != gateway {
            continue;
        }
        if last < book.totals().floor {
            return true;
        }
    }
    false
}

/// Whether two reservations are the same. Proofs read this clause in place of what a derived `==` computes.
pub(crate) fn is_same(one: &Reservation, other: &Reservation) -> bool
    ensures { IsTrue result ↔ (one.now ≡ other.now) }
{
    one == other
}
