// All kept lists as one.

ghost use Rattle.std.specs.Prelude.{◌≡◌, ◌++◌, map, IfOk, OnOk, IsNone, IfSome};
ghost use Rattle.std.specs.List.Sorted.{IsPermutation, IsNonDecreasingBy};
ghost use Rattle.book_audit.specs.Audit.{held_by};
ghost use Rattle.book_audit.specs.Held.{AllDiffer, AreAlike};

use resv_list::Reservation;
use server_desk::{Book, NoMemory};
use std::alloc::Allocator;

/// A reservation that a book keeps, beside its gateway's number.
pub(crate) type Held = (u16, Reservation);

/// What all books keep, in the order of the numbers.
pub(crate) fn held_by_number<A: Allocator + Copy>(
    alloc: A,
    shelf: &[(u16, Book<A>)],
) -> Result<Vec<Held, A>, NoMemory>
    ensures same { IfOk result (λ held. IsPermutation (held_by shelf.now) held.items) }
    ensures rising { IfOk result (λ held. IsNonDecreasingBy (λ h. h.1.number) held.items) }
{
    let mut held = held_of(alloc, shelf)?;
    held.sort_unstable_by_key(|(_, member)| member.number);
    Ok(held)
}

/// The first number that stands twice in a list in the order of the numbers, and the gateways that keep it. Takes no memory.
pub(crate) fn first_doubled(held: &[Held]) -> Option<(u64, u16, u16)>
    requires { IsNonDecreasingBy (λ h. h.1.number) held.now }
    ensures none { IsNone result → AllDiffer held.now }
    ensures twice { IfSome result (λ told. AreAlike held.now told.0 told.1 told.2) }
{
    let ((gateway, member), (other, _)) = held
        .iter()
        .zip(held.iter().skip(1))
        .find(|((_, member), (_, next))| member.number == next.number)?;
    Some((member.number, *gateway, *other))
}

/// What all books keep, one after another.
fn held_of<A: Allocator + Copy>(
    alloc: A,
    shelf: &[(u16, Book<A>)],
) -> Result<Vec<Held, A>, NoMemory>
    ensures { IfOk result (λ held. held.items ≡ held_by shelf.now) }
{
    let mut held = Vec::with_capacity(alloc, count_of(shelf))?;
    for (gateway, book) in shelf {
        let members = book.list(alloc)?;
        add_all(&mut held, *gateway, &members)?;
    }
    Ok(held)
}

/// For how many members there is room to be had before they are listed, so that the list grows once: as many as the books keep.
fn count_of<A: Allocator + Copy>(shelf: &[(u16, Book<A>)]) -> usize {
    shelf
        .iter()
        .map(|(_, book)| book.totals().kept)
        .fold(0, usize::saturating_add)
}

/// Adds what one book keeps.
fn add_all<A: Allocator>(
    held: &mut Vec<Held, A>,
    gateway: u16,
    members: &[Reservation],
) -> Result<(), NoMemory>
    ensures { OnOk result (held.new.items ≡ held.old.items ++ map (λ r. (gateway, r)) members.now) }
{
    for member in members {
        held.push((gateway, *member))?;
    }
    Ok(())
}
