// What the books have booked against what the desk knows.

ghost use Rattle.std.specs.Prelude.{◌≡◌, not, filter, find, All, IsNone};
ghost use Rattle.book_audit.specs.Audit.{airtime_at, are_apart, has_book, of_books, of_others, all_amounts};
ghost use Rattle.book_audit.specs.Audit.{AreTogether, HasWholeSum};

use server_desk::{Book, Desk};
use std::alloc::Allocator;
use std::hash::BuildHasher;

/// A gateway, what its book has booked, and what the desk answers for it, in microseconds.
pub(crate) type Amounts = (u16, (u64, u64));

/// The first gateway that has booked another airtime than its settled answers are on air for: one with a book here, in
/// the order of the books; where there is none, one of the desk's without a book, in the order of the settings. Takes no
/// memory.
pub(crate) fn first_apart<S: BuildHasher, A: Allocator + Copy>(
    desk: &Desk<S, A>,
    shelf: &[(u16, Book<A>)],
) -> Option<Amounts>
    ensures first { result ≡ find are_apart (all_amounts desk.now shelf.now) }
    ensures together { IsNone result → AreTogether desk.now shelf.now }
    ensures equal { IsNone result → All (λ s. s.1.booked ≡ airtime_at desk.now s.0) shelf.now }
    ensures sum { IsNone result → HasWholeSum desk.now shelf.now }
{
    let gateways = desk.gateways();
    match apart_book(desk, shelf) {
        Some(apart) => Some(apart),
        None => without_book(desk, gateways, shelf),
    }
}

/// The first book whose gateway is apart.
fn apart_book<S: BuildHasher, A: Allocator + Copy>(
    desk: &Desk<S, A>,
    shelf: &[(u16, Book<A>)],
) -> Option<Amounts>
    ensures { result ≡ find are_apart (of_books desk.now shelf.now) }
{
    for shelved in shelf {
        let amounts = amounts_of(desk, shelved);
        if are_apart(&amounts) {
            return Some(amounts);
        }
    }
    None
}

/// What a book has booked and what the desk answers for its gateway.
fn amounts_of<S: BuildHasher, A: Allocator + Copy>(
    desk: &Desk<S, A>,
    shelved: &(u16, Book<A>),
) -> Amounts
    ensures { result ≡ (shelved.now.0, (shelved.now.1.booked, airtime_at desk.now shelved.now.0)) }
{
    let (gateway, book) = shelved;
    (*gateway, (book.totals().booked, airtime_of(desk, *gateway)))
}

/// The first of these gateways that has settled airtime and no book.
fn without_book<S: BuildHasher, A: Allocator + Copy>(
    desk: &Desk<S, A>,
    gateways: &[u16],
    shelf: &[(u16, Book<A>)],
) -> Option<Amounts>
    ensures { result ≡ find are_apart (of_others desk.now (filter (λ id. not (has_book shelf.now id)) gateways.now)) }
{
    for gateway in gateways {
        if has_book(shelf, *gateway) {
            continue;
        }
        let amounts = (*gateway, (0, airtime_of(desk, *gateway)));
        if are_apart(&amounts) {
            return Some(amounts);
        }
    }
    None
}

/// Whether another airtime is booked than answered.
fn are_apart(amounts: &Amounts) -> bool
    ensures { result ≡ are_apart amounts.now }
{
    let (_gateway, (booked, answered)) = amounts;
    booked != answered
}

/// The airtime of a gateway's settled answers, in microseconds.
fn airtime_of<S: BuildHasher, A: Allocator + Copy>(desk: &Desk<S, A>, gateway: u16) -> u64
    ensures { result ≡ airtime_at desk.now gateway }
{
    desk.answered(gateway).unwrap_or(0)
}

/// Whether the gateway with this number has a book here.
fn has_book<A: Allocator + Copy>(shelf: &[(u16, Book<A>)], gateway: u16) -> bool
    ensures { result ≡ has_book shelf.now gateway }
{
    shelf.iter().any(|shelved| shelved.0 == gateway)
}
