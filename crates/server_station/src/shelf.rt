// A station's books, out of their locks and behind them again.

ghost use Rattle.std.specs.Prelude.{◌≡◌, ◌≤◌, [], map, IfOk, vec_len, vec_capacity};
ghost use Rattle.server_station.specs.Closings.{with_totals};

use crate::NoMemory;
use crate::place::Place;
use gateway_book::Totals;
use server_desk::Book;
use std::alloc::Allocator;
use std::sync::Mutex;

/// Books beside their gateways' numbers.
pub(crate) type Shelf<A> = Vec<(u16, Book<A>), A>;

/// Lists with room for a station's books.
#[derive(Drop)]
pub(crate) struct ClosingLists<A: Allocator + Copy> {
    pub(crate) shelf: Shelf<A>,
    pub(crate) totals: Vec<(u16, Totals), A>,
    pub(crate) books: Vec<Book<A>, A>,
}

impl<A: Allocator + Copy> ClosingLists<A> {
    /// Empty lists with room for so many books.
    pub(crate) fn with_room(alloc: A, len: usize) -> Result<Self, NoMemory>
        ensures no_shelf { IfOk result (λ lists. (lists.shelf.items ≡ []) × (vec_capacity lists.shelf ≡ len)) }
        ensures no_totals { IfOk result (λ lists. (lists.totals.items ≡ []) × (vec_capacity lists.totals ≡ len)) }
        ensures no_books { IfOk result (λ lists. (lists.books.items ≡ []) × (vec_capacity lists.books ≡ len)) }
    {
        Ok(ClosingLists {
            shelf: Vec::with_capacity(alloc, len)?,
            totals: Vec::with_capacity(alloc, len)?,
            books: Vec::with_capacity(alloc, len)?,
        })
    }
}

/// Takes all books out of their locks, in the order of the places, which keep their room.
pub(crate) fn take_out<A: Allocator + Copy>(places: &mut Vec<Place<A>, A>, shelf: &mut Shelf<A>)
    requires empty { shelf.old.items ≡ [] }
    requires room { vec_len places.old ≤ vec_capacity shelf.old }
    ensures ids { map (λ s. s.0) shelf.new.items ≡ places.old.items }
    ensures len { vec_len shelf.new ≡ vec_len places.old }
    ensures emptied { places.new.items ≡ [] }
    ensures kept_room { vec_len shelf.new ≤ vec_capacity places.new }
{
    for place in places.drain(..) {
        shelf.push_reserved((place.id, place.book.into_inner()));
    }
}

/// Puts all books behind locks, in the order of the shelf.
pub(crate) fn put_back<A: Allocator + Copy>(shelf: Shelf<A>, places: &mut Vec<Place<A>, A>)
    requires empty { places.old.items ≡ [] }
    requires room { vec_len shelf ≤ vec_capacity places.old }
    ensures { places.new.items ≡ map (λ s. s.0) shelf.items }
{
    for (id, book) in shelf {
        places.push_reserved(Place {
            id,
            book: Mutex::new(book),
        });
    }
}

/// Parts the books from their gateways' numbers; what each has counted stands beside its number.
pub(crate) fn part<A: Allocator + Copy>(
    shelf: Shelf<A>,
    totals: &mut Vec<(u16, Totals), A>,
    books: &mut Vec<Book<A>, A>,
)
    requires no_totals { totals.old.items ≡ [] }
    requires no_books { books.old.items ≡ [] }
    requires totals_room { vec_len shelf ≤ vec_capacity totals.old }
    requires books_room { vec_len shelf ≤ vec_capacity books.old }
    ensures totals { totals.new.items ≡ map with_totals shelf.items }
    ensures books { books.new.items ≡ map (λ s. s.1) shelf.items }
{
    for (id, book) in shelf {
        totals.push_reserved((id, book.totals()));
        books.push_reserved(book);
    }
}
