// The books of a server's gateways.

ghost use Rattle.std.specs.Prelude.{◌≡◌, map, All, IfOk};
ghost use Rattle.std.specs.Option.{option_map};
ghost use Rattle.server_desk.specs.Settings.{IsGatewayInRange};
ghost use Rattle.server_desk.specs.World.{opened_gateway, gateway_with};
ghost use Rattle.server_core.specs.Entries.{gateway_of};
ghost use Rattle.server_core.specs.Opened.{AreBooksFor, IsWhole};

use crate::{Book, GatewaySetting, NoMemory, Settings};
use server_desk::empty_book;
use std::alloc::{AllocError, Allocator};

/// An empty book for each gateway of these settings, in their order. Err(NoMemory) where a growth was refused.
pub fn empty_books<A: Allocator + Copy, B: Allocator>(
    alloc: A,
    settings: &Settings<B>,
) -> Result<Vec<Book<A>, A>, NoMemory>
    ensures each { IfOk result (λ books. AreBooksFor settings.now.gateways books.items) }
    ensures empty { IfOk result (λ books. map gateway_of books.items ≡ map opened_gateway settings.now.gateways) }
{
    books_of(alloc, settings.gateways())
}

/// An empty book for each of these gateways, in their order.
fn books_of<A: Allocator + Copy>(
    alloc: A,
    gateways: &[GatewaySetting],
) -> Result<Vec<Book<A>, A>, AllocError>
    requires { All IsGatewayInRange gateways.now }
    ensures { IfOk result (λ books. map gateway_of books.items ≡ map opened_gateway gateways.now) }
{
    let mut books = Vec::with_capacity(alloc, gateways.len())?;
    for gateway in gateways {
        books.push(empty_book(alloc, gateway))?;
    }
    Ok(books)
}

/// What every book keeps, as a law of these. A call does nothing but walk over them.
pub(crate) fn law_each_whole<A: Allocator + Copy>(books: &[Book<A>])
    ensures { All IsWhole books.now }
{
    for book in books {
        book.law_whole();
    }
}

/// The place of the gateway with this number.
pub(crate) fn place_of<A: Allocator + Copy>(books: &[Book<A>], gateway: u16) -> Option<usize>
    ensures { result ≡ option_map (λ found. found.0) (gateway_with gateway (map gateway_of books.now)) }
{
    for (place, book) in books.iter().enumerate() {
        if book.id() == gateway {
            return Some(place);
        }
    }
    None
}
