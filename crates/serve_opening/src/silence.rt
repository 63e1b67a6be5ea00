// How long a gateway stays silent when a server goes on.
ghost use Rattle.std.specs.Prelude.{◌≡◌, ◌≤◌, ◌^◌, IfOk};
ghost use Rattle.serve_opening.specs.Silence.{silent_until, silenced};

use resv_list::Reservation;
use server_core::{Book, NoMemory};
use std::alloc::Allocator;

/// By how much later a transmission may end by the clock of the server that goes on than by that of the one which booked it, in
/// microseconds: a server places the first packet of a session so far back.
const LATE_BY: u64 = 2_000_000;

/// A book whose floor is behind all that it holds: what the gateway was asked for before the restart has ended by then, and so has
/// the gap behind it. Takes memory for one list of what it holds.
pub(crate) fn silenced<A: Allocator + Copy>(alloc: A, book: Book<A>) -> Result<Book<A>, NoMemory>
    ensures { IfOk result (λ made. made ≡ silenced book) }
{
    let mut book = book;
    let members = book.list(alloc)?;
    book.tick(silent_until(&members, book.gap()));
    Ok(book)
}

/// From when on all of these have ended, each with the gap of so many microseconds behind it.
fn silent_until(members: &[Reservation], gap: u32) -> u64
    ensures { result ≡ silent_until gap members.now }
{
    let mut until: u64 = 0;
    for member in members {
        until = until.max(member.end() + u64::from(gap) + LATE_BY);
    }
    until
}
