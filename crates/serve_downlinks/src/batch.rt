// What is written into the journal before downlinks are sent.
ghost use Rattle.std.specs.Prelude.{◌≡◌, ◌≤◌, ◌^◌, ◌++◌, ◌==◌, map, flat_map, IfOk, OnOk};
ghost use Rattle.std.specs.List.{list_any};
ghost use Rattle.std.specs.Option.{option_map};
ghost use Rattle.server_core.specs.Server.{seen};
ghost use Rattle.serve_downlinks.specs.Downlinks.{to_send};
ghost use Rattle.serve_downlinks.specs.Batch.{knows, floor_of, book_of, clock_if_sends, session_at, addressed, send_entries};
ghost use Rattle.serve_downlinks.specs.Batch.{addr_in, batch_entries, entries_text, batch_text};

use crate::Downlink;
use crate::batch_line::{add_device, add_entry, add_sent, add_taken, addr_in};
use forwarder_sessions::{NoMemory, Session};
use serve_journal::Entry;
use server_core::{Book, Server};
use std::alloc::Allocator;
use std::hash::BuildHasher;

/// The batch that the journal has to keep before these downlinks are sent. First, for each gateway that sends one of them,
/// `clock ID HIGH FLOOR`: what its clock shows at least when the server's shows `now`, and the floor of its book, in microseconds;
/// `now` is at most 2^60. Then, for each downlink, `device ADDR SESSION UP DOWN` with the next downlink counter, `taken ADDR` where
/// a payload went along, and `sent ID START FREQ DR LEN`. Then the line `.`. What tells the sessions of the devices from others of
/// the same address stands beside each address; a device that isn't among them, or that the server doesn't have, has no line.
/// Err(NoMemory) where an allocation was refused.
pub fn batch_of<S: BuildHasher, A: Allocator + Copy>(
    alloc: A,
    server: &Server<S, A>,
    sessions: &[Session],
    device_sessions: &[(u32, [u8; 4])],
    now: u64,
    downlinks: &[Downlink<'_>],
) -> Result<Vec<u8, A>, NoMemory>
    requires { now ≤ 2 ^ 60 }
    ensures { IfOk result (λ batch. batch.items ≡ batch_text
        (batch_entries (knows (seen server.now) sessions.now device_sessions.now now) (map to_send downlinks.now))) }
{
    let mut batch = Vec::new(alloc);
    add_clocks(&mut batch, server.books(), sessions, now, downlinks)?;
    add_downlinks(&mut batch, server, device_sessions, downlinks)?;
    batch.extend_from_slice(b".\n")?;
    Ok(batch)
}

/// Adds the clock of each gateway that sends one of these.
fn add_clocks<A: Allocator + Copy>(
    batch: &mut Vec<u8, A>,
    books: &[Book<A>],
    sessions: &[Session],
    now: u64,
    downlinks: &[Downlink<'_>],
) -> Result<(), NoMemory>
    requires { now ≤ 2 ^ 60 }
    ensures { OnOk result (batch.new.items ≡ batch.old.items
        ++ entries_text (flat_map (clock_if_sends now books.now (map to_send downlinks.now)) sessions.now)) }
{
    for session in sessions {
        add_clock(batch, books, session, now, downlinks)?;
    }
    Ok(())
}

/// Adds the clock of a gateway, if it sends one of these.
fn add_clock<A: Allocator + Copy>(
    batch: &mut Vec<u8, A>,
    books: &[Book<A>],
    session: &Session,
    now: u64,
    downlinks: &[Downlink<'_>],
) -> Result<(), NoMemory>
    requires { now ≤ 2 ^ 60 }
    ensures { OnOk result (batch.new.items ≡ batch.old.items
        ++ entries_text (clock_if_sends now books.now (map to_send downlinks.now) session.now)) }
{
    let gateway = session.forwarder().gateway;
    if sends(gateway, downlinks) {
        let entry = Entry::Clock {
            id: gateway,
            high: session.line(now),
            floor: floor_of(books, gateway),
        };
        return add_entry(batch, &entry);
    }
    Ok(())
}

/// Whether a gateway sends one of these.
fn sends(gateway: u16, downlinks: &[Downlink<'_>]) -> bool
    ensures { result ≡ list_any (λ d. d.candidate.gateway == gateway) downlinks.now }
{
    downlinks
        .iter()
        .any(|downlink| downlink.candidate.gateway == gateway)
}

/// The floor of a gateway's book, in microseconds; 0 where it has none.
fn floor_of<A: Allocator + Copy>(books: &[Book<A>], gateway: u16) -> u64
    ensures { result ≡ floor_of gateway books.now }
{
    match book_of(books, gateway) {
        Some(book) => book.totals().floor,
        None => 0,
    }
}

/// The book of the gateway with this number: the first, if several have it. Takes no memory.
pub fn book_of<A: Allocator + Copy>(books: &[Book<A>], gateway: u16) -> Option<&Book<A>>
    ensures { option_map (λ book. book.now) result ≡ book_of gateway books.now }
{
    books.iter().find(|book| book.id() == gateway)
}

/// Adds what is said of each downlink.
fn add_downlinks<S: BuildHasher, A: Allocator + Copy>(
    batch: &mut Vec<u8, A>,
    server: &Server<S, A>,
    device_sessions: &[(u32, [u8; 4])],
    downlinks: &[Downlink<'_>],
) -> Result<(), NoMemory>
    ensures { OnOk result (batch.new.items ≡ batch.old.items ++ entries_text
        (flat_map (send_entries (seen server.now).desk.reg.devices device_sessions.now) (map to_send downlinks.now))) }
{
    for downlink in downlinks {
        add_downlink(batch, server, device_sessions, downlink)?;
    }
    Ok(())
}

/// Adds what is said of one.
fn add_downlink<S: BuildHasher, A: Allocator + Copy>(
    batch: &mut Vec<u8, A>,
    server: &Server<S, A>,
    device_sessions: &[(u32, [u8; 4])],
    downlink: &Downlink<'_>,
) -> Result<(), NoMemory>
    ensures { OnOk result (batch.new.items ≡ batch.old.items ++ entries_text
        (send_entries (seen server.now).desk.reg.devices device_sessions.now (to_send downlink.now))) }
{
    add_addressed(batch, server, device_sessions, downlink.frame)?;
    add_sent(batch, &downlink.candidate)
}

/// Adds what is said of the device to which a frame goes.
fn add_addressed<S: BuildHasher, A: Allocator + Copy>(
    batch: &mut Vec<u8, A>,
    server: &Server<S, A>,
    device_sessions: &[(u32, [u8; 4])],
    frame: &[u8],
) -> Result<(), NoMemory>
    ensures { OnOk result (batch.new.items ≡ batch.old.items ++ entries_text
        (addressed (seen server.now).desk.reg.devices device_sessions.now frame.now (addr_in frame.now))) }
{
    let Some(addr) = addr_in(frame) else {
        return Ok(());
    };
    let session = session_at(device_sessions, addr);
    add_device(batch, addr, server.device(addr), session)?;
    add_taken(batch, addr, frame)
}

/// What tells the session of the device with this address from others: the first, if several have it.
fn session_at(device_sessions: &[(u32, [u8; 4])], addr: u32) -> Option<[u8; 4]>
    ensures { result ≡ session_at addr device_sessions.now }
{
    let found = device_sessions.iter().find(|known| known.0 == addr)?;
    Some(found.1)
}
