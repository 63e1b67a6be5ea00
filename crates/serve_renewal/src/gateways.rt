// What is said of the gateways.
ghost use Rattle.std.specs.Prelude.{◌≡◌, ◌≤◌, ◌^◌, ◌++◌, map, OnOk};
ghost use Rattle.std.specs.List.{flat_map};
ghost use Rattle.serve_journal.specs.Renewal.{sent_entry};
ghost use Rattle.serve_downlinks.specs.Batch.{entries_text};
ghost use Rattle.serve_renewal.specs.State.{gateway_entries, book_entries, clock_entries};

use forwarder_sessions::{NoMemory, Session};
use resv_list::{Reservation, Roster};
use serve_downlinks::{add_entry, book_of};
use serve_journal::Entry;
use server_core::Book;
use std::alloc::Allocator;

/// Adds `gateway ID EUI CAP GAP` for each gateway that has a book.
pub(crate) fn add_gateways<A: Allocator + Copy>(
    text: &mut Vec<u8, A>,
    books: &[Book<A>],
    sessions: &[Session],
) -> Result<(), NoMemory>
    ensures { OnOk result (text.new.items ≡ text.old.items ++ entries_text (flat_map (gateway_entries books.now) sessions.now)) }
{
    for session in sessions {
        add_gateway(text, books, session)?;
    }
    Ok(())
}

/// Adds that of one gateway, if it has a book.
fn add_gateway<A: Allocator + Copy>(
    text: &mut Vec<u8, A>,
    books: &[Book<A>],
    session: &Session,
) -> Result<(), NoMemory>
    ensures { OnOk result (text.new.items ≡ text.old.items ++ entries_text (gateway_entries books.now session.now)) }
{
    let forwarder = session.forwarder();
    let eui = forwarder.eui;
    match book_of(books, forwarder.gateway) {
        None => Ok(()),
        Some(book) => add_entry(
            text,
            &Entry::Gateway {
                id: forwarder.gateway,
                eui,
                cap: book.cap(),
                gap: book.gap(),
            },
        ),
    }
}

/// Adds `sent ID START FREQ DR LEN` for each transmission that the books keep, by gateway and start.
pub(crate) fn add_books<A: Allocator + Copy>(
    text: &mut Vec<u8, A>,
    books: &[Book<A>],
    sessions: &[Session],
) -> Result<(), NoMemory>
    ensures { OnOk result (text.new.items ≡ text.old.items ++ entries_text (flat_map (book_entries books.now) sessions.now)) }
{
    for session in sessions {
        add_book(text, books, session)?;
    }
    Ok(())
}

/// Adds those of one gateway, if it has a book.
fn add_book<A: Allocator + Copy>(
    text: &mut Vec<u8, A>,
    books: &[Book<A>],
    session: &Session,
) -> Result<(), NoMemory>
    ensures { OnOk result (text.new.items ≡ text.old.items ++ entries_text (book_entries books.now session.now)) }
{
    let gateway = session.forwarder().gateway;
    match book_of(books, gateway) {
        None => Ok(()),
        Some(book) => add_members(text, gateway, book.roster()),
    }
}

/// Adds those of a roster.
fn add_members<A: Allocator, R: Roster>(
    text: &mut Vec<u8, A>,
    gateway: u16,
    roster: &R,
) -> Result<(), NoMemory>
    ensures { OnOk result (text.new.items
        ≡ text.old.items ++ entries_text (map (sent_entry gateway) (R.list roster.now))) }
{
    let mut from = 0;
    while let Some(member) = roster.first_from(from) {
        add_entry(text, &sent(gateway, member))?;
        from = member.start + 1;
    }
    Ok(())
}

/// What is said of a transmission that a gateway's book keeps.
fn sent(gateway: u16, member: Reservation) -> Entry
    ensures { result ≡ sent_entry gateway member }
{
    Entry::Sent {
        id: gateway,
        start: member.start,
        freq_hz: member.freq_hz,
        rate: member.rate,
        len: member.len,
    }
}

/// Adds `clock ID HIGH FLOOR` for each gateway that has a book.
pub(crate) fn add_clocks<A: Allocator + Copy>(
    text: &mut Vec<u8, A>,
    books: &[Book<A>],
    sessions: &[Session],
    now: u64,
) -> Result<(), NoMemory>
    requires { now ≤ 2 ^ 60 }
    ensures { OnOk result (text.new.items
        ≡ text.old.items ++ entries_text (flat_map (clock_entries now books.now) sessions.now)) }
{
    for session in sessions {
        add_clock(text, books, session, now)?;
    }
    Ok(())
}

/// Adds that of one gateway, if it has a book.
fn add_clock<A: Allocator + Copy>(
    text: &mut Vec<u8, A>,
    books: &[Book<A>],
    session: &Session,
    now: u64,
) -> Result<(), NoMemory>
    requires { now ≤ 2 ^ 60 }
    ensures { OnOk result (text.new.items ≡ text.old.items ++ entries_text (clock_entries now books.now session.now)) }
{
    let gateway = session.forwarder().gateway;
    match book_of(books, gateway) {
        None => Ok(()),
        Some(book) => add_entry(
            text,
            &Entry::Clock {
                id: gateway,
                high: session.line(now),
                floor: book.totals().floor,
            },
        ),
    }
}
