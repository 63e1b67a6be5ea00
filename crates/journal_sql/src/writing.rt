// A state, written as SQL.
ghost use Rattle.std.specs.Prelude.{◌≡◌, ◌∷◌, [], ◌++◌, map, OnOk, OnErr, IfOk};
ghost use Rattle.std.specs.Io.KnownBytes.{Appends};
ghost use Rattle.text_lines.specs.Calls.{CountsFailure};
ghost use Rattle.text_lines.specs.Line.{text_of};
ghost use Rattle.text_lines.specs.Writing.{WritesFront};
ghost use Rattle.serve_journal.specs.Putting.{PutsAll};
ghost use Rattle.journal_sql.specs.Rows.{gateway_row, device_row, queued_row, sent_row};
ghost use Rattle.journal_sql.specs.Sql.{table_lines, end_line, next_number, numbered, number_behind, queued_rows, sent_rows, sql_of};
ghost use Rattle.journal_sql.specs.Parts.{parts_behind};

use crate::rows::{write_device, write_gateway, write_queued, write_sent};
use resv_list::Roster;
use serve_journal::{JournalDevice, JournalGateway, JournalState, Payload};
use std::alloc::Allocator;
use text_lines::{ByteOut, CallFailed, TextLine, WriteBehind};

/// The tables, and the line that begins the transaction.
const TABLES: &[u8] = b"\
CREATE TABLE gateway (id INTEGER PRIMARY KEY, eui TEXT NOT NULL, cap INTEGER NOT NULL, gap INTEGER NOT NULL, high INTEGER NOT NULL, floor INTEGER NOT NULL) STRICT;
CREATE TABLE device (addr INTEGER PRIMARY KEY, session INTEGER NOT NULL, up INTEGER, down INTEGER NOT NULL) STRICT;
CREATE TABLE queued (id INTEGER PRIMARY KEY, addr INTEGER NOT NULL, port INTEGER NOT NULL, payload BLOB NOT NULL) STRICT;
CREATE TABLE sent (id INTEGER PRIMARY KEY, gateway INTEGER NOT NULL, start INTEGER NOT NULL, freq INTEGER NOT NULL, dr INTEGER NOT NULL, len INTEGER NOT NULL) STRICT;
BEGIN;
";

/// The number of a table's first row.
const FIRST_NUMBER: u64 = 1;

/// Writes a state as SQL: the tables, and in one transaction a row for each gateway, each device, each payload that waits and each
/// transmission that a book keeps. Takes no memory.
pub fn write_sql<A: Allocator + Clone, W: ByteOut>(
    state: &JournalState<A>,
    writer: &mut W,
) -> Result<(), CallFailed>
    ensures ok { OnOk result (Appends (W.taken writer.old) (W.taken writer.new) (sql_of state.now)) }
    ensures err { OnErr result (WritesFront (W.taken writer.old) (W.taken writer.new) (sql_of state.now)) }
    ensures failed { CountsFailure (W.failed_calls writer.old) (W.failed_calls writer.new) result }
{
    let mut output = WriteBehind::new();
    let mut text = TextLine::new();
    match put_state(
        &state.gateways,
        &state.devices,
        &mut text,
        &mut output,
        writer,
    ) {
        Ok(()) => output.flush(writer),
        Err(fault) => Err(fault),
    }
}

/// Puts the whole text behind what is gathered.
fn put_state<A: Allocator + Clone, W: ByteOut>(
    gateways: &[JournalGateway<A>],
    devices: &[JournalDevice<A>],
    text: &mut TextLine,
    output: &mut WriteBehind,
    writer: &mut W,
) -> Result<(), CallFailed>
    ensures { PutsAll (W.taken writer.old) (W.taken writer.new) (W.failed_calls writer.old) (W.failed_calls writer.new)
        (parts_behind output.old gateways.now devices.now) output.new result }
{
    match put_tables(output, writer) {
        Ok(()) => {}
        Err(fault) => return Err(fault),
    }
    match put_gateways(gateways, text, output, writer) {
        Ok(()) => {}
        Err(fault) => return Err(fault),
    }
    match put_devices(devices, text, output, writer) {
        Ok(()) => {}
        Err(fault) => return Err(fault),
    }
    match put_queues(devices, text, output, writer) {
        Ok(()) => {}
        Err(fault) => return Err(fault),
    }
    match put_books(gateways, text, output, writer) {
        Ok(()) => {}
        Err(fault) => return Err(fault),
    }
    put_end(output, writer)
}

/// Puts the tables behind what is gathered.
fn put_tables<W: ByteOut>(output: &mut WriteBehind, writer: &mut W) -> Result<(), CallFailed>
    ensures { PutsAll (W.taken writer.old) (W.taken writer.new) (W.failed_calls writer.old) (W.failed_calls writer.new)
        (output.old ++ text_of table_lines) output.new result }
{
    output.put(writer, TABLES)
}

/// Puts the line that ends the transaction behind what is gathered.
fn put_end<W: ByteOut>(output: &mut WriteBehind, writer: &mut W) -> Result<(), CallFailed>
    ensures { PutsAll (W.taken writer.old) (W.taken writer.new) (W.failed_calls writer.old) (W.failed_calls writer.new)
        (output.old ++ (end_line ++ 10 ∷ [])) output.new result }
{
    output.put(writer, b"COMMIT;\n")
}

/// Puts a line behind what is gathered.
fn put_line<W: ByteOut>(
    text: &TextLine,
    output: &mut WriteBehind,
    writer: &mut W,
) -> Result<(), CallFailed>
    ensures { PutsAll (W.taken writer.old) (W.taken writer.new) (W.failed_calls writer.old) (W.failed_calls writer.new)
        (output.old ++ text.now) output.new result }
{
    output.put(writer, text.as_slice())
}

/// Puts the rows of the gateways behind what is gathered.
fn put_gateways<A: Allocator + Clone, W: ByteOut>(
    gateways: &[JournalGateway<A>],
    text: &mut TextLine,
    output: &mut WriteBehind,
    writer: &mut W,
) -> Result<(), CallFailed>
    ensures { PutsAll (W.taken writer.old) (W.taken writer.new) (W.failed_calls writer.old) (W.failed_calls writer.new)
        (output.old ++ text_of (map gateway_row gateways.now)) output.new result }
{
    for gateway in gateways {
        write_gateway(text, gateway);
        match put_line(text, output, writer) {
            Ok(()) => {}
            Err(fault) => return Err(fault),
        }
    }
    Ok(())
}

/// Puts the rows of the devices behind what is gathered.
fn put_devices<A: Allocator, W: ByteOut>(
    devices: &[JournalDevice<A>],
    text: &mut TextLine,
    output: &mut WriteBehind,
    writer: &mut W,
) -> Result<(), CallFailed>
    ensures { PutsAll (W.taken writer.old) (W.taken writer.new) (W.failed_calls writer.old) (W.failed_calls writer.new)
        (output.old ++ text_of (map device_row devices.now)) output.new result }
{
    for device in devices {
        write_device(text, device);
        match put_line(text, output, writer) {
            Ok(()) => {}
            Err(fault) => return Err(fault),
        }
    }
    Ok(())
}

/// Puts the rows of what waits for the devices behind what is gathered.
fn put_queues<A: Allocator, W: ByteOut>(
    devices: &[JournalDevice<A>],
    text: &mut TextLine,
    output: &mut WriteBehind,
    writer: &mut W,
) -> Result<(), CallFailed>
    ensures { PutsAll (W.taken writer.old) (W.taken writer.new) (W.failed_calls writer.old) (W.failed_calls writer.new)
        (output.old ++ text_of (queued_rows 1 devices.now)) output.new result }
{
    let mut number = FIRST_NUMBER;
    for device in devices {
        number = match put_queue(device.addr, number, &device.queue, text, output, writer) {
            Ok(next) => next,
            Err(fault) => return Err(fault),
        };
    }
    Ok(())
}

/// Puts the rows of what waits for a device behind what is gathered, from this number on; the number behind them.
fn put_queue<W: ByteOut>(
    addr: u32,
    number: u64,
    queue: &[Payload],
    text: &mut TextLine,
    output: &mut WriteBehind,
    writer: &mut W,
) -> Result<u64, CallFailed>
    ensures rows { PutsAll (W.taken writer.old) (W.taken writer.new) (W.failed_calls writer.old) (W.failed_calls writer.new)
        (output.old ++ text_of (numbered (queued_row addr) number queue.now)) output.new result }
    ensures next { IfOk result (λ next. next ≡ number_behind number queue.now) }
{
    let mut next = number;
    for payload in queue {
        write_queued(text, addr, next, payload);
        match put_line(text, output, writer) {
            Ok(()) => {}
            Err(fault) => return Err(fault),
        }
        next = number_after(next);
    }
    Ok(next)
}

/// The number of the row behind one.
fn number_after(number: u64) -> u64
    ensures { result ≡ next_number number }
{
    number.wrapping_add(1)
}

/// Puts the rows of what the books keep behind what is gathered.
fn put_books<A: Allocator + Clone, W: ByteOut>(
    gateways: &[JournalGateway<A>],
    text: &mut TextLine,
    output: &mut WriteBehind,
    writer: &mut W,
) -> Result<(), CallFailed>
    ensures { PutsAll (W.taken writer.old) (W.taken writer.new) (W.failed_calls writer.old) (W.failed_calls writer.new)
        (output.old ++ text_of (sent_rows 1 gateways.now)) output.new result }
{
    let mut number = FIRST_NUMBER;
    for gateway in gateways {
        number = match put_book(
            gateway.id,
            number,
            gateway.book.roster(),
            text,
            output,
            writer,
        ) {
            Ok(next) => next,
            Err(fault) => return Err(fault),
        };
    }
    Ok(())
}

/// Puts the rows of the members of a roster behind what is gathered, from this number on; the number behind them.
fn put_book<R: Roster, W: ByteOut>(
    id: u16,
    number: u64,
    roster: &R,
    text: &mut TextLine,
    output: &mut WriteBehind,
    writer: &mut W,
) -> Result<u64, CallFailed>
    ensures rows { PutsAll (W.taken writer.old) (W.taken writer.new) (W.failed_calls writer.old) (W.failed_calls writer.new)
        (output.old ++ text_of (numbered (sent_row id) number (R.list roster.now))) output.new result }
    ensures next { IfOk result (λ next. next ≡ number_behind number (R.list roster.now)) }
{
    let mut next = number;
    let mut from = 0;
    while let Some(member) = roster.first_from(from) {
        write_sent(text, id, next, member);
        match put_line(text, output, writer) {
            Ok(()) => {}
            Err(fault) => return Err(fault),
        }
        next = number_after(next);
        from = member.start + 1;
    }
    Ok(next)
}
