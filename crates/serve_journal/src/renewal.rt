// A state, written as a whole journal in one batch.
ghost use Rattle.std.specs.Prelude.{◌≡◌, ◌∷◌, [], ◌++◌, map, OnOk, OnErr};
ghost use Rattle.std.specs.List.{flat_map};
ghost use Rattle.std.specs.Io.KnownBytes.{Appends};
ghost use Rattle.text_lines.specs.Calls.{CountsFailure};
ghost use Rattle.text_lines.specs.Writing.{WritesFront};
ghost use Rattle.serve_journal.specs.EntryText.{entry_text};
ghost use Rattle.serve_journal.specs.Putting.{PutsAll};
ghost use Rattle.serve_journal.specs.Renewal.{renewal_text, entries_text, gateway_entry, device_entry, queue_entries};
ghost use Rattle.serve_journal.specs.Renewal.{sent_entry, sent_entries, clock_entry, head_line, parts_behind};
ghost use Rattle.serve_journal.specs.Lines.{end_line};

use crate::entry_line::write_queue;
use crate::{Entry, JournalDevice, JournalGateway, JournalState, Payload};
use resv_list::{Reservation, Roster};
use std::alloc::Allocator;
use text_lines::{ByteOut, CallFailed, TextLine, WriteBehind};

/// The line that ends a batch, with its end.
pub const BATCH_END: &[u8] = b".\n";

/// Writes a whole journal that says this state, in one batch: the gateways, the devices, the queues, what the books keep by
/// start, and then the clocks, since what was sent is booked before the floor rises. Takes no memory.
pub fn write_state<A: Allocator + Clone, W: ByteOut>(
    state: &JournalState<A>,
    writer: &mut W,
) -> Result<(), CallFailed>
    ensures ok { OnOk result (Appends (W.taken writer.old) (W.taken writer.new) (renewal_text state.now)) }
    ensures err { OnErr result (WritesFront (W.taken writer.old) (W.taken writer.new) (renewal_text state.now)) }
    ensures failed { CountsFailure (W.failed_calls writer.old) (W.failed_calls writer.new) result }
{
    let mut output = WriteBehind::new();
    let mut text = TextLine::new();
    match put_state(
        &state.gateways,
        &state.devices,
        &mut text,
        &mut output,
        writer,
    ) {
        Ok(()) => output.flush(writer),
        Err(fault) => Err(fault),
    }
}

/// Puts the whole text behind what is gathered.
fn put_state<A: Allocator + Clone, W: ByteOut>(
    gateways: &[JournalGateway<A>],
    devices: &[JournalDevice<A>],
    text: &mut TextLine,
    output: &mut WriteBehind,
    writer: &mut W,
) -> Result<(), CallFailed>
    ensures { PutsAll (W.taken writer.old) (W.taken writer.new) (W.failed_calls writer.old) (W.failed_calls writer.new)
        (parts_behind output.old gateways.now devices.now) output.new result }
{
    match put_head(output, writer) {
        Ok(()) => {}
        Err(fault) => return Err(fault),
    }
    match put_gateways(gateways, text, output, writer) {
        Ok(()) => {}
        Err(fault) => return Err(fault),
    }
    match put_devices(devices, text, output, writer) {
        Ok(()) => {}
        Err(fault) => return Err(fault),
    }
    match put_queues(devices, text, output, writer) {
        Ok(()) => {}
        Err(fault) => return Err(fault),
    }
    match put_books(gateways, text, output, writer) {
        Ok(()) => {}
        Err(fault) => return Err(fault),
    }
    match put_clocks(gateways, text, output, writer) {
        Ok(()) => {}
        Err(fault) => return Err(fault),
    }
    put_end(output, writer)
}

/// Puts the first line behind what is gathered.
fn put_head<W: ByteOut>(output: &mut WriteBehind, writer: &mut W) -> Result<(), CallFailed>
    ensures { PutsAll (W.taken writer.old) (W.taken writer.new) (W.failed_calls writer.old) (W.failed_calls writer.new)
        (output.old ++ (head_line ++ 10 ∷ [])) output.new result }
{
    output.put(writer, b"airbook journal 1\n")
}

/// Puts the line that ends a batch behind what is gathered.
fn put_end<W: ByteOut>(output: &mut WriteBehind, writer: &mut W) -> Result<(), CallFailed>
    ensures { PutsAll (W.taken writer.old) (W.taken writer.new) (W.failed_calls writer.old) (W.failed_calls writer.new)
        (output.old ++ (end_line ++ 10 ∷ [])) output.new result }
{
    output.put(writer, BATCH_END)
}

/// Puts the line of an entry behind what is gathered.
fn put_entry<W: ByteOut>(
    entry: &Entry,
    text: &mut TextLine,
    output: &mut WriteBehind,
    writer: &mut W,
) -> Result<(), CallFailed>
    ensures { PutsAll (W.taken writer.old) (W.taken writer.new) (W.failed_calls writer.old) (W.failed_calls writer.new)
        (output.old ++ (entry_text entry.now ++ 10 ∷ [])) output.new result }
{
    entry.write(text);
    output.put(writer, text.as_slice())
}

/// Puts the lines of the gateways behind what is gathered.
fn put_gateways<A: Allocator + Clone, W: ByteOut>(
    gateways: &[JournalGateway<A>],
    text: &mut TextLine,
    output: &mut WriteBehind,
    writer: &mut W,
) -> Result<(), CallFailed>
    ensures { PutsAll (W.taken writer.old) (W.taken writer.new) (W.failed_calls writer.old) (W.failed_calls writer.new)
        (output.old ++ entries_text (map gateway_entry gateways.now)) output.new result }
{
    for gateway in gateways {
        match put_entry(&gateway.entry(), text, output, writer) {
            Ok(()) => {}
            Err(fault) => return Err(fault),
        }
    }
    Ok(())
}

/// Puts the lines of the devices behind what is gathered.
fn put_devices<A: Allocator, W: ByteOut>(
    devices: &[JournalDevice<A>],
    text: &mut TextLine,
    output: &mut WriteBehind,
    writer: &mut W,
) -> Result<(), CallFailed>
    ensures { PutsAll (W.taken writer.old) (W.taken writer.new) (W.failed_calls writer.old) (W.failed_calls writer.new)
        (output.old ++ entries_text (map device_entry devices.now)) output.new result }
{
    for device in devices {
        match put_entry(&device.entry(), text, output, writer) {
            Ok(()) => {}
            Err(fault) => return Err(fault),
        }
    }
    Ok(())
}

/// Puts the lines of what waits for the devices behind what is gathered.
fn put_queues<A: Allocator, W: ByteOut>(
    devices: &[JournalDevice<A>],
    text: &mut TextLine,
    output: &mut WriteBehind,
    writer: &mut W,
) -> Result<(), CallFailed>
    ensures { PutsAll (W.taken writer.old) (W.taken writer.new) (W.failed_calls writer.old) (W.failed_calls writer.new)
        (output.old ++ entries_text (flat_map queue_entries devices.now)) output.new result }
{
    for device in devices {
        match put_queue(device.addr, &device.queue, text, output, writer) {
            Ok(()) => {}
            Err(fault) => return Err(fault),
        }
    }
    Ok(())
}

/// Puts the lines of what waits for a device behind what is gathered.
fn put_queue<W: ByteOut>(
    addr: u32,
    queue: &[Payload],
    text: &mut TextLine,
    output: &mut WriteBehind,
    writer: &mut W,
) -> Result<(), CallFailed>
    ensures { PutsAll (W.taken writer.old) (W.taken writer.new) (W.failed_calls writer.old) (W.failed_calls writer.new)
        (output.old ++ entries_text (map (Entry.Queue addr) queue.now)) output.new result }
{
    for payload in queue {
        match put_queued(addr, payload, text, output, writer) {
            Ok(()) => {}
            Err(fault) => return Err(fault),
        }
    }
    Ok(())
}

/// Puts the line of a payload that waits for a device behind what is gathered.
fn put_queued<W: ByteOut>(
    addr: u32,
    payload: &Payload,
    text: &mut TextLine,
    output: &mut WriteBehind,
    writer: &mut W,
) -> Result<(), CallFailed>
    ensures { PutsAll (W.taken writer.old) (W.taken writer.new) (W.failed_calls writer.old) (W.failed_calls writer.new)
        (output.old ++ (entry_text (Entry.Queue addr payload.now) ++ 10 ∷ [])) output.new result }
{
    write_queue(text, addr, payload);
    output.put(writer, text.as_slice())
}

/// Puts the lines of what the books keep behind what is gathered.
fn put_books<A: Allocator + Clone, W: ByteOut>(
    gateways: &[JournalGateway<A>],
    text: &mut TextLine,
    output: &mut WriteBehind,
    writer: &mut W,
) -> Result<(), CallFailed>
    ensures { PutsAll (W.taken writer.old) (W.taken writer.new) (W.failed_calls writer.old) (W.failed_calls writer.new)
        (output.old ++ entries_text (flat_map sent_entries gateways.now)) output.new result }
{
    for gateway in gateways {
        match put_book(gateway.id, gateway.book.roster(), text, output, writer) {
            Ok(()) => {}
            Err(fault) => return Err(fault),
        }
    }
    Ok(())
}

/// Puts the lines of the members of a roster behind what is gathered.
fn put_book<R: Roster, W: ByteOut>(
    id: u16,
    roster: &R,
    text: &mut TextLine,
    output: &mut WriteBehind,
    writer: &mut W,
) -> Result<(), CallFailed>
    ensures { PutsAll (W.taken writer.old) (W.taken writer.new) (W.failed_calls writer.old) (W.failed_calls writer.new)
        (output.old ++ entries_text (map (sent_entry id) (R.list roster.now))) output.new result }
{
    let mut from = 0;
    while let Some(member) = roster.first_from(from) {
        match put_entry(&sent(id, member), text, output, writer) {
            Ok(()) => {}
            Err(fault) => return Err(fault),
        }
        from = member.start + 1;
    }
    Ok(())
}

/// What is written of a member of a gateway's book.
fn sent(id: u16, member: Reservation) -> Entry
    ensures { result ≡ sent_entry id member }
{
    Entry::Sent {
        id,
        start: member.start,
        freq_hz: member.freq_hz,
        rate: member.rate,
        len: member.len,
    }
}

/// Puts the lines of the clocks behind what is gathered.
fn put_clocks<A: Allocator + Clone, W: ByteOut>(
    gateways: &[JournalGateway<A>],
    text: &mut TextLine,
    output: &mut WriteBehind,
    writer: &mut W,
) -> Result<(), CallFailed>
    ensures { PutsAll (W.taken writer.old) (W.taken writer.new) (W.failed_calls writer.old) (W.failed_calls writer.new)
        (output.old ++ entries_text (map clock_entry gateways.now)) output.new result }
{
    for gateway in gateways {
        match put_entry(&gateway.clock_entry(), text, output, writer) {
            Ok(()) => {}
            Err(fault) => return Err(fault),
        }
    }
    Ok(())
}
