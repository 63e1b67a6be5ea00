// The text of a run: the lines that answer its events, and a report.
ghost use Rattle.std.specs.Prelude.{◌≡◌, ◌++◌, map, IfOk, OnOk, OnErr};
ghost use Rattle.std.specs.List.{list_any};
ghost use Rattle.std.specs.Io.KnownBytes.{Appends};
ghost use Rattle.text_lines.specs.Calls.{CountsFailure};
ghost use Rattle.text_lines.specs.Line.{text_of};
ghost use Rattle.text_lines.specs.Writing.{WritesFront};
ghost use Rattle.run_lines.specs.Putting.{Puts};
ghost use Rattle.server_core.specs.Entries.{gateway_of};
ghost use Rattle.text_words.specs.Words.{is_refusal};
ghost use Rattle.text_words.specs.Words.{has_refusal};
ghost use Rattle.run_lines.specs.EntryLine.{line_text};
ghost use Rattle.run_lines.specs.ReplayText.{entry_lines, report_of, replay_lines};

use crate::entry_line::{is_refused, put_line};
use crate::gateway_report::put_gateways;
use crate::uplink_counts::{UplinkCounts, put_uplink_counts};
use gateway_book::GatewayBook;
use resv_list::Roster;
use server_core::Entry;
use std::alloc::Allocator;
use text_lines::{ByteOut, CallFailed, TextLine, WriteBehind};

/// Writes the lines that answer events and the report of the gateways' books, and answers whether one of them begins with
/// `no` or `bad`. After an Err a front of them was written.
pub fn write_lines<A: Allocator, B: Roster, W: ByteOut>(
    entries: &[Entry<A>],
    books: &[GatewayBook<B>],
    writer: &mut W,
) -> Result<bool, CallFailed>
    ensures ok { OnOk result (Appends (W.taken writer.old) (W.taken writer.new)
        (text_of (replay_lines entries.now (map gateway_of books.now)))) }
    ensures told { IfOk result (λ refused. refused ≡ has_refusal (replay_lines entries.now (map gateway_of books.now))) }
    ensures err { OnErr result (WritesFront (W.taken writer.old) (W.taken writer.new)
        (text_of (replay_lines entries.now (map gateway_of books.now)))) }
    ensures failed { CountsFailure (W.failed_calls writer.old) (W.failed_calls writer.new) result }
{
    let mut output = WriteBehind::new();
    put_lines(entries, books, &mut output, writer)?;
    output.flush(writer)?;
    Ok(has_refused(entries))
}

/// Whether a line that answers an event begins with `no` or `bad`.
pub(crate) fn has_refused<A: Allocator>(entries: &[Entry<A>]) -> bool
    ensures { result ≡ list_any (λ e. is_refusal (line_text e.line)) entries.now }
{
    entries.iter().any(|entry| is_refused(&entry.line))
}

/// Writes the lines of a replay behind what is gathered.
fn put_lines<A: Allocator, B: Roster, W: ByteOut>(
    entries: &[Entry<A>],
    books: &[GatewayBook<B>],
    output: &mut WriteBehind,
    writer: &mut W,
) -> Result<(), CallFailed>
    ensures { Puts (W.taken writer.old) (W.taken writer.new) (W.failed_calls writer.old) (W.failed_calls writer.new)
        (output.old ++ text_of (replay_lines entries.now (map gateway_of books.now))) output.new result }
{
    put_entries(entries, output, writer)?;
    put_report(&UplinkCounts::of(entries), books, output, writer)
}

/// Writes the report of the gateways' books and of some counts behind what is gathered.
pub(crate) fn put_report<B: Roster, W: ByteOut>(
    counts: &UplinkCounts,
    books: &[GatewayBook<B>],
    output: &mut WriteBehind,
    writer: &mut W,
) -> Result<(), CallFailed>
    ensures { Puts (W.taken writer.old) (W.taken writer.new) (W.failed_calls writer.old) (W.failed_calls writer.new)
        (output.old ++ text_of (report_of counts.now (map gateway_of books.now))) output.new result }
{
    put_gateways(books, output, writer)?;
    put_uplink_counts(counts, output, writer)
}

/// Writes the lines that answer the events behind what is gathered.
pub(crate) fn put_entries<A: Allocator, W: ByteOut>(
    entries: &[Entry<A>],
    output: &mut WriteBehind,
    writer: &mut W,
) -> Result<(), CallFailed>
    ensures { Puts (W.taken writer.old) (W.taken writer.new) (W.failed_calls writer.old) (W.failed_calls writer.new)
        (output.old ++ text_of (entry_lines entries.now)) output.new result }
{
    let mut text = TextLine::new();
    for entry in entries {
        put_line(&entry.line, &mut text, output, writer)?;
    }
    Ok(())
}
