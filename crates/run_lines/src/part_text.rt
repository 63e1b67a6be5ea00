// The text of a run in parts: the lines that answer one event, and the report that ends it.
ghost use Rattle.std.specs.Prelude.{◌≡◌, false, map, IfOk, OnOk, OnErr};
ghost use Rattle.std.specs.Io.KnownBytes.{Appends};
ghost use Rattle.text_lines.specs.Calls.{CountsFailure};
ghost use Rattle.text_lines.specs.Line.{text_of};
ghost use Rattle.text_lines.specs.Writing.{WritesFront};
ghost use Rattle.text_words.specs.Words.{has_refusal};
ghost use Rattle.server_core.specs.Entries.{gateway_of};
ghost use Rattle.run_lines.specs.ReplayText.{entry_lines, report_of};

use crate::replay_text::{has_refused, put_entries, put_report};
use crate::uplink_counts::UplinkCounts;
use gateway_book::GatewayBook;
use resv_list::Roster;
use server_core::Entry;
use std::alloc::Allocator;
use text_lines::{ByteOut, CallFailed, WriteBehind};

/// Writes the lines that answer events, and answers whether one of them begins with `no` or `bad`. After an Err a front of
/// them was written.
pub fn write_entries<A: Allocator, W: ByteOut>(
    entries: &[Entry<A>],
    writer: &mut W,
) -> Result<bool, CallFailed>
    ensures ok { OnOk result (Appends (W.taken writer.old) (W.taken writer.new) (text_of (entry_lines entries.now))) }
    ensures told { IfOk result (λ refused. refused ≡ has_refusal (entry_lines entries.now)) }
    ensures err { OnErr result (WritesFront (W.taken writer.old) (W.taken writer.new) (text_of (entry_lines entries.now))) }
    ensures failed { CountsFailure (W.failed_calls writer.old) (W.failed_calls writer.new) result }
{
    let mut output = WriteBehind::new();
    put_entries(entries, &mut output, writer)?;
    output.flush(writer)?;
    Ok(has_refused(entries))
}

/// Writes the report of the gateways' books and of some counts, of which no line begins with `no` or `bad`. After an Err a front
/// of it was written.
pub fn write_report<B: Roster, W: ByteOut>(
    counts: &UplinkCounts,
    books: &[GatewayBook<B>],
    writer: &mut W,
) -> Result<(), CallFailed>
    ensures ok { OnOk result (Appends (W.taken writer.old) (W.taken writer.new)
        (text_of (report_of counts.now (map gateway_of books.now)))) }
    ensures plain { has_refusal (report_of counts.now (map gateway_of books.now)) ≡ false }
    ensures err { OnErr result (WritesFront (W.taken writer.old) (W.taken writer.new)
        (text_of (report_of counts.now (map gateway_of books.now)))) }
    ensures failed { CountsFailure (W.failed_calls writer.old) (W.failed_calls writer.new) result }
{
    let mut output = WriteBehind::new();
    put_report(counts, books, &mut output, writer)?;
    output.flush(writer)
}
