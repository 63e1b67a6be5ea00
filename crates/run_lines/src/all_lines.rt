// The lines of a run's answers are made by one thread or by several, each of which makes some of them.
ghost use Rattle.std.specs.Prelude.{◌≡◌, ◌++◌, map, IfOk, OnOk, OnErr};
ghost use Rattle.std.specs.Io.KnownBytes.{Appends};
ghost use Rattle.std.specs.Thread.{IsSync};
ghost use Rattle.text_lines.specs.Calls.{CountsFailure};
ghost use Rattle.text_lines.specs.Line.{text_of};
ghost use Rattle.text_lines.specs.Writing.{WritesFront};
ghost use Rattle.text_words.specs.Words.{has_refusal};
ghost use Rattle.server_core.specs.Entries.{gateway_of};
ghost use Rattle.run_lines.specs.ReplayText.{bytes_of, entry_lines, replay_lines};

use crate::part_text::{write_entries, write_report};
use crate::replay_text::{has_refused, write_lines};
use crate::uplink_counts::UplinkCounts;
use gateway_book::GatewayBook;
use resv_list::Roster;
use server_core::Entry;
use std::alloc::{AllocError, Global};
use std::thread::{Threads, join};
use text_lines::{ByteOut, CallFailed, MemoryOut, write_all};

/// Fewer entries than these are worth no thread.
const ENTRIES_EACH: usize = 1_024;

/// Writes what `write_lines` writes. The lines of the answers are made by at most so many threads in memory of their own, and
/// by the calling one alone where that is 0 or 1, or where there is no memory for them.
pub fn write_lines_by_threads<R: Threads + Sync, B: Roster, W: ByteOut>(
    rt: &R,
    alloc: Global,
    entries: &[Entry<Global>],
    books: &[GatewayBook<B>],
    threads: u8,
    writer: &mut W,
) -> Result<bool, CallFailed>
    ensures ok { OnOk result (Appends (W.taken writer.old) (W.taken writer.new)
        (text_of (replay_lines entries.now (map gateway_of books.now)))) }
    ensures told { IfOk result (λ refused. refused ≡ has_refusal (replay_lines entries.now (map gateway_of books.now))) }
    ensures err { OnErr result (WritesFront (W.taken writer.old) (W.taken writer.new)
        (text_of (replay_lines entries.now (map gateway_of books.now)))) }
    ensures failed { CountsFailure (W.failed_calls writer.old) (W.failed_calls writer.new) result }
{
    if threads < 2 {
        return write_lines(entries, books, writer);
    }
    let Ok(texts) = texts_between(rt, alloc, entries, threads) else {
        return write_lines(entries, books, writer);
    };
    write_made(texts.as_slice(), entries, books, writer)
}

/// The same, where the text of the answers is made, in parts.
fn write_made<B: Roster, W: ByteOut>(
    texts: &[Vec<u8>],
    entries: &[Entry<Global>],
    books: &[GatewayBook<B>],
    writer: &mut W,
) -> Result<bool, CallFailed>
    requires { bytes_of texts.now ≡ text_of (entry_lines entries.now) }
    ensures ok { OnOk result (Appends (W.taken writer.old) (W.taken writer.new)
        (text_of (replay_lines entries.now (map gateway_of books.now)))) }
    ensures told { IfOk result (λ refused. refused ≡ has_refusal (replay_lines entries.now (map gateway_of books.now))) }
    ensures err { OnErr result (WritesFront (W.taken writer.old) (W.taken writer.new)
        (text_of (replay_lines entries.now (map gateway_of books.now)))) }
    ensures failed { CountsFailure (W.failed_calls writer.old) (W.failed_calls writer.new) result }
{
    write_texts(texts, writer)?;
    write_report(&UplinkCounts::of(entries), books, writer)?;
    Ok(has_refused(entries))
}

/// Writes some texts, one behind another. After an Err a front of them was written.
fn write_texts<W: ByteOut>(texts: &[Vec<u8>], writer: &mut W) -> Result<(), CallFailed>
    ensures ok { OnOk result (Appends (W.taken writer.old) (W.taken writer.new) (bytes_of texts.now)) }
    ensures err { OnErr result (WritesFront (W.taken writer.old) (W.taken writer.new) (bytes_of texts.now)) }
    ensures failed { CountsFailure (W.failed_calls writer.old) (W.failed_calls writer.new) result }
{
    for text in texts {
        write_all(writer, text.as_slice())?;
    }
    Ok(())
}

/// The text of some entries in parts, made by at most so many threads: half of them for each half of the entries.
#[cycle(halves_of_text)]
fn texts_between<R: Threads + Sync>(
    rt: &R,
    alloc: Global,
    entries: &[Entry<Global>],
    threads: u8,
) -> Result<Vec<Vec<u8>>, AllocError>
    ensures { IfOk result (λ texts. bytes_of texts.items ≡ text_of (entry_lines entries.now)) }
{
    if threads < 2 || entries.len() < ENTRIES_EACH {
        return text_alone(alloc, entries);
    }
    let (front, back) = entries.split_at(entries.len() / 2);
    let some = threads / 2;
    let others = threads - some;
    let first_texts = move || -> Result<Vec<Vec<u8>>, AllocError>
        requires { IsSync R.row }
        ensures { IfOk result (λ texts. bytes_of texts.items ≡ text_of (entry_lines front.entry.now)) }
    { texts_between(rt, alloc, front, some) };
    let second_texts = move || -> Result<Vec<Vec<u8>>, AllocError>
        requires { IsSync R.row }
        ensures { IfOk result (λ texts. bytes_of texts.items ≡ text_of (entry_lines back.entry.now)) }
    { texts_between(rt, alloc, back, others) };
    let (first, second) = join(rt, first_texts, second_texts);
    joined(first?, second?)
}

/// The text of some entries, as one part.
fn text_alone(alloc: Global, entries: &[Entry<Global>]) -> Result<Vec<Vec<u8>>, AllocError>
    ensures { IfOk result (λ texts. bytes_of texts.items ≡ text_of (entry_lines entries.now)) }
{
    let mut writer = MemoryOut::new(alloc);
    write_entries(entries, &mut writer).map_err(|_| AllocError)?;
    let mut texts = Vec::new(alloc);
    texts.push(writer.bytes)?;
    Ok(texts)
}

/// These texts, and those that follow them.
fn joined(mut texts: Vec<Vec<u8>>, mut more: Vec<Vec<u8>>) -> Result<Vec<Vec<u8>>, AllocError>
    ensures { IfOk result (λ joined. joined.items ≡ texts.items ++ more.items) }
{
    texts.append(&mut more)?;
    Ok(texts)
}
