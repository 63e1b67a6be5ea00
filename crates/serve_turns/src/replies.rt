// What is answered to a program on the machine itself, and what the journal keeps before.
ghost use Rattle.std.specs.Prelude.{◌≡◌, map, IfOk, [], ◌∷◌};
ghost use Rattle.text_lines.specs.Line.{text_of};
ghost use Rattle.run_lines.specs.ReplayText.{entry_lines, report_of};
ghost use Rattle.server_core.specs.Entries.{gateway_of};
ghost use Rattle.serve_journal.specs.declared.entry.Entry.TheVariants as says;
ghost use Rattle.serve_downlinks.specs.Batch.{batch_text};

use forwarder_sessions::NoMemory;
use run_lines::{UplinkCounts, write_entries, write_report};
use serve_downlinks::add_entry;
use serve_journal::{BATCH_END, Entry as Note, Payload};
use server_core::{Book, Entry};
use std::alloc::{AllocError, Allocator};
use text_lines::StdOut;

/// The batch that says that a payload waits for the device with this address.
pub(crate) fn waits_batch<A: Allocator>(
    alloc: A,
    addr: u32,
    payload: Payload,
) -> Result<Vec<u8, A>, NoMemory>
    ensures { IfOk result (λ batch. batch.items ≡ batch_text (says.Queue addr payload ∷ [])) }
{
    let mut batch = Vec::new(alloc);
    add_entry(&mut batch, &Note::Queue { addr, payload })?;
    batch.extend_from_slice(BATCH_END)?;
    Ok(batch)
}

/// The lines that answer an event, each with its end.
pub(crate) fn entries_text<A: Allocator>(
    alloc: A,
    entries: &[Entry<A>],
) -> Result<Vec<u8, A>, NoMemory>
    ensures { IfOk result (λ text. text.items ≡ text_of (entry_lines entries.now)) }
{
    let mut text = StdOut::new(Vec::new(alloc));
    match write_entries(entries, &mut text) {
        Ok(_) => Ok(text.writer),
        // A vector takes all bytes unless a growth is refused.
        Err(_) => Err(AllocError),
    }
}

/// The report of books and of counts, each line with its end.
pub(crate) fn report_text<A: Allocator + Copy>(
    alloc: A,
    counts: &UplinkCounts,
    books: &[Book<A>],
) -> Result<Vec<u8, A>, NoMemory>
    ensures { IfOk result (λ text. text.items ≡ text_of (report_of counts.now (map gateway_of books.now))) }
{
    let mut text = StdOut::new(Vec::new(alloc));
    match write_report(counts, books, &mut text) {
        Ok(()) => Ok(text.writer),
        // A vector takes all bytes unless a growth is refused.
        Err(_) => Err(AllocError),
    }
}
