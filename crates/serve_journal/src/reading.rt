// A journal is read.
ghost use Rattle.std.specs.Prelude.{◌≡◌, ◌+◌, ◌<◌, ◌^◌, length, option_and_then};
ghost use Rattle.std.specs.List.{list_all};
ghost use Rattle.serve_journal.specs.Journal.{after_entry, nothing};
ghost use Rattle.serve_journal.specs.EntryWords.{entry_of};
ghost use Rattle.serve_journal.specs.Lines.{lines_of, batches_of};
ghost use Rattle.serve_journal.specs.Reading.{journal_of, first_lines, read_lines, is_entry, is_torn};
ghost use Rattle.serve_journal.specs.TakingLines.{TakesLine, TakesLines, Reads};

use crate::fault::EntryFault;
use crate::head::head_fault;
use crate::lines::{line_count, next_batch, next_line};
use crate::{JournalFault, JournalState, read_entry};
use std::alloc::Allocator;

/// What a journal says, the bytes of its file. What stands behind the last line `.` counts for nothing, nor does the last batch
/// where it isn't the first and a line of it is malformed: it was written when the server was killed. The bytes are gone
/// over once for the lines `.` and once for the entries; nothing is copied but what is kept.
///
/// Of several faults the first by line is told; `NoMemory` comes only where a growth was refused.
pub fn read_journal<A: Allocator + Copy>(
    alloc: A,
    bytes: &[u8],
) -> Result<JournalState<A>, JournalFault>
    ensures { Reads (journal_of bytes.now) result }
{
    let Some((first, mut rest)) = next_batch(bytes) else {
        return Err(JournalFault::NoBatch {
            line: line_count(bytes) + 1,
        });
    };
    let mut state = JournalState::new(alloc);
    let mut number = match state.take_first(first) {
        Ok(next) => next + 1,
        Err(fault) => return Err(fault),
    };
    while let Some((batch, after)) = next_batch(rest) {
        if is_torn(batch, after) {
            return Ok(state);
        }
        match state.take_lines(batch, number) {
            Ok(next) => number = next + 1,
            Err(fault) => return Err(fault),
        }
        rest = after;
    }
    Ok(state)
}

/// Whether a batch is the last one, and a line of it is malformed.
fn is_torn(batch: &[u8], after: &[u8]) -> bool
    ensures { result ≡ is_torn (lines_of batch.now) (batches_of (lines_of after.now)) }
{
    next_batch(after).is_none() && !are_entries(batch)
}

/// Whether each line is spelled as one that is written.
fn are_entries(lines: &[u8]) -> bool
    ensures { result ≡ list_all is_entry (lines_of lines.now) }
{
    let mut rest = lines;
    while let Some((line, after)) = next_line(rest) {
        if read_entry(line).is_none() {
            return false;
        }
        rest = after;
    }
    true
}

impl<A: Allocator + Copy> JournalState<A> {
    /// Takes the lines of the first batch in, and answers the number that follows theirs.
    fn take_first(&mut self, batch: &[u8]) -> Result<u64, JournalFault>
        requires { self.old ≡ nothing }
        ensures { TakesLines (first_lines (lines_of batch.now)) self.new (length (lines_of batch.now) + 1) result }
    {
        let Some((head, lines)) = next_line(batch) else {
            return Err(JournalFault::NoHead);
        };
        match head_fault(head) {
            Some(fault) => Err(fault),
            None => self.take_lines(lines, 2),
        }
    }

    /// Takes lines in, the first of which has this number, and answers the number that follows theirs.
    fn take_lines(&mut self, lines: &[u8], number: u64) -> Result<u64, JournalFault>
        requires { number + length lines.now < 2 ^ 64 }
        ensures { TakesLines (read_lines number self.old (lines_of lines.now)) self.new (number + length (lines_of lines.now))
            result }
    {
        let mut next = number;
        let mut rest = lines;
        while let Some((line, after)) = next_line(rest) {
            match self.take_line(line, next) {
                Ok(()) => {}
                Err(fault) => return Err(fault),
            }
            next += 1;
            rest = after;
        }
        Ok(next)
    }

    /// Takes the line of this number in.
    fn take_line(&mut self, line: &[u8], number: u64) -> Result<(), JournalFault>
        ensures { TakesLine number (option_and_then (after_entry self.old) (entry_of line.now)) self.new result }
    {
        let Some(entry) = read_entry(line) else {
            return Err(JournalFault::Journal { line: number });
        };
        match self.take(entry) {
            Ok(()) => Ok(()),
            Err(EntryFault::Refused) => Err(JournalFault::Journal { line: number }),
            Err(EntryFault::NoMemory) => Err(JournalFault::NoMemory),
        }
    }
}
