// The steps in which a saved book is read: its version, its gateway, and each line that follows.
ghost use Rattle.std.specs.Prelude.{◌≡◌, ◌+◌, ◌≤◌, ◌==◌, ◌||◌, None, length, IfOk, IfErr, OnOk};
ghost use Rattle.text_lines.specs.Calls.{CountsWhere};
ghost use Rattle.gateway_book.specs.Loading.{is_read, loaded, saved_empty};
ghost use Rattle.gateway_book.specs.Opening.{open_fault};
ghost use Rattle.gateway_book.specs.Saved.{Saved};
ghost use Rattle.gateway_book.specs.SavedLines.{Leads, IsFault, gateway_from, members_from, entry_then};

use crate::saved_line::{
    Entry, SavedGateway, VERSION, WITHOUT_GAP, entry_said, gateway_said, version_said,
};
use crate::saved_reader::next_line;
use crate::{LoadFault, open_fault};
use text_lines::{ByteIn, HeldLine};

/// Reads the first two lines: a gateway whose book may be opened, beside the number of bytes that were taken.
pub(crate) fn read_opening<I: ByteIn>(
    reader: &mut I,
    line: &mut HeldLine,
) -> Result<(SavedGateway, u64), LoadFault>
    ensures says { IfOk result (λ read. Leads (I.left reader.old) (I.left reader.new) read.1
        loaded (members_from 3 (saved_empty read.0))) }
    ensures opens { IfOk result (λ read. open_fault (saved_empty read.0).rules ≡ None) }
    ensures few { IfOk result (λ read. read.1 ≤ 162) }
    ensures fault { IfErr result (IsFault loaded (I.left reader.old)) }
    ensures read { CountsWhere is_read (I.failed_calls reader.old) (I.failed_calls reader.new) result }
{
    let version = read_version(reader, line)?;
    let first = bytes_of(line);
    let gateway = read_gateway(reader, line, version)?;
    Ok((gateway, first + bytes_of(line)))
}

/// How many bytes a line has, with its line feed.
pub(crate) fn bytes_of(line: &HeldLine) -> u64
    ensures { result ≡ length line.now + 1 }
{
    line.as_slice().len() as u64 + 1
}

/// Reads the first line: the version, if it is 1 or 2.
pub(crate) fn read_version<I: ByteIn>(reader: &mut I, line: &mut HeldLine) -> Result<u32, LoadFault>
    ensures says { IfOk result (λ version. Leads (I.left reader.old) (I.left reader.new) (length line.new + 1)
        loaded (gateway_from version)) }
    ensures short { OnOk result (length line.new ≤ 80) }
    ensures fault { IfErr result (IsFault loaded (I.left reader.old)) }
    ensures read { CountsWhere is_read (I.failed_calls reader.old) (I.failed_calls reader.new) result }
{
    match next_line(reader, line, 1) {
        Err(fault) => return Err(fault),
        Ok(()) => {}
    }
    match version_said(line.as_slice()) {
        None => Err(LoadFault::Syntax { line: 1 }),
        Some(version) if is_known(version) => Ok(version),
        Some(_) => Err(LoadFault::Version),
    }
}

/// Whether a saved text of this version is read.
fn is_known(version: u32) -> bool
    ensures { result ≡ (version == 1 || version == 2) }
{
    version == WITHOUT_GAP || version == VERSION
}

/// Reads the second line: a gateway whose book may be opened.
pub(crate) fn read_gateway<I: ByteIn>(
    reader: &mut I,
    line: &mut HeldLine,
    version: u32,
) -> Result<SavedGateway, LoadFault>
    ensures says { IfOk result (λ gateway. Leads (I.left reader.old) (I.left reader.new) (length line.new + 1)
        (gateway_from version) (members_from 3 (saved_empty gateway))) }
    ensures opens { IfOk result (λ gateway. open_fault (saved_empty gateway).rules ≡ None) }
    ensures short { OnOk result (length line.new ≤ 80) }
    ensures fault { IfErr result (IsFault (gateway_from version) (I.left reader.old)) }
    ensures read { CountsWhere is_read (I.failed_calls reader.old) (I.failed_calls reader.new) result }
{
    match next_line(reader, line, 2) {
        Err(fault) => return Err(fault),
        Ok(()) => {}
    }
    let Some(gateway) = gateway_said(version, line.as_slice()) else {
        return Err(LoadFault::Syntax { line: 2 });
    };
    match open_fault(gateway.cap, gateway.gap) {
        Some(_) => Err(LoadFault::Unlawful { line: 2 }),
        None => Ok(gateway),
    }
}

/// Reads the line of this number: a member, or the count of the members.
pub(crate) fn read_entry<I: ByteIn>(
    reader: &mut I,
    line: &mut HeldLine,
    number: u64,
) -> Result<Entry, LoadFault>
    ensures says { IfOk result (λ entry. (s : Saved) → Leads (I.left reader.old) (I.left reader.new) (length line.new + 1)
        (members_from number s) (entry_then number s entry)) }
    ensures short { OnOk result (length line.new ≤ 80) }
    ensures fault { IfErr result (λ fault. (s : Saved) → IsFault (members_from number s) (I.left reader.old) fault) }
    ensures read { CountsWhere is_read (I.failed_calls reader.old) (I.failed_calls reader.new) result }
{
    match next_line(reader, line, number) {
        Err(fault) => return Err(fault),
        Ok(()) => {}
    }
    match entry_said(line.as_slice()) {
        None => Err(LoadFault::Syntax { line: number }),
        Some(entry) => Ok(entry),
    }
}
