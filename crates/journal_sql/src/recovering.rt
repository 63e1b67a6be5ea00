// The state that a journal says, as SQL.
ghost use Rattle.std.specs.Prelude.{OnOk, OnErr, IfErr, IsOkAnd};
ghost use Rattle.std.specs.Io.KnownBytes.{Appends};
ghost use Rattle.text_lines.specs.Calls.{CountsWhere};
ghost use Rattle.serve_journal.specs.Reading.{journal_of};
ghost use Rattle.serve_journal.specs.Recovering.{IsRecoverFault, is_write};
ghost use Rattle.journal_sql.specs.Recovering.{sql_said, TookFront};

use crate::write_sql;
use serve_journal::{RecoverFault, read_journal};
use std::alloc::Allocator;
use text_lines::ByteOut;

/// Reads a journal, the bytes of its file, and writes what it says as SQL. Where the journal is at fault nothing is written.
/// `NoGateway` doesn't come.
pub fn recover_sql<A: Allocator + Copy, W: ByteOut>(
    alloc: A,
    bytes: &[u8],
    writer: &mut W,
) -> Result<(), RecoverFault>
    ensures ok { OnOk result (IsOkAnd (sql_said (journal_of bytes.now)) (Appends (W.taken writer.old) (W.taken writer.new))) }
    ensures err { IfErr result (IsRecoverFault (sql_said (journal_of bytes.now))) }
    ensures front { OnErr result (TookFront (sql_said (journal_of bytes.now)) (W.taken writer.old) (W.taken writer.new)) }
    ensures write { CountsWhere is_write (W.failed_calls writer.old) (W.failed_calls writer.new) result }
{
    let state = match read_journal(alloc, bytes) {
        Ok(state) => state,
        Err(fault) => return Err(RecoverFault::Unread(fault)),
    };
    match write_sql(&state, writer) {
        Ok(()) => Ok(()),
        Err(_) => Err(RecoverFault::Write),
    }
}
