// What is recovered of a journal.
use crate::noting::tell_line;
use crate::recover_command::Recovering;
use airbook_text::TextFault;
use journal_sql::recover_sql;
use run_lines::read_all;
use serve_journal::{JournalFault, RecoverFault, recover};
use text_lines::{ByteIn, ByteOut};

/// Reads a journal, and writes what is asked for. Where the journal is at fault, its line is told on standard error.
pub fn recover_text<R: AllocGlobal + Eprint, I: ByteIn, W: ByteOut>(
    rt: &R,
    recovering: Recovering,
    reader: &mut I,
    writer: &mut W,
) -> Result<bool, TextFault> {
    let bytes = match read_all(rt.alloc(), reader) {
        Ok(bytes) => bytes,
        Err(fault) => return Err(fault),
    };
    let recovered = match recovering {
        Recovering::Book { gateway } => recover(rt.alloc(), bytes.as_slice(), gateway, writer),
        Recovering::Sql => recover_sql(rt.alloc(), bytes.as_slice(), writer),
    };
    match recovered {
        Ok(()) => Ok(false),
        Err(fault) => Err(told(rt, fault)),
    }
}

/// The fault, as the program names it; of a journal at fault the line is told before.
fn told<R: Eprint>(rt: &R, fault: RecoverFault) -> TextFault {
    match fault {
        RecoverFault::Unread(JournalFault::NoMemory) => TextFault::NoMemory,
        RecoverFault::Unread(fault) => {
            tell_line(rt, fault);
            TextFault::Settings("Journal")
        }
        RecoverFault::NoGateway => TextFault::Settings("NoGateway"),
        RecoverFault::Write => TextFault::Write,
    }
}
