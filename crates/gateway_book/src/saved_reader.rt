// The lines of a saved book, from a reader that is asked for one byte at a time, so that nothing behind them is taken.
ghost use Rattle.std.specs.Prelude.{IfOk, IfErr, OnOk, IfNone};
ghost use Rattle.std.specs.Option.{option_to_list};
ghost use Rattle.std.specs.Io.KnownBytes.{Consumes, IsAtEnd};
ghost use Rattle.text_lines.specs.Calls.{CountsFailure, CountsWhere};
ghost use Rattle.gateway_book.specs.Loading.{is_read};
ghost use Rattle.gateway_book.specs.SavedLines.{TakesLine, LacksLine};

use crate::LoadFault;
use text_lines::{ByteIn, CallFailed, HeldLine};

/// The most bytes of a line of a saved book, its line feed not counted.
const SAVED_LIMIT: usize = 80;

/// Takes the bytes up to the next line feed, and that, and holds in `line` those before it.
///
/// `Syntax`: the input ends before a line feed, or no line feed follows 80 bytes.
pub(crate) fn next_line<I: ByteIn>(
    reader: &mut I,
    line: &mut HeldLine,
    number: u64,
) -> Result<(), LoadFault>
    ensures line { OnOk result (TakesLine (I.left reader.old) (I.left reader.new) line.new) }
    ensures fault { IfErr result (LacksLine number (I.left reader.old)) }
    ensures read { CountsWhere is_read (I.failed_calls reader.old) (I.failed_calls reader.new) result }
{
    line.clear();
    for _count in 0..SAVED_LIMIT + 1 {
        match next_byte(reader) {
            Err(_) => return Err(LoadFault::Read),
            Ok(None) => return Err(LoadFault::Syntax { line: number }),
            Ok(Some(b'\n')) => return Ok(()),
            Ok(Some(byte)) => line.push(byte),
        }
    }
    Err(LoadFault::Syntax { line: number })
}

/// Takes the next byte of the input. None: the input has ended.
fn next_byte<I: ByteIn>(reader: &mut I) -> Result<Option<u8>, CallFailed>
    ensures byte { IfOk result (λ byte. Consumes (I.left reader.old) (I.left reader.new) (option_to_list byte)) }
    ensures end { IfOk result (λ byte. IfNone byte (IsAtEnd (I.left reader.new))) }
    ensures failed { CountsFailure (I.failed_calls reader.old) (I.failed_calls reader.new) result }
{
    let mut byte = [0; 1];
    match reader.read(&mut byte) {
        Err(fault) => Err(fault),
        Ok(0) => Ok(None),
        Ok(_) => Ok(Some(byte[0])),
    }
}
