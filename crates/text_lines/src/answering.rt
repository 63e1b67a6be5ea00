// The one loop that reads the lines of an input, has each answered, and writes the answers.
ghost use Rattle.std.specs.Prelude.{◌≡◌, [], ◌++◌, IfOk, OnOk, OnErr};
ghost use Rattle.std.specs.Io.KnownBytes.{Appends};
ghost use Rattle.text_lines.specs.Ahead.{unread};
ghost use Rattle.text_lines.specs.Calls.{CountsFailure};
ghost use Rattle.text_lines.specs.Line.{text_of};
ghost use Rattle.text_lines.specs.Progress.{IsTurnPut, AreTurns, AreTurnsInPart, ReadsAll, ReadsPart};
ghost use Rattle.text_lines.specs.Promise.{AnswersAll, AnswersFront, AnswersRead, KeepsLimit, KeepsLimitFrom};
ghost use Rattle.text_lines.specs.Promise.{CountsReads, CountsWrites};
ghost use Rattle.text_lines.specs.Turns.{output_of};
ghost use Rattle.text_lines.specs.Writing.{WritesFront};

use super::ahead::{INPUT_LIMIT, InFault, NextLine, ReadAhead};
use super::byte_in::{ByteIn, CallFailed};
use super::byte_out::ByteOut;
use super::held_line::HeldLine;
use super::line_answerer::LineAnswerer;
use super::text_line::TextLine;
use super::write_behind::WriteBehind;
use thiserror::Error;

/// Why a text of lines was not answered to its end.
#[derive(Clone, Copy, Debug, PartialEq, Eq, Error)]
pub enum LineFault {
    /// A call of the reader failed.
    #[error("the input could not be read")]
    Read,
    /// A call of the writer failed.
    #[error("the output could not be written")]
    Write,
    /// The input has more than 268,435,456 bytes.
    #[error("the input has more than 268435456 bytes")]
    TooMuch,
}

/// Answers each line of the input, and writes what follows the last answer. It says whether a line of the output
/// begins with `no` or `bad`. After an Err a front of the output was written.
pub fn answer_text<T: LineAnswerer + Drop, R: ByteIn, W: ByteOut>(
    answerer: T,
    reader: &mut R,
    writer: &mut W,
) -> Result<bool, LineFault>
    ensures ok { IfOk result (λ refused. (s : T.State) → T.Stands answerer s → AnswersAll (output_of T.turns s)
        (R.left reader.old) (R.left reader.new) (W.taken writer.old) (W.taken writer.new) refused) }
    ensures front { OnErr result ((s : T.State) → T.Stands answerer s → AnswersFront (output_of T.turns s)
        (R.left reader.old) (W.taken writer.old) (W.taken writer.new)) }
    ensures read_front { OnErr result ((s : T.State) → T.Stands answerer s → AnswersRead (output_of T.turns s)
        (R.left reader.old) (R.left reader.new) (W.taken writer.old) (W.taken writer.new)) }
    ensures limit { KeepsLimit (R.left reader.old) result }
    ensures read { CountsReads (R.failed_calls reader.old) (R.failed_calls reader.new) result }
    ensures write { CountsWrites (W.failed_calls writer.old) (W.failed_calls writer.new) result }
{
    answer_rest(answerer, ReadAhead::new(), reader, writer)
}

/// The same of an input of which some bytes were taken, and others read ahead: the lines are those of the bytes not yet
/// taken, and both count in the limit of the input.
pub fn answer_rest<T: LineAnswerer + Drop, R: ByteIn, W: ByteOut>(
    mut answerer: T,
    mut input: ReadAhead,
    reader: &mut R,
    writer: &mut W,
) -> Result<bool, LineFault>
    ensures ok { IfOk result (λ refused. (s : T.State) → T.Stands answerer s → AnswersAll (output_of T.turns s)
        (unread input (R.left reader.old)) (R.left reader.new) (W.taken writer.old) (W.taken writer.new) refused) }
    ensures front { OnErr result ((s : T.State) → T.Stands answerer s → AnswersFront (output_of T.turns s)
        (unread input (R.left reader.old)) (W.taken writer.old) (W.taken writer.new)) }
    ensures read_front { OnErr result ((s : T.State) → T.Stands answerer s → AnswersRead (output_of T.turns s)
        (unread input (R.left reader.old)) (R.left reader.new) (W.taken writer.old) (W.taken writer.new)) }
    ensures limit { KeepsLimitFrom input.taken (unread input (R.left reader.old)) result }
    ensures read { CountsReads (R.failed_calls reader.old) (R.failed_calls reader.new) result }
    ensures write { CountsWrites (W.failed_calls writer.old) (W.failed_calls writer.new) result }
{
    let mut output = WriteBehind::new();
    let refused = match answer_lines(&mut answerer, &mut input, reader, &mut output, writer) {
        Err(fault) => return Err(fault),
        Ok(refused) => refused,
    };
    match end_text(answerer, &mut output, writer) {
        Err(_) => Err(LineFault::Write),
        Ok(()) => Ok(refused),
    }
}

/// Answers each line of the input, and says whether an answer begins with `no` or `bad`. A line has at least one byte,
/// its end counted, so there are no more lines than the count goes up to.
fn answer_lines<T: LineAnswerer, R: ByteIn, W: ByteOut>(
    answerer: &mut T,
    input: &mut ReadAhead,
    reader: &mut R,
    output: &mut WriteBehind,
    writer: &mut W,
) -> Result<bool, LineFault>
    requires { output.old ≡ [] }
    ensures ok { IfOk result (λ refused. ReadsAll input.old.taken (unread input.old (R.left reader.old)) (R.left reader.new)
        (AreTurns T.turns (T.Stands answerer.old) (T.Stands answerer.new) refused (W.taken writer.old) (W.taken writer.new)
        output.new)) }
    ensures part { OnErr result (ReadsPart (unread input.old (R.left reader.old)) (R.left reader.new) (AreTurnsInPart T.turns
        (T.Stands answerer.old) (W.taken writer.old) (W.taken writer.new))) }
    ensures limit { KeepsLimitFrom input.old.taken (unread input.old (R.left reader.old)) result }
    ensures read { CountsReads (R.failed_calls reader.old) (R.failed_calls reader.new) result }
    ensures write { CountsWrites (W.failed_calls writer.old) (W.failed_calls writer.new) result }
{
    let mut line = HeldLine::new();
    let mut text = TextLine::new();
    let mut refused = false;
    for number in 1..INPUT_LIMIT + 2 {
        let found = match input.next_line(reader, &mut line) {
            Err(InFault::Read) => return Err(LineFault::Read),
            Err(InFault::TooMuch) => return Err(LineFault::TooMuch),
            Ok(found) => found,
        };
        if let NextLine::End = found {
            return Ok(refused);
        }
        let waits = !input.has_line();
        let bytes = line.as_slice();
        match answer_line(answerer, number, bytes, &mut text, waits, output, writer) {
            Err(_) => return Err(LineFault::Write),
            Ok(is_refusal) => refused |= is_refusal,
        }
        if let NextLine::Last = found {
            return Ok(refused);
        }
    }
    Err(LineFault::TooMuch)
}

/// Answers line `number`, and says whether the answer begins with `no` or `bad`. The answer is made in `text`, whatever that had.
/// Where the next line is still to be waited for, all that was gathered is written, so that who sends it has this answer.
fn answer_line<T: LineAnswerer, W: ByteOut>(
    answerer: &mut T,
    number: u64,
    line: &[u8],
    text: &mut TextLine,
    waits: bool,
    output: &mut WriteBehind,
    writer: &mut W,
) -> Result<bool, CallFailed>
    ensures line { IsTurnPut T.turns (T.Stands answerer.old) (T.Stands answerer.new) number line.now output.old output.new
        (W.taken writer.old) (W.taken writer.new) result }
    ensures failed { CountsFailure (W.failed_calls writer.old) (W.failed_calls writer.new) result }
{
    text.clear();
    let is_refusal = answerer.answer(number, line, text);
    if waits {
        output.put_through(writer, text.as_slice())?;
    } else {
        output.put(writer, text.as_slice())?;
    }
    Ok(is_refusal)
}

/// Writes what follows the last answer, and with it all that was gathered.
fn end_text<T: LineAnswerer, W: ByteOut>(
    answerer: T,
    output: &mut WriteBehind,
    writer: &mut W,
) -> Result<(), CallFailed>
    ensures ok { OnOk result ((s : T.State) → T.Stands answerer s → Appends (W.taken writer.old) (W.taken writer.new)
        (output.old ++ text_of (T.turns.ending s))) }
    ensures err { OnErr result ((s : T.State) → T.Stands answerer s → WritesFront (W.taken writer.old) (W.taken writer.new)
        (output.old ++ text_of (T.turns.ending s))) }
    ensures failed { CountsFailure (W.failed_calls writer.old) (W.failed_calls writer.new) result }
{
    match answerer.end(output, writer) {
        Err(failed) => Err(failed),
        Ok(()) => output.flush(writer),
    }
}
