// Who answers lines.
ghost use Rattle.std.specs.Prelude.{◌≡◌, [], ◌++◌, OnOk, OnErr};
ghost use Rattle.text_lines.specs.Calls.{CountsFailure};
ghost use Rattle.text_lines.specs.Line.{text_of};
ghost use Rattle.text_lines.specs.Progress.{IsTurn};
ghost use Rattle.text_lines.specs.Turns.{Turns, TurnsByKept, EndsWithoutRefusal};
ghost use Rattle.text_lines.specs.Writing.{WritesAllBut, WritesFront};

use super::byte_in::CallFailed;
use super::byte_out::ByteOut;
use super::text_line::TextLine;
use super::write_behind::WriteBehind;

/// One who answers lines in turn, each by some lines or by none, and has the last word.
pub trait LineAnswerer {
    // What the answers hang on.
    ghost State: { Type 0 };

    // The answer to each line, and what stands after it.
    ghost turns: { Turns State };

    // Whether this stands now.
    ghost Stands: { Self → State → Type 0 };

    /// Makes an empty `text` the lines that answer line `number`, each with its end, and says whether one of them
    /// begins with `no` or `bad`. The line comes without its end, as far as it is kept.
    fn answer(&mut self, number: u64, line: &[u8], text: &mut TextLine) -> bool
        requires { text.old ≡ [] }
        ensures { IsTurn turns (Stands self.old) (Stands self.new) number line.now text.new result };

    /// Puts the lines that follow the last answer.
    fn end<W: ByteOut>(self, output: &mut WriteBehind, writer: &mut W) -> Result<(), CallFailed>
        ensures ok { OnOk result ((s : State) → Stands self s → WritesAllBut (W.taken writer.old) (W.taken writer.new)
            (output.old ++ text_of (turns.ending s)) output.new) }
        ensures err { OnErr result ((s : State) → Stands self s → WritesFront (W.taken writer.old) (W.taken writer.new)
            (output.old ++ text_of (turns.ending s))) }
        ensures failed { CountsFailure (W.failed_calls writer.old) (W.failed_calls writer.new) result };

    // What is kept of a line does what the line does.
    ghost by_kept: { TurnsByKept turns };

    // No line after the last answer begins with `no` or `bad`.
    ghost no_refusal_at_the_end: { EndsWithoutRefusal turns };
}
