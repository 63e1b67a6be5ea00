// The line for a receive that failed.
ghost use Rattle.std.specs.Prelude.{◌≡◌, [], ◌∷◌, OnOk, OnErr};
ghost use Rattle.std.specs.Io.KnownBytes.{Appends};
ghost use Rattle.text_lines.specs.Calls.{CountsFailure};
ghost use Rattle.text_lines.specs.Line.{text_of};
ghost use Rattle.text_lines.specs.Writing.{WritesFront};
ghost use Rattle.airbook_text.specs.ListenTurns.{unread_line};

use text_lines::{ByteOut, CallFailed, TextLine, write_all};
use text_words::{add_number, add_word};

/// Writes that nothing was received in a turn. After an Err a front of the line was written.
pub(crate) fn write_unread<W: ByteOut>(turn: u64, writer: &mut W) -> Result<(), CallFailed>
    ensures ok { OnOk result (Appends (W.taken writer.old) (W.taken writer.new) (text_of (unread_line turn ∷ []))) }
    ensures err { OnErr result (WritesFront (W.taken writer.old) (W.taken writer.new) (text_of (unread_line turn ∷ []))) }
    ensures failed { CountsFailure (W.failed_calls writer.old) (W.failed_calls writer.new) result }
{
    let mut text = TextLine::new();
    make_unread(turn, &mut text);
    write_all(writer, text.as_slice())
}

/// Makes the empty `text` that line, with its end.
fn make_unread(turn: u64, text: &mut TextLine)
    requires { text.old ≡ [] }
    ensures { text.new ≡ text_of (unread_line turn ∷ []) }
{
    text.text(b"bad");
    add_number(text, turn);
    add_word(text, b"Read");
    text.text(b"\n");
}
