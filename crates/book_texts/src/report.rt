// The report at the end of a book's output.
ghost use Rattle.std.specs.Prelude.{◌≡◌, ◌+◌, ◌≤◌, [], ◌∷◌, ◌++◌, length, decimal, OnOk, OnErr};
ghost use Rattle.text_lines.specs.Calls.{CountsFailure};
ghost use Rattle.text_lines.specs.Line.{text_of};
ghost use Rattle.text_lines.specs.Writing.{WritesAllBut, WritesFront};
ghost use Rattle.gateway_book.specs.Remembers.{StandsFor};
ghost use Rattle.gateway_book.specs.Step.{State};
ghost use Rattle.book_texts.specs.Output.{report_at};
ghost use Rattle.book_texts.specs.Report.{totals_lines};

use gateway_book::{GatewayBook, Totals};
use resv_list::Roster;
use text_lines::{ByteOut, CallFailed, TextLine, WriteBehind};
use text_words::{add_busiest, add_number};

/// Puts the lines of the report, each with its end.
pub(crate) fn put_report<B: Roster, W: ByteOut>(
    book: &GatewayBook<B>,
    output: &mut WriteBehind,
    writer: &mut W,
) -> Result<(), CallFailed>
    ensures ok { OnOk result ((s : State) → StandsFor book.now s → WritesAllBut (W.taken writer.old) (W.taken writer.new)
        (output.old ++ text_of (report_at s)) output.new) }
    ensures err { OnErr result ((s : State) → StandsFor book.now s → WritesFront (W.taken writer.old) (W.taken writer.new)
        (output.old ++ text_of (report_at s))) }
    ensures failed { CountsFailure (W.failed_calls writer.old) (W.failed_calls writer.new) result }
{
    let mut text = TextLine::new();
    write_report(book, &mut text);
    output.put(writer, text.as_slice())
}

/// Makes `text` the lines of the report, each with its end.
fn write_report<B: Roster>(book: &GatewayBook<B>, text: &mut TextLine)
    ensures { (s : State) → StandsFor book.now s → text.new ≡ text_of (report_at s) }
{
    write_totals(&book.totals(), text);
    add_busiest(text, None, book);
}

/// Makes `text` the lines of what was counted.
fn write_totals(totals: &Totals, text: &mut TextLine)
    ensures text { text.new ≡ text_of (totals_lines totals.now) }
    ensures len { length text.new ≤ 170 }
{
    text.clear();
    add_line(text, b"booked", totals.booked);
    add_line(text, b"cancelled", totals.cancelled);
    add_line(text, b"retired", totals.retired);
    text.text(b"kept");
    add_number(text, totals.kept as u64);
    add_number(text, totals.kept_airtime);
    text.text(b"\n");
    add_line(text, b"floor", totals.floor);
}

/// Adds a line of a word and a number.
fn add_line(text: &mut TextLine, word: &[u8], number: u64)
    requires { length text.old + length word.now + 22 ≤ 1024 }
    ensures text { text.new ≡ text.old ++ (word.now ++ (32 ∷ (decimal number ++ (10 ∷ [])))) }
    ensures len { length text.new ≤ length text.old + length word.now + 22 }
{
    text.text(word);
    add_number(text, number);
    text.text(b"\n");
}
