// A picture of a book's hour, part by part.
ghost use Rattle.std.specs.Prelude.{◌≡◌, [], ◌++◌, OnOk, OnErr};
ghost use Rattle.std.specs.Io.KnownBytes.{Appends};
ghost use Rattle.text_lines.specs.Calls.{CountsFailure};
ghost use Rattle.text_lines.specs.Line.{text_of};
ghost use Rattle.text_lines.specs.Writing.{WritesAllBut, WritesFront};
ghost use Rattle.book_picture.specs.Fixed.{style_lines, frame_lines};
ghost use Rattle.book_picture.specs.Lines.{opening_lines, lower_rows, upper_rows, head_lines, mark_lines, picture_text};

use crate::fixed::{END, FRAME, STYLE};
use crate::hour::opening_of;
use crate::marks::put_marks;
use crate::opening::write_opening;
use crate::rows::{write_lower_rows, write_upper_rows};
use gateway_book::GatewayBook;
use resv_list::Roster;
use text_lines::{ByteOut, CallFailed, TextLine, WriteBehind};

/// Writes the picture of an hour of a book, as an SVG: of the hour that opens at `from`, in microseconds of the gateway's clock, or
/// where that is `None`, of the one that ends with the last transmission. Takes no memory. An Err is a failed call of the writer;
/// a front of the picture was written then.
pub fn write_picture<R: Roster, W: ByteOut>(
    book: &GatewayBook<R>,
    from: Option<u64>,
    writer: &mut W,
) -> Result<(), CallFailed>
    ensures ok { OnOk result (Appends (W.taken writer.old) (W.taken writer.new) (picture_text book.now from)) }
    ensures err { OnErr result (WritesFront (W.taken writer.old) (W.taken writer.new) (picture_text book.now from)) }
    ensures failed { CountsFailure (W.failed_calls writer.old) (W.failed_calls writer.new) result }
{
    let opening = opening_of(book, from);
    let mut output = WriteBehind::new();
    match put_all_but_end(book, opening, &mut output, writer) {
        Err(fault) => return Err(fault),
        Ok(()) => {}
    }
    output.put_through(writer, END)
}

/// Puts the picture of the hour that opens at `from`, but for its last line.
fn put_all_but_end<R: Roster, W: ByteOut>(
    book: &GatewayBook<R>,
    from: u64,
    output: &mut WriteBehind,
    writer: &mut W,
) -> Result<(), CallFailed>
    ensures ok { OnOk result (WritesAllBut (W.taken writer.old) (W.taken writer.new)
        (output.old ++ text_of (head_lines book.now from ++ mark_lines book.now.list from)) output.new) }
    ensures err { OnErr result (WritesFront (W.taken writer.old) (W.taken writer.new)
        (output.old ++ text_of (head_lines book.now from ++ mark_lines book.now.list from))) }
    ensures failed { CountsFailure (W.failed_calls writer.old) (W.failed_calls writer.new) result }
{
    match put_head(book, from, output, writer) {
        Err(fault) => return Err(fault),
        Ok(()) => {}
    }
    put_marks(book.roster(), from, output, writer)
}

/// Puts all that stands before the marks.
fn put_head<R: Roster, W: ByteOut>(
    book: &GatewayBook<R>,
    from: u64,
    output: &mut WriteBehind,
    writer: &mut W,
) -> Result<(), CallFailed>
    ensures ok { OnOk result (WritesAllBut (W.taken writer.old) (W.taken writer.new)
        (output.old ++ text_of (head_lines book.now from)) output.new) }
    ensures err { OnErr result (WritesFront (W.taken writer.old) (W.taken writer.new)
        (output.old ++ text_of (head_lines book.now from))) }
    ensures failed { CountsFailure (W.failed_calls writer.old) (W.failed_calls writer.new) result }
{
    match put_opening(book.id(), book.totals().floor, from, output, writer) {
        Err(fault) => return Err(fault),
        Ok(()) => {}
    }
    put_rows(book, from, output, writer)
}

/// Puts the first lines, and those that are always the same.
fn put_opening<W: ByteOut>(
    id: u16,
    floor: u64,
    from: u64,
    output: &mut WriteBehind,
    writer: &mut W,
) -> Result<(), CallFailed>
    ensures ok { OnOk result (WritesAllBut (W.taken writer.old) (W.taken writer.new)
        (output.old ++ text_of (opening_lines id floor from ++ (style_lines ++ frame_lines))) output.new) }
    ensures err { OnErr result (WritesFront (W.taken writer.old) (W.taken writer.new)
        (output.old ++ text_of (opening_lines id floor from ++ (style_lines ++ frame_lines)))) }
    ensures failed { CountsFailure (W.failed_calls writer.old) (W.failed_calls writer.new) result }
{
    let mut text = TextLine::new();
    write_opening(id, floor, from, &mut text);
    match output.put(writer, text.as_slice()) {
        Err(fault) => return Err(fault),
        Ok(()) => {}
    }
    put_fixed(output, writer)
}

/// Puts the lines that are always the same.
fn put_fixed<W: ByteOut>(output: &mut WriteBehind, writer: &mut W) -> Result<(), CallFailed>
    ensures ok { OnOk result (WritesAllBut (W.taken writer.old) (W.taken writer.new)
        (output.old ++ text_of (style_lines ++ frame_lines)) output.new) }
    ensures err { OnErr result (WritesFront (W.taken writer.old) (W.taken writer.new)
        (output.old ++ text_of (style_lines ++ frame_lines))) }
    ensures failed { CountsFailure (W.failed_calls writer.old) (W.failed_calls writer.new) result }
{
    match output.put(writer, STYLE) {
        Err(fault) => return Err(fault),
        Ok(()) => {}
    }
    output.put(writer, FRAME)
}

/// Puts the rows of the sub-bands.
fn put_rows<R: Roster, W: ByteOut>(
    book: &GatewayBook<R>,
    from: u64,
    output: &mut WriteBehind,
    writer: &mut W,
) -> Result<(), CallFailed>
    ensures ok { OnOk result (WritesAllBut (W.taken writer.old) (W.taken writer.new)
        (output.old ++ text_of (lower_rows book.now.list from ++ upper_rows book.now.list from)) output.new) }
    ensures err { OnErr result (WritesFront (W.taken writer.old) (W.taken writer.new)
        (output.old ++ text_of (lower_rows book.now.list from ++ upper_rows book.now.list from))) }
    ensures failed { CountsFailure (W.failed_calls writer.old) (W.failed_calls writer.new) result }
{
    let mut text = TextLine::new();
    write_lower_rows(book, from, &mut text);
    match output.put(writer, text.as_slice()) {
        Err(fault) => return Err(fault),
        Ok(()) => {}
    }
    write_upper_rows(book, from, &mut text);
    output.put(writer, text.as_slice())
}
