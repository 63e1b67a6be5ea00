// The rows of the sub-bands.
ghost use Rattle.std.specs.Prelude.{◌≡◌, ◌≤◌, ◌+◌, [], ◌∷◌, ◌++◌, length};
ghost use Rattle.radio_bands.specs.Band.{limit_of};
ghost use Rattle.resv_list.specs.Reservations as reservations;
ghost use Rattle.text_lines.specs.Line.{text_of};
ghost use Rattle.gateway_book.specs.Busiest.{busiest_of};
ghost use Rattle.book_picture.specs.Lines.{letter_of, busiest_words, bar_line, label_words, row_lines, lower_rows, upper_rows};

use crate::hour::spent_of;
use crate::scale::{BAR_DOWN, ROW, bar_of, row_of};
use gateway_book::GatewayBook;
use radio_bands::{Band, limit_us};
use resv_list::Roster;
use text_lines::TextLine;

/// Makes `text` the rows of K, L and M in the hour that opens at `from`.
pub(crate) fn write_lower_rows<R: Roster>(book: &GatewayBook<R>, from: u64, text: &mut TextLine)
    ensures { text.new ≡ text_of (lower_rows book.now.list from) }
{
    text.clear();
    add_row(text, book, from, Band::K);
    add_row(text, book, from, Band::L);
    add_row(text, book, from, Band::M);
}

/// Makes `text` the rows of N, P and Q in the hour that opens at `from`.
pub(crate) fn write_upper_rows<R: Roster>(book: &GatewayBook<R>, from: u64, text: &mut TextLine)
    ensures { text.new ≡ text_of (upper_rows book.now.list from) }
{
    text.clear();
    add_row(text, book, from, Band::N);
    add_row(text, book, from, Band::P);
    add_row(text, book, from, Band::Q);
}

/// Adds the row of a sub-band.
fn add_row<R: Roster>(text: &mut TextLine, book: &GatewayBook<R>, from: u64, band: Band)
    requires { length text.old + 340 ≤ 1024 }
    ensures text { text.new ≡ text.old ++ text_of (row_lines book.now.list from band) }
    ensures len { length text.new ≤ length text.old + 340 }
{
    let spent = spent_of(book, from, band);
    add_bar(text, band, spent);
    add_label(text, band, spent);
    add_busiest(text, book.busiest(band));
}

/// Adds the bar of a sub-band, of which so many microseconds begin in the hour.
fn add_bar(text: &mut TextLine, band: Band, spent: u64)
    requires lawful { spent ≤ limit_of band }
    requires room { length text.old + 110 ≤ 1024 }
    ensures text { text.new ≡ text.old ++ (bar_line band spent ++ 10 ∷ []) }
    ensures len { length text.new ≤ length text.old + 110 }
{
    text.text(b"<rect class=\"bar\" x=\"0\" y=\"");
    text.number(row_of(band) * ROW + BAR_DOWN);
    text.text(b"\" width=\"");
    text.number(bar_of(band, spent));
    text.text(b"\" height=\"16000\"/>\n");
}

/// Adds the words of a sub-band up to its limit.
fn add_label(text: &mut TextLine, band: Band, spent: u64)
    requires { length text.old + 150 ≤ 1024 }
    ensures text { text.new ≡ text.old ++ label_words band spent }
    ensures len { length text.new ≤ length text.old + 150 }
{
    text.text(b"<text transform=\"scale(1000)\" x=\"8\" y=\"");
    text.number(row_of(band) * 100 + 22);
    text.text(b"\"><tspan class=\"letter\">");
    text.text(letter_of(band));
    text.text(b"</tspan> this hour ");
    text.number(spent);
    text.text(b" us of ");
    text.number(limit_us(band));
}

/// The letter of a sub-band.
fn letter_of(band: Band) -> &'static [u8]
    ensures letter { result.now ≡ letter_of band }
    ensures one { length result.now ≡ 1 }
{
    match band {
        Band::K => b"K",
        Band::L => b"L",
        Band::M => b"M",
        Band::N => b"N",
        Band::P => b"P",
        Band::Q => b"Q",
    }
}

/// Adds the words of a sub-band's busiest hour, and the end of their line.
fn add_busiest(text: &mut TextLine, busiest: Option<(u64, u64)>)
    requires { length text.old + 80 ≤ 1024 }
    ensures text { text.new ≡ text.old ++ (busiest_words busiest ++ 10 ∷ []) }
    ensures len { length text.new ≤ length text.old + 80 }
{
    match busiest {
        None => text.text(b" us, nothing is kept</text>\n"),
        Some((from, spent)) => {
            text.text(b" us, busiest hour ");
            text.number(spent);
            text.text(b" us from ");
            text.number(from);
            text.text(b" us</text>\n");
        }
    }
}
