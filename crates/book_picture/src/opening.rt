// The first lines of a picture: the gateway, the hour and the floor.
ghost use Rattle.std.specs.Prelude.{◌≡◌, ◌≤◌, ◌+◌, ◌++◌, length};
ghost use Rattle.text_lines.specs.Line.{text_of};
ghost use Rattle.book_picture.specs.Lines.{hour_words, floor_lines, opening_lines};

use crate::fixed::SVG;
use crate::hour::is_within_hour;
use crate::scale::across;
use text_lines::TextLine;

/// Makes `text` the first lines of a picture.
pub(crate) fn write_opening(id: u16, floor: u64, from: u64, text: &mut TextLine)
    ensures { text.new ≡ text_of (opening_lines id floor from) }
{
    text.clear();
    text.text(SVG);
    text.text(b"<title>airbook: ");
    add_hour(text, id, from);
    text.text(b"</title>\n<text class=\"right\" transform=\"scale(1000)\" x=\"994\" y=\"122\">");
    add_hour(text, id, from);
    text.text(b"</text>\n");
    add_floor(text, floor, from);
}

/// Adds the gateway and the hour.
fn add_hour(text: &mut TextLine, id: u16, from: u64)
    requires { length text.old + 80 ≤ 1024 }
    ensures text { text.new ≡ text.old ++ hour_words id from }
    ensures len { length text.new ≤ length text.old + 80 }
{
    text.text(b"gateway ");
    text.number(u64::from(id));
    text.text(b", the hour from ");
    text.number(from);
    text.text(b" us");
}

/// Adds the floor, and its line where it lies in the hour.
fn add_floor(text: &mut TextLine, floor: u64, from: u64)
    requires { length text.old + 240 ≤ 1024 }
    ensures text { text.new ≡ text.old ++ text_of (floor_lines floor from) }
    ensures len { length text.new ≤ length text.old + 240 }
{
    if !is_within_hour(floor, from) {
        text.text(b"<text class=\"right\" transform=\"scale(1000)\" x=\"994\" y=\"222\">floor ");
        text.number(floor);
        text.text(b" us, not in this hour</text>\n");
        return;
    }
    text.text(b"<path class=\"floor\" d=\"M");
    text.number(across(from, floor));
    text.text(
        b" 0V600000\"/>\n<text class=\"right\" transform=\"scale(1000)\" x=\"994\" y=\"222\">dashed line: floor ",
    );
    text.number(floor);
    text.text(b" us</text>\n");
}
