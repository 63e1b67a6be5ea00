// The marks of the transmissions of an hour.
ghost use Rattle.std.specs.Prelude.{◌≡◌, ◌≤◌, [], ◌∷◌, ◌++◌, OnOk, OnErr};
ghost use Rattle.text_lines.specs.Calls.{CountsFailure};
ghost use Rattle.text_lines.specs.Line.{text_of};
ghost use Rattle.text_lines.specs.Writing.{WritesAllBut, WritesFront};
ghost use Rattle.book_picture.specs.Lines.{mark_line, mark_lines};

use crate::hour::first_of_hour;
use crate::scale::{MARK_DOWN, ROW, across, row_of, width_of};
use resv_list::{Reservation, Roster};
use text_lines::{ByteOut, CallFailed, TextLine, WriteBehind};

/// Puts a mark for each transmission that begins in the hour that opens at `from`, from one to the next.
pub(crate) fn put_marks<R: Roster, W: ByteOut>(
    roster: &R,
    from: u64,
    output: &mut WriteBehind,
    writer: &mut W,
) -> Result<(), CallFailed>
    ensures ok { OnOk result (WritesAllBut (W.taken writer.old) (W.taken writer.new)
        (output.old ++ text_of (mark_lines (R.list roster.now) from)) output.new) }
    ensures err { OnErr result (WritesFront (W.taken writer.old) (W.taken writer.new)
        (output.old ++ text_of (mark_lines (R.list roster.now) from))) }
    ensures failed { CountsFailure (W.failed_calls writer.old) (W.failed_calls writer.new) result }
{
    let mut text = TextLine::new();
    let mut at = 0;
    while let Some(member) = first_of_hour(roster, from, at) {
        write_mark(&member, from, &mut text);
        match output.put(writer, text.as_slice()) {
            Err(fault) => return Err(fault),
            Ok(()) => {}
        }
        at = member.start + 1;
    }
    Ok(())
}

/// Makes `text` the line of a transmission's mark, with its end.
fn write_mark(member: &Reservation, from: u64, text: &mut TextLine)
    requires { from ≤ member.now.start }
    ensures { text.new ≡ mark_line from member.now ++ 10 ∷ [] }
{
    text.clear();
    text.text(b"<rect class=\"d");
    text.number(u64::from(member.rate.number()));
    text.text(b"\" x=\"");
    text.number(across(from, member.start));
    text.text(b"\" y=\"");
    text.number(row_of(member.band()) * ROW + MARK_DOWN);
    text.text(b"\" width=\"");
    text.number(width_of(member));
    text.text(b"\" height=\"30000\"/>\n");
}
