// A book as the text from which it is opened again.
ghost use Rattle.std.specs.Prelude.{◌≡◌, [], ◌∷◌, ◌++◌, codes, decimal, OnOk, OnErr};
ghost use Rattle.std.specs.Io.KnownBytes.{Appends};
ghost use Rattle.text_lines.specs.Calls.{CountsFailure};
ghost use Rattle.text_lines.specs.Words.{spaced};
ghost use Rattle.text_lines.specs.Writing.{WritesAllBut, WritesFront};
ghost use Rattle.gateway_book.specs.Saved.{saved_of, saved_text, version_words, gateway_words, member_words, members_text};

use crate::GatewayBook;
use crate::saved_line::VERSION;
use resv_list::{Reservation, Roster};
use text_lines::{ByteOut, CallFailed, TextLine, WriteBehind, add_number};
use thiserror::Error;

/// Why a book was not saved. A front of its text was written.
#[derive(Clone, Copy, Debug, PartialEq, Eq, Error)]
pub enum SaveFault {
    /// A call of the writer failed.
    #[error("the saved book could not be written")]
    Write,
}

impl<R: Roster> GatewayBook<R> {
    /// Writes the book as a text, of which `load` makes it again: its version, the gateway, the members by start, and their
    /// count. Takes no memory.
    pub fn save<W: ByteOut>(&self, writer: &mut W) -> Result<(), SaveFault>
        ensures ok { OnOk result (Appends (W.taken writer.old) (W.taken writer.new) (saved_text self.now)) }
        ensures err { OnErr result (WritesFront (W.taken writer.old) (W.taken writer.new) (saved_text self.now)) }
        ensures failed { CountsFailure (W.failed_calls writer.old) (W.failed_calls writer.new) result }
    {
        let mut output = WriteBehind::new();
        match self.put_saved(&mut output, writer) {
            Err(_) => return Err(SaveFault::Write),
            Ok(()) => {}
        }
        match output.flush(writer) {
            Err(_) => Err(SaveFault::Write),
            Ok(()) => Ok(()),
        }
    }

    /// Puts the same text behind what a caller has gathered. After an Err a front of that and the text was taken, and the rest is
    /// forgotten.
    pub fn put_saved<W: ByteOut>(
        &self,
        output: &mut WriteBehind,
        writer: &mut W,
    ) -> Result<(), CallFailed>
        ensures ok { OnOk result (WritesAllBut (W.taken writer.old) (W.taken writer.new) (output.old ++ saved_text self.now)
            output.new) }
        ensures err { OnErr result (WritesFront (W.taken writer.old) (W.taken writer.new) (output.old ++ saved_text self.now)) }
        ensures forgotten { OnErr result (output.new ≡ []) }
        ensures failed { CountsFailure (W.failed_calls writer.old) (W.failed_calls writer.new) result }
    {
        let mut text = TextLine::new();
        self.write_opening(&mut text);
        match output.put(writer, text.as_slice()) {
            Err(fault) => return Err(fault),
            Ok(()) => {}
        }
        match put_members(&self.roster, output, writer) {
            Err(fault) => return Err(fault),
            Ok(()) => {}
        }
        write_end(self.roster.len(), &mut text);
        output.put(writer, text.as_slice())
    }

    /// Makes `text` the lines of the version and of the gateway, each with its end.
    fn write_opening(&self, text: &mut TextLine)
        ensures { text.new ≡ spaced (version_words 2) ++ (10 ∷ (spaced (gateway_words 2 (saved_of self.now)) ++ 10 ∷ [])) }
    {
        text.clear();
        text.text(b"airbook");
        add_number(text, u64::from(VERSION));
        text.text(b"\ngateway");
        add_number(text, u64::from(self.id()));
        add_number(text, u64::from(self.cap()));
        add_number(text, self.floor);
        add_number(text, u64::from(self.gap()));
        text.text(b"\n");
    }
}

/// Puts the lines of a roster's members, from one to the next.
fn put_members<R: Roster, W: ByteOut>(
    roster: &R,
    output: &mut WriteBehind,
    writer: &mut W,
) -> Result<(), CallFailed>
    ensures ok { OnOk result (WritesAllBut (W.taken writer.old) (W.taken writer.new)
        (output.old ++ members_text (R.list roster.now)) output.new) }
    ensures err { OnErr result (WritesFront (W.taken writer.old) (W.taken writer.new)
        (output.old ++ members_text (R.list roster.now))) }
    ensures forgotten { OnErr result (output.new ≡ []) }
    ensures failed { CountsFailure (W.failed_calls writer.old) (W.failed_calls writer.new) result }
{
    let mut text = TextLine::new();
    let mut from = 0;
    while let Some(member) = roster.first_from(from) {
        write_member(member, &mut text);
        match output.put(writer, text.as_slice()) {
            Err(fault) => return Err(fault),
            Ok(()) => {}
        }
        from = member.start + 1;
    }
    Ok(())
}

/// Makes `text` the line of a member, with its end.
fn write_member(member: Reservation, text: &mut TextLine)
    ensures { text.new ≡ spaced (member_words member) ++ 10 ∷ [] }
{
    text.clear();
    text.text(b"r");
    add_number(text, member.number);
    add_number(text, member.start);
    add_number(text, u64::from(member.freq_hz));
    add_number(text, u64::from(member.rate.number()));
    add_number(text, u64::from(member.len));
    text.text(b"\n");
}

/// Makes `text` the line that counts the members, with its end.
fn write_end(count: usize, text: &mut TextLine)
    ensures { text.new ≡ codes "end" ++ (32 ∷ (decimal count ++ 10 ∷ [])) }
{
    text.clear();
    text.text(b"end");
    add_number(text, count as u64);
    text.text(b"\n");
}
