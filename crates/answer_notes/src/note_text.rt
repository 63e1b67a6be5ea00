// The text of one note, in a buffer of fixed size.
ghost use Rattle.std.specs.Prelude.{◌≡◌, ◌≤◌, ◌++◌, ◌∷◌, [], take, length};
ghost use Rattle.answer_notes.specs.Note.{ArePrintable, printable};

use std::fmt;
use std::fmt::Write;
use std::marker::Model;

/// The most bytes of a note, its line feed not counted.
pub const NOTE_LIMIT: usize = 400;

/// A note: printable ASCII alone, so one line, of at most 400 bytes. What is longer is cut off there.
#[derive(Debug, Drop)]
pub struct NoteText {
    bytes: [u8; NOTE_LIMIT],
    len: usize,
}

impl Model for NoteText {
    ghost use Rattle.std.specs.Prelude.{◌≤◌, ℕ, List, take};
    ghost use Rattle.answer_notes.specs.Note.{ArePrintable};

    ghost Value = { List ℕ };

    ghost view = { λ s. take s.len s.bytes };

    ghost invariant = { λ s. (s.len ≤ 400) × ArePrintable (take s.len s.bytes) };
}

impl NoteText {
    /// An empty note.
    pub fn new() -> Self
        ensures { result ≡ [] }
    {
        NoteText {
            bytes: [b' '; NOTE_LIMIT],
            len: 0,
        }
    }

    /// What is to be told, with `note: ` before it.
    pub fn of<D: fmt::Display + Drop>(what: D) -> Self {
        let mut note = NoteText::new();
        // A note that could not be made whole is told as far as it goes.
        let _ = write!(note, "note: {what}");
        note
    }

    /// The bytes of the note.
    pub fn as_slice(&self) -> &[u8]
        ensures bytes { result.now ≡ self.now }
        ensures printable { ArePrintable result.now }
        ensures short { length result.now ≤ NOTE_LIMIT }
    {
        &self.bytes[..self.len]
    }

    /// Adds a byte, where fewer than 400 are there; `?` in place of one that is not printable.
    fn push(&mut self, byte: u8)
        ensures { self.new ≡ take NOTE_LIMIT (self.old ++ printable byte ∷ []) }
    {
        if self.len < NOTE_LIMIT {
            self.bytes[self.len] = printable(byte);
            self.len += 1;
        }
    }
}

/// The byte, or `?` where it is not printable.
fn printable(byte: u8) -> u8
    ensures { result ≡ printable byte }
{
    if byte >= b' ' && byte <= b'~' {
        return byte;
    }
    b'?'
}

impl Write for NoteText {
    fn write_str(&mut self, text: &str) -> fmt::Result {
        for byte in text.as_bytes() {
            self.push(*byte);
        }
        Ok(())
    }
}
