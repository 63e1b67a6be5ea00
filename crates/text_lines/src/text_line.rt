// A line of output, or a few of them, in a buffer of fixed size.
ghost use Rattle.std.specs.Prelude.{◌≡◌, ℕ, ◌+◌, ◌≤◌, List, [], ◌∷◌, ◌++◌, length, take, decimal};

use itoa::Buffer;
use std::marker::Model;

/// The most bytes of a `TextLine`: no line of output has so many, and no report of a book.
pub const TEXT_LIMIT: usize = 1024;

/// The most digits of a number of 64 bits, as `number` adds it and as a word is read.
pub const NUMBER_DIGITS: usize = 20;

/// A text of one line or of a few, which is put together piece by piece, of at most 1,024 bytes.
#[derive(Debug, Drop)]
pub struct TextLine {
    bytes: [u8; TEXT_LIMIT],
    len: usize,
}

impl Model for TextLine {
    ghost Value = { List ℕ };

    ghost view = { λ s. take s.len s.bytes };

    ghost invariant = { λ s. s.len ≤ 1024 };
}

impl TextLine {
    /// An empty text.
    pub fn new() -> Self
        ensures { result ≡ [] }
    {
        TextLine {
            bytes: [0; TEXT_LIMIT],
            len: 0,
        }
    }

    /// The bytes of the text.
    pub fn as_slice(&self) -> &[u8]
        ensures bytes { result.now ≡ self.now }
        ensures short { length result.now ≤ TEXT_LIMIT }
    {
        &self.bytes[..self.len]
    }

    /// Begins again with an empty text.
    pub fn clear(&mut self)
        ensures { self.new ≡ [] }
    {
        self.len = 0;
    }

    /// Adds bytes. The line has room for 1,024 in all.
    pub fn text(&mut self, text: &[u8])
        requires { length self.old + length text.now ≤ TEXT_LIMIT }
        ensures text { self.new ≡ self.old ++ text.now }
        ensures len { length self.new ≡ length self.old + length text.now }
    {
        let end = self.len + text.len();
        self.bytes[self.len..end].copy_from_slice(text);
        self.len = end;
    }

    /// Adds the decimal digits of a number, without leading zeros: up to 20, for which there has to be room.
    pub fn number(&mut self, number: u64)
        requires { length self.old + NUMBER_DIGITS ≤ TEXT_LIMIT }
        ensures text { self.new ≡ self.old ++ decimal number }
        ensures len { length self.new ≤ length self.old + NUMBER_DIGITS }
    {
        let mut digits = Buffer::new();
        self.text(digits.format(number).as_bytes());
    }
}

/// Adds a space and a number.
pub fn add_number(text: &mut TextLine, number: u64)
    requires { length text.old + 21 ≤ 1024 }
    ensures text { text.new ≡ text.old ++ (32 ∷ decimal number) }
    ensures len { length text.new ≤ length text.old + 21 }
{
    text.text(b" ");
    text.number(number);
}

/// Adds a space and a word.
pub fn add_word(text: &mut TextLine, word: &[u8])
    requires { length text.old + 1 + length word.now ≤ 1024 }
    ensures text { text.new ≡ text.old ++ (32 ∷ word.now) }
    ensures len { length text.new ≡ length text.old + 1 + length word.now }
{
    text.text(b" ");
    text.text(word);
}
