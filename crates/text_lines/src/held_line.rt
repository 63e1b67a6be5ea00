// One line of input, in a buffer of fixed size.
ghost use Rattle.std.specs.Prelude.{◌≡◌, ◌≤◌, List, ℕ, [], ◌∷◌, ◌++◌, ◌↔◌, IsTrue, length, take};
ghost use Rattle.std.specs.Str.Lines.{strip_carriage_return};
ghost use Rattle.text_lines.specs.Line.{kept};

use std::marker::Model;

/// The most bytes that a line may have, its line feed and the carriage return before that not counted.
pub const LINE_LIMIT: usize = 1024;

/// The most bytes of a line that are kept: one more than a line may have, and its carriage return.
pub const KEPT_LIMIT: usize = LINE_LIMIT + 2;

/// The bytes of one line, as far as they are kept, in a buffer that is used again for the next.
#[derive(Debug, Drop)]
pub struct HeldLine {
    bytes: [u8; KEPT_LIMIT],
    len: usize,
}

impl Model for HeldLine {
    ghost Value = { List ℕ };

    ghost view = { λ s. take s.len s.bytes };

    ghost invariant = { λ s. s.len ≤ 1026 };
}

impl HeldLine {
    /// A buffer that holds nothing.
    pub fn new() -> Self
        ensures { result ≡ [] }
    {
        HeldLine {
            bytes: [0; KEPT_LIMIT],
            len: 0,
        }
    }

    /// The bytes that are held.
    pub fn as_slice(&self) -> &[u8]
        ensures bytes { result.now ≡ self.now }
        ensures short { length result.now ≤ KEPT_LIMIT }
    {
        &self.bytes[..self.len]
    }

    /// Whether no byte is held.
    pub fn is_empty(&self) -> bool
        ensures { IsTrue result ↔ (self.now ≡ []) }
    {
        self.len == 0
    }

    /// Forgets what is held.
    pub fn clear(&mut self)
        ensures { self.new ≡ [] }
    {
        self.len = 0;
    }

    /// Adds a byte, if fewer than 1,026 are held.
    pub fn push(&mut self, byte: u8)
        ensures { self.new ≡ take KEPT_LIMIT (self.old ++ byte ∷ []) }
    {
        if self.len < KEPT_LIMIT {
            self.bytes[self.len] = byte;
            self.len += 1;
        }
    }

    /// Takes what is held for the bytes before a line feed: drops the carriage return at their end, and keeps what is
    /// kept of a line.
    pub(crate) fn end_line(&mut self)
        ensures { self.new ≡ kept (strip_carriage_return self.old) }
    {
        if self.len > LINE_LIMIT + 1 {
            self.len = LINE_LIMIT + 1;
        } else if self.len > 0 && self.bytes[self.len - 1] == b'\r' {
            self.len -= 1;
        }
    }

    /// Takes what is held for the bytes before the end of the input: all are the line's own.
    pub(crate) fn end_input(&mut self)
        ensures { self.new ≡ kept self.old }
    {
        self.len = self.len.min(LINE_LIMIT + 1);
    }
}
