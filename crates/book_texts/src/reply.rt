// The answer to a line, and its text.
ghost use Rattle.std.specs.Prelude.{◌≡◌, ◌+◌, ◌≤◌, [], ◌∷◌, ◌++◌, length};

use gateway_book::{CancelFault, Refusal};
use text_lines::TextLine;
use text_words::{add_fault, add_number, add_numbered, add_refusal, add_word};

/// The answer to a line of input.
#[derive(Clone, Copy)]
pub(crate) enum Reply {
    /// `ok NUMBER START END`: it was reserved, from `start` on and before `end`, in microseconds.
    Booked { number: u64, start: u64, end: u64 },
    /// `no NUMBER REFUSAL`: it was refused.
    Refused { number: u64, refusal: Refusal },
    /// `cancelled NUMBER AIRTIME`: it was taken out, with its airtime in microseconds.
    Cancelled { number: u64, airtime: u64 },
    /// `no NUMBER FAULT`: it was not taken out.
    NotCancelled { number: u64, fault: CancelFault },
    /// `floor FLOOR`: where the floor lies now, in microseconds.
    Floor { floor: u64 },
    /// `at NUMBER START`: it could begin at `start`, in microseconds, and no earlier.
    At { number: u64, start: u64 },
    /// `no NUMBER NoStart`: there is no start at which it would be accepted.
    NoStart { number: u64 },
    /// `bad LINE Syntax`: line `line` of the input, counted from 1, is malformed.
    Bad { line: u64 },
}

impl Reply {
    ghost use Rattle.book_texts.specs.Reply.{reply_line};
    ghost use Rattle.book_texts.specs.Planning.{if_line};
    ghost use Rattle.text_words.specs.Words.{is_refusal};

    /// Makes `text` the answer's line, with its end.
    pub(crate) fn write(&self, text: &mut TextLine)
        ensures { text.new ≡ reply_line self.now ++ (10 ∷ []) }
    {
        text.clear();
        self.add(text);
        text.text(b"\n");
    }

    /// Makes `text` the answer's line after the word `if`, with its end.
    pub(crate) fn write_if(&self, text: &mut TextLine)
        ensures { text.new ≡ if_line self.now ++ (10 ∷ []) }
    {
        text.clear();
        text.text(b"if ");
        self.add(text);
        text.text(b"\n");
    }

    /// Adds the answer's words.
    fn add(&self, text: &mut TextLine)
        requires { length text.old ≤ 3 }
        ensures text { text.new ≡ text.old ++ reply_line self.now }
        ensures len { length text.new ≤ 200 }
    {
        match self {
            Reply::Booked { number, start, end } => {
                add_numbered(text, b"ok", *number);
                add_number(text, *start);
                add_number(text, *end);
            }
            Reply::Refused { number, refusal } => {
                add_numbered(text, b"no", *number);
                add_refusal(text, *refusal);
            }
            Reply::Cancelled { number, airtime } => {
                add_numbered(text, b"cancelled", *number);
                add_number(text, *airtime);
            }
            Reply::NotCancelled { number, fault } => {
                add_numbered(text, b"no", *number);
                add_fault(text, *fault);
            }
            Reply::Floor { floor } => add_numbered(text, b"floor", *floor),
            Reply::At { number, start } => {
                add_numbered(text, b"at", *number);
                add_number(text, *start);
            }
            Reply::NoStart { number } => {
                add_numbered(text, b"no", *number);
                add_word(text, b"NoStart");
            }
            Reply::Bad { line } => {
                add_numbered(text, b"bad", *line);
                add_word(text, b"Syntax");
            }
        }
    }

    /// Whether the answer's line begins with `no` or `bad`.
    pub(crate) fn is_refusal(&self) -> bool
        ensures { result ≡ is_refusal (reply_line self.now) }
    {
        match self {
            Reply::Booked { .. }
            | Reply::Cancelled { .. }
            | Reply::Floor { .. }
            | Reply::At { .. } => false,
            Reply::Refused { .. }
            | Reply::NotCancelled { .. }
            | Reply::NoStart { .. }
            | Reply::Bad { .. } => true,
        }
    }
}
