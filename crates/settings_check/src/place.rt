// Places in a text.

/// A place in a text, both numbers from 1: the line, and the column in characters.
#[derive(Clone, Copy, Debug, PartialEq, Eq, PartialOrd, Ord)]
pub struct Place {
    /// The line.
    pub line: u64,
    /// The column: which character of the line.
    pub column: u64,
}

/// Where a text begins.
pub(crate) const START: Place = Place { line: 1, column: 1 };

impl Place {
    /// The place behind one more byte.
    fn after(self, byte: u8) -> Place {
        if byte == b'\n' {
            return Place {
                line: self.line.saturating_add(1),
                column: 1,
            };
        }
        // The first byte of a character counts, and those that go on with it don't.
        let counts = u64::from(byte & 0xC0 != 0x80);
        Place {
            line: self.line,
            column: self.column.saturating_add(counts),
        }
    }
}

/// The place behind some bytes that stand at a text's start.
pub(crate) fn place_after(before: &[u8]) -> Place {
    let mut place = START;
    for byte in before {
        place = place.after(*byte);
    }
    place
}

/// A place that goes on through a text, so that all its places together take the time of one walk.
#[derive(Drop)]
pub(crate) struct Cursor<'a> {
    rest: &'a str,
    place: Place,
}

impl<'a> Cursor<'a> {
    /// At the start of this text.
    pub(crate) fn new(text: &'a str) -> Self {
        Cursor {
            rest: text,
            place: START,
        }
    }

    /// Goes on to where `later` begins, which has to be an end of the text.
    pub(crate) fn go_to(&mut self, later: &'a str) -> Place {
        let count = self.rest.len().saturating_sub(later.len());
        for byte in self.rest.as_bytes().iter().take(count) {
            self.place = self.place.after(*byte);
        }
        self.rest = later;
        self.place
    }
}
