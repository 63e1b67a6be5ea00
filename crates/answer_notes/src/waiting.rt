// The lines of an input that wait for their answers.
use crate::asked::{Asked, Script, asked_of};
use std::alloc::Allocator;
use std::collections::VecDeque;
use text_lines::{HeldLine, first_word, is_word};

/// What an input begins with, before the lines that are counted.
#[derive(Clone, Copy, Debug, PartialEq, Eq)]
pub enum Head {
    /// Nothing.
    Nothing,
    /// A saved book, up to its line `end`.
    SavedBook,
    /// Settings, up to a line that is exactly `---`.
    Settings,
    /// Settings, to the end of the input.
    SettingsAlone,
}

/// A line that may be refused.
#[derive(Clone, Copy, Debug)]
pub(crate) struct Line {
    /// Its number, counted from 1.
    pub(crate) number: u64,
    /// What it asks for.
    pub(crate) asked: Asked,
}

/// The lines that were read and not yet answered, and what stands before them.
#[derive(Drop)]
pub(crate) struct Waiting<A: Allocator> {
    script: Script,
    head: Head,
    /// The bytes of the head, as far as they were read.
    before: Vec<u8, A>,
    /// The line that is being read.
    held: HeldLine,
    /// How many lines there were behind the head.
    number: u64,
    lines: VecDeque<Line, A>,
    /// How many of these bytes stand before the line that is being read.
    lines_before: usize,
    /// Whether there was memory for all of the head.
    knows_head: bool,
    /// Whether there was memory for every line that waits.
    knows_lines: bool,
}

impl<A: Allocator + Copy> Waiting<A> {
    /// Nothing is read.
    pub(crate) fn new(alloc: A, script: Script, head: Head) -> Self {
        Waiting {
            script,
            head,
            before: Vec::new(alloc),
            held: HeldLine::new(),
            number: 0,
            lines: VecDeque::new(alloc),
            lines_before: 0,
            knows_head: true,
            knows_lines: true,
        }
    }
}

impl<A: Allocator> Waiting<A> {
    /// The bytes of the head, as far as they were read; None where there was no memory for them.
    pub(crate) fn head(&self) -> Option<&[u8]> {
        if self.knows_head {
            return Some(&self.before);
        }
        None
    }

    /// What the lines are about.
    pub(crate) fn script(&self) -> Script {
        self.script
    }

    /// These bytes were read next; none where the input has ended.
    pub(crate) fn read(&mut self, bytes: &[u8]) {
        if bytes.is_empty() && !self.held.is_empty() {
            self.end_line(false);
        }
        for byte in bytes {
            self.take(*byte);
        }
    }

    /// The next byte was read.
    fn take(&mut self, byte: u8) {
        if self.head != Head::Nothing && self.before.push(byte).is_err() {
            self.knows_head = false;
        }
        if byte == b'\n' {
            self.end_line(true);
        } else {
            self.held.push(byte);
        }
    }

    /// The line that is being read has come to its end, with a line feed or without.
    fn end_line(&mut self, has_feed: bool) {
        let line = match self.held.as_slice() {
            [rest @ .., b'\r'] if has_feed => rest,
            line => line,
        };
        if self.head == Head::Nothing {
            self.number = self.number.saturating_add(1);
            let asked = asked_of(self.script, line);
            self.remember(asked);
        } else if ends_head(self.head, line) {
            self.end_head();
        }
        self.lines_before = self.before.len();
        self.held.clear();
    }

    /// The head has come to its end. The line behind settings is none of them.
    fn end_head(&mut self) {
        if self.head == Head::Settings {
            self.before.truncate(self.lines_before);
        }
        self.head = Head::Nothing;
    }

    /// The line of the number that was counted last waits, where it asks for something.
    fn remember(&mut self, asked: Option<Asked>) {
        let Some(asked) = asked else {
            return;
        };
        let line = Line {
            number: self.number,
            asked,
        };
        if self.lines.push_back(line).is_err() {
            self.knows_lines = false;
        }
    }

    /// A datagram came in a turn of this number. Its line alone waits now.
    pub(crate) fn turn(&mut self, number: u64, datagram: &[u8]) {
        let line = match datagram {
            [rest @ .., b'\r', b'\n'] | [rest @ .., b'\n'] => rest,
            _ => datagram,
        };
        self.lines.clear();
        self.knows_lines = true;
        self.number = number;
        self.remember(asked_of(self.script, line));
    }

    /// The first line that waits, which waits no more. None where there was no memory for a line.
    pub(crate) fn next(&mut self) -> Option<Line> {
        let line = self.lines.pop_front()?;
        if self.knows_lines {
            return Some(line);
        }
        None
    }

    /// The line of this number, if it waits. It and those before it wait no more.
    pub(crate) fn up_to(&mut self, number: u64) -> Option<Line> {
        for _ in 0..self.lines.len() {
            if self.lines.front()?.number > number {
                return None;
            }
            let line = self.next()?;
            if line.number == number {
                return Some(line);
            }
        }
        None
    }
}

/// Whether this is the last line of such a head.
fn ends_head(head: Head, line: &[u8]) -> bool {
    match head {
        Head::SavedBook => match first_word(line) {
            Some((word, _)) => is_word(word, b"end"),
            None => false,
        },
        Head::Settings => is_word(line, b"---"),
        Head::Nothing | Head::SettingsAlone => false,
    }
}
