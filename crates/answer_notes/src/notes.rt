// Notes on the lines that are refused.
use crate::asked::{Asked, Script};
use crate::note_text::NoteText;
use crate::reason::{Reason, refusal_of_book};
use crate::run_reason::{
    why_no_answer, why_no_frame, why_not_cancelled, why_not_heard, why_not_queued,
};
use crate::waiting::{Head, Line, Waiting};
use crate::watched::Watcher;
use std::alloc::Allocator;
use std::{fmt, str};
use text_lines::{HeldLine, Words, is_word, number_u64};

/// Who is told notes. Where one can't be told, it is passed over.
pub trait NoteSink {
    /// Tells a note, as a line of its own.
    fn tell(&mut self, note: &NoteText);
}

/// Reads an input and its output along, and tells a note for each line that is refused. Without memory notes are left out.
#[derive(Drop)]
pub struct Notes<A: Allocator, S> {
    waiting: Waiting<A>,
    /// The line of the output that is being written.
    answer: HeldLine,
    /// How many uplinks were opened and not yet closed.
    open: u64,
    sink: S,
}

/// A note on a refusal, with what it is about where that is known.
#[derive(Drop)]
struct Note {
    line: Option<u64>,
    gateway: Option<u16>,
    device: Option<u32>,
    reason: Reason,
}

impl fmt::Display for Note {
    fn fmt<W: fmt::Write>(&self, f: &mut fmt::Formatter<W>) -> fmt::Result {
        if let Some(line) = self.line {
            write!(f, "line {line}: ")?;
        }
        if let Some(gateway) = self.gateway {
            write!(f, "gateway {gateway}: ")?;
        }
        if let Some(device) = self.device {
            write!(f, "device {device:08x}: ")?;
        }
        let reason = self.reason;
        write!(f, "{reason}")
    }
}

impl<A: Allocator + Copy, S: NoteSink> Notes<A, S> {
    /// Nothing is read or written yet. The input begins with `head`, and its lines are about `script`.
    pub fn new(alloc: A, script: Script, head: Head, sink: S) -> Self {
        Notes {
            waiting: Waiting::new(alloc, script, head),
            answer: HeldLine::new(),
            open: 0,
            sink,
        }
    }
}

impl<A: Allocator, S: NoteSink> Notes<A, S> {
    /// The saved book or the settings that the input begins with, as far as they were read; None where there was no memory for
    /// them.
    pub fn head(&self) -> Option<&[u8]> {
        self.waiting.head()
    }

    /// A datagram came in a turn of this number, and is the line that is answered next.
    pub fn turn(&mut self, number: u64, datagram: &[u8]) {
        self.waiting.turn(number, datagram);
    }

    /// Tells something else.
    pub fn tell<D: fmt::Display + Drop>(&mut self, what: D) {
        let note = NoteText::of(what);
        self.sink.tell(&note);
    }

    /// Tells how many uplinks were never closed, if some were not. The output has come to its end.
    pub fn finish(&mut self) {
        let open = self.open;
        if open > 0 {
            self.tell(Reason::StillOpen { open });
        }
    }

    /// A line of the output is whole.
    fn answered(&mut self) {
        let note = note_on(&mut self.waiting, &mut self.open, self.answer.as_slice());
        self.answer.clear();
        if let Some(note) = note {
            self.tell(note);
        }
    }
}

impl<A: Allocator, S: NoteSink> Watcher for Notes<A, S> {
    fn read(&mut self, bytes: &[u8]) {
        self.waiting.read(bytes);
    }

    fn written(&mut self, bytes: &[u8]) {
        for byte in bytes {
            if *byte == b'\n' {
                self.answered();
            } else {
                self.answer.push(*byte);
            }
        }
    }
}

/// The note on a line of the output, if it is a refusal. The line of the input that it answers waits no more.
fn note_on<A: Allocator>(waiting: &mut Waiting<A>, open: &mut u64, answer: &[u8]) -> Option<Note> {
    let words = Words::of(answer);
    match words.as_slice() {
        [first, number, name] if is_word(first, b"bad") => {
            let number = number_u64(number)?;
            Some(note_on_bad_line(waiting.up_to(number), waiting.script(), number, name))
        }
        words => match waiting.script() {
            Script::Book => note_of_book(waiting, words),
            Script::Run => note_of_run(waiting, open, words),
        },
    }
}

/// The note on a line that could not be read.
fn note_on_bad_line(line: Option<Line>, script: Script, number: u64, name: &[u8]) -> Note {
    let why = match line {
        _ if is_word(name, b"Read") => "nothing was received",
        Some(
            Line {
                asked: Asked::Malformed(wanted),
                ..
            },
        ) => wanted.words(),
        Some(_) => "no such line may stand here",
        None => match script {
            Script::Book => "a line begins with book, cancel, tick or earliest",
            Script::Run => "a line begins with queue, hear, pass, tick or cancel",
        },
    };
    Note {
        line: Some(number),
        gateway: None,
        device: None,
        reason: Reason::Plain(why),
    }
}

/// The note on a line of the output of a book.
fn note_of_book<A: Allocator>(waiting: &mut Waiting<A>, words: &[&[u8]]) -> Option<Note> {
    let line = waiting.next()?;
    match words {
        [first, words @ ..] if is_word(first, b"no") => Some(Note {
            line: Some(line.number),
            gateway: None,
            device: None,
            reason: refusal_of_book(line.asked, words)?,
        }),
        _ => None,
    }
}

/// The note on a line of the output of a run.
fn note_of_run<A: Allocator>(
    waiting: &mut Waiting<A>,
    open: &mut u64,
    words: &[&[u8]],
) -> Option<Note> {
    let (first, words) = words.split_first()?;
    match str::from_utf8(*first).ok()? {
        "no" => note_on_refusal(waiting, open, words),
        "opened" => {
            *open = open.saturating_add(1);
            waiting.next();
            None
        }
        "joined" | "queued" | "floor" | "cancelled" => {
            waiting.next();
            None
        }
        "silent" | "send" | "unanswered" => {
            *open = open.saturating_sub(1);
            None
        }
        _ => None,
    }
}

/// The note on a refusal of a run, by the words behind `no`.
fn note_on_refusal<A: Allocator>(
    waiting: &mut Waiting<A>,
    open: &mut u64,
    words: &[&[u8]],
) -> Option<Note> {
    let (first, rest) = words.split_first()?;
    let name = str::from_utf8(*rest.last()?).ok()?;
    if let Some(number) = number_u64(first) {
        *open = open.saturating_sub(1);
        let why = why_no_answer(name)?;
        return Some(Note {
            line: None,
            gateway: None,
            device: None,
            reason: Reason::Uplink { number, why },
        });
    }
    let line = waiting.next()?;
    refusal_of_run(line, name, rest)
}

/// The note on a line of a run that was refused by this name.
fn refusal_of_run(line: Line, name: &str, rest: &[&[u8]]) -> Option<Note> {
    let mut note = Note {
        line: Some(line.number),
        gateway: None,
        device: None,
        reason: Reason::Plain(""),
    };
    match line.asked {
        Asked::Queue { device } => {
            note.device = Some(device);
            note.reason = Reason::Plain(why_not_queued(name)?);
        }
        Asked::Hear { gateway, device } => {
            note.gateway = Some(gateway);
            match why_no_frame(name) {
                Some(why) => note.reason = Reason::Plain(why),
                None => {
                    note.device = device;
                    note.reason = Reason::Plain(why_not_heard(name)?);
                }
            }
        }
        Asked::Clock { gateway } => {
            note.gateway = Some(gateway);
            note.reason = Reason::Plain(why_not_heard(name)?);
        }
        _ => {
            let number = number_u64(*rest.first()?)?;
            let why = why_not_cancelled(name)?;
            note.reason = Reason::Uplink { number, why };
        }
    }
    Some(note)
}
