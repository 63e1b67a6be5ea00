// Runs and listening with notes, and standard error, to which notes are told.
use airbook_text::{Source, TextFault, run_text};
use answer_notes::{Head, NoteSink, NoteText, Notes, Script, WatchedIn, WatchedOut, Watcher};
use noted_texts::settings_fault;
use std::alloc::Global;
use std::cell::RefCell;
use std::fmt::Display;
use std::hash::BuildHasher;
use std::str;
use std::sync::Wait;
use std::thread::Threads;
use text_lines::{ByteIn, ByteOut};

/// Standard error, to which notes are told.
#[derive(Drop)]
pub struct ErrorStream<'a, R> {
    pub rt: &'a R,
}

impl<R: Eprint> NoteSink for ErrorStream<'_, R> {
    fn tell(&mut self, note: &NoteText) {
        // Whoever can't be told a note has the answers all the same.
        if let Ok(text) = str::from_utf8(note.as_slice()) {
            tell_line(self.rt, text);
        }
    }
}

/// Tells a line on standard error. Where that fails it is passed over.
pub fn tell_line<R: Eprint, D: Display + Drop>(rt: &R, line: D) {
    let _ = rt.eprintln(line);
}

/// The text of `run`, with notes.
pub fn noted_run<
    R: AllocGlobal + Threads + Wait + Sync,
    H: BuildHasher + Clone + Drop + Send + Sync,
    I: ByteIn,
    W: ByteOut,
    S: NoteSink + Drop,
>(
    rt: &R,
    hasher: H,
    workers: u8,
    reader: &mut I,
    writer: &mut W,
    sink: S,
) -> Result<bool, TextFault>
where
    H::Hasher: Send + Sync,
{
    let notes = RefCell::new(Notes::new(rt.alloc(), Script::Run, Head::Settings, sink));
    let answered = watched_run(rt, hasher, workers, reader, writer, &notes);
    tell_end(rt.alloc(), &notes, answered);
    answered
}

/// The text of `run`, while another looks on.
fn watched_run<
    R: AllocGlobal + Threads + Wait + Sync,
    H: BuildHasher + Clone + Drop + Send + Sync,
    I: ByteIn,
    W: ByteOut,
    O: Watcher,
>(
    rt: &R,
    hasher: H,
    workers: u8,
    reader: &mut I,
    writer: &mut W,
    watcher: &RefCell<O>,
) -> Result<bool, TextFault>
where
    H::Hasher: Send + Sync,
{
    let mut input = WatchedIn { reader, watcher };
    let mut output = WatchedOut { writer, watcher };
    let answered = run_text(rt, rt.alloc(), hasher, workers, &mut input, &mut output);
    let WatchedIn {
        reader: _reader,
        watcher: _watcher,
    } = input;
    let WatchedOut {
        writer: _writer,
        watcher: _same_watcher,
    } = output;
    answered
}

/// Tells how many uplinks were never closed, or what is wrong with the settings.
pub fn tell_end<S: NoteSink>(
    alloc: Global,
    notes: &RefCell<Notes<Global, S>>,
    answered: Result<bool, TextFault>,
) {
    let Ok(mut notes) = notes.try_borrow_mut() else {
        return;
    };
    match answered {
        Ok(_) => notes.finish(),
        Err(TextFault::Settings(name)) => {
            let fault = match notes.head() {
                Some(text) => settings_fault(alloc, text, name),
                None => None,
            };
            if let Some(fault) = fault {
                notes.tell(fault);
            }
        }
        Err(_) => {}
    }
}

/// Datagrams of which notes are told.
pub struct NotedSource<'a, S, N> {
    pub source: &'a mut S,
    pub notes: &'a RefCell<Notes<Global, N>>,
    /// How many receives were made, up to 2^64 - 1.
    pub turn: u64,
}

impl<S: Source, N: NoteSink> Source for NotedSource<'_, S, N> {
    ghost seen = { λ s. S.seen s.source.now };

    fn next(&mut self, into: &mut [u8]) -> Option<usize> {
        self.turn = self.turn.saturating_add(1);
        match self.source.next(into) {
            None => None,
            Some(count) => {
                if let Ok(mut notes) = self.notes.try_borrow_mut() {
                    notes.turn(self.turn, &into[..count]);
                }
                Some(count)
            }
        }
    }
}
