// The texts of a book and of a plan, with notes: the calls of the texts alone, on a reader and a writer that are watched.

use crate::faults::saved_book_fault;
use answer_notes::{Head, NoteSink, Notes, Script, WatchedIn, WatchedOut, Watcher};
use book_texts::{book_text, plan_text};
use std::alloc::Global;
use std::cell::RefCell;
use text_lines::{ByteIn, ByteOut};
use text_words::TextFault;

/// What `book_text` does, with a note for each line that is refused. Where the input does not begin with a saved book, a note tells
/// the line that is at fault. The answer, what is read and what is written are those of `book_text`.
pub fn noted_book<R: ByteIn, W: ByteOut, S: NoteSink + Drop>(
    alloc: Global,
    cap: u32,
    gap: u32,
    resume: bool,
    save: bool,
    reader: &mut R,
    writer: &mut W,
    sink: S,
) -> Result<bool, TextFault> {
    let head = if resume {
        Head::SavedBook
    } else {
        Head::Nothing
    };
    let notes = RefCell::new(Notes::new(alloc, Script::Book, head, sink));
    let answered = watched_book(alloc, cap, gap, resume, save, reader, writer, &notes);
    if resume && answered.is_err() {
        tell_saved_book_fault(alloc, &notes);
    }
    answered
}

/// What `book_text` does, while another looks on.
fn watched_book<R: ByteIn, W: ByteOut, O: Watcher>(
    alloc: Global,
    cap: u32,
    gap: u32,
    resume: bool,
    save: bool,
    reader: &mut R,
    writer: &mut W,
    watcher: &RefCell<O>,
) -> Result<bool, TextFault> {
    let mut input = WatchedIn { reader, watcher };
    let mut output = WatchedOut { writer, watcher };
    let answered = book_text(alloc, cap, gap, resume, save, &mut input, &mut output);
    let WatchedIn {
        reader: _reader,
        watcher: _watcher,
    } = input;
    let WatchedOut {
        writer: _writer,
        watcher: _same_watcher,
    } = output;
    answered
}

/// Tells what is wrong with the saved book that was read, if something is.
fn tell_saved_book_fault<S: NoteSink>(alloc: Global, notes: &RefCell<Notes<Global, S>>) {
    let Ok(mut notes) = notes.try_borrow_mut() else {
        return;
    };
    let fault = match notes.head() {
        Some(text) => saved_book_fault(alloc, text),
        None => None,
    };
    if let Some(fault) = fault {
        notes.tell(fault);
    }
}

/// What `plan_text` does, with a note for each line that is refused. The answer, what is read and what is written are those of
/// `plan_text`.
pub fn noted_plan<R: ByteIn, W: ByteOut, S: NoteSink + Drop>(
    alloc: Global,
    cap: u32,
    gap: u32,
    reader: &mut R,
    writer: &mut W,
    sink: S,
) -> Result<bool, TextFault> {
    let notes = RefCell::new(Notes::new(alloc, Script::Book, Head::Nothing, sink));
    watched_plan(alloc, cap, gap, reader, writer, &notes)
}

/// What `plan_text` does, while another looks on.
fn watched_plan<R: ByteIn, W: ByteOut, O: Watcher>(
    alloc: Global,
    cap: u32,
    gap: u32,
    reader: &mut R,
    writer: &mut W,
    watcher: &RefCell<O>,
) -> Result<bool, TextFault> {
    let mut input = WatchedIn { reader, watcher };
    let mut output = WatchedOut { writer, watcher };
    let answered = plan_text(alloc, cap, gap, &mut input, &mut output);
    let WatchedIn {
        reader: _reader,
        watcher: _watcher,
    } = input;
    let WatchedOut {
        writer: _writer,
        watcher: _same_watcher,
    } = output;
    answered
}
