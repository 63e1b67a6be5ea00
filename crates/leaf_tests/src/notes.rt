// Notes beside answers: what is told of some lines, and what a reader and a writer that are watched hand on.

use answer_notes::{Head, NoteSink, NoteText, Notes, Script, WatchedIn, WatchedOut, Watcher};
use refusing_alloc::{MOST_GROWTHS, Refuser, Refusing};
use std::alloc::Allocator;
use std::cell::RefCell;
use std::test::Fail;
use test_asserts::{equal, equal_at, holds};
use text_lines::{ByteIn, ByteOut, CallFailed, MemoryIn, MemoryOut};

/// Counts the notes that it is told, and keeps how long the last one is.
#[derive(Drop)]
struct Told<'a> {
    told: &'a RefCell<(u64, usize)>,
}

impl NoteSink for Told<'_> {
    fn tell(&mut self, note: &NoteText) {
        if let Ok(mut told) = self.told.try_borrow_mut() {
            *told = (told.0.saturating_add(1), note.as_slice().len());
        }
    }
}

/// Lines of a book behind a saved one, and what is answered to them: two refusals, one of them behind a comment.
static BOOK: (&[u8], &[u8]) = (
    b"airbook 2\ngateway 1 4096 0 0\nend 0\nbook 1 0 868700000 5 12\n# none\nbook 2 0 868100000 5 12\ncancel 3 0",
    b"no 1 NoBand\nok 2 0 41216\nno 3 Begun\nbooked 41216\n",
);

/// Events of a run behind settings, and what is answered to them: two refusals, and one uplink that was never closed.
static RUN: (&[u8], &[u8]) = (
    b"[[gateway]]\nid = 1\n---\r\nhear 1 0 868100000 5 0 0 0 @c:26011bda:7\npass 1\ntick 2 0\nhello\n",
    b"opened 1\nno tick UnknownGateway\nbad 4 Syntax\nanswered 0 unanswered 0 silent 0\n",
);

/// How many notes are told of such a text, and how long the last one is.
fn notes_of<A: Allocator + Copy>(
    alloc: A,
    script: Script,
    head: Head,
    text: (&[u8], &[u8]),
) -> (u64, usize) {
    let told = RefCell::new((0, 0));
    let mut notes = Notes::new(alloc, script, head, Told { told: &told });
    notes.read(text.0);
    notes.read(&[]);
    notes.written(text.1);
    notes.finish();
    match told.try_borrow() {
        Ok(told) => *told,
        Err(_) => (0, 0),
    }
}

#[test]
fn notes_of_refusals_alone(rt: HostRuntime) -> Result<(), Fail> {
    let (book, _) = notes_of(rt.alloc(), Script::Book, Head::SavedBook, BOOK);
    equal(&book, &2)?;
    let (run, len) = notes_of(rt.alloc(), Script::Run, Head::Settings, RUN);
    equal(&run, &3)?;
    holds(len > 40)
}

/// What is longer than a note may be is cut off, and what is no printable character is told as `?`.
#[test]
fn notes_are_short_lines(_rt: HostRuntime) -> Result<(), Fail> {
    let note = NoteText::of("one\ntwo");
    equal(&note.as_slice(), &b"note: one?two".as_slice())?;
    let long = NoteText::of(format_args!("{:>500}", 1));
    equal(&long.as_slice().len(), &400)
}

/// What a call of a reader or a writer answers.
type Answered = Result<usize, CallFailed>;

/// What three reads answer of a reader that is watched.
fn three_reads<R: ByteIn, O: Watcher>(
    reader: &mut R,
    watcher: &RefCell<O>,
) -> (Answered, Answered, Answered) {
    let mut into = [0; 8];
    let mut input = WatchedIn { reader, watcher };
    let first = input.read(&mut into);
    let second = input.read(&mut into);
    let third = input.read(&mut into);
    let WatchedIn {
        reader: _reader,
        watcher: _watcher,
    } = input;
    (first, second, third)
}

/// What two writes answer of a writer that is watched.
fn two_writes<W: ByteOut, O: Watcher>(
    writer: &mut W,
    watcher: &RefCell<O>,
) -> (Answered, Answered) {
    let mut output = WatchedOut { writer, watcher };
    let first = output.write(b"bad");
    let second = output.write(b"d");
    let WatchedOut {
        writer: _writer,
        watcher: _watcher,
    } = output;
    (first, second)
}

#[test]
fn watched_calls_are_those_alone(rt: HostRuntime) -> Result<(), Fail> {
    let told = RefCell::new((0, 0));
    let notes = Notes::new(
        rt.alloc(),
        Script::Book,
        Head::Nothing,
        Told { told: &told },
    );
    let notes = RefCell::new(notes);
    let mut reader = MemoryIn::failing(b"book 1 2\n", 5, 2);
    equal(
        &three_reads(&mut reader, &notes),
        &(Ok(5), Err(CallFailed), Ok(4)),
    )?;
    equal(&reader.failed, &1)?;
    let mut writer = MemoryOut::failing(rt.alloc(), 2, 2);
    equal(&two_writes(&mut writer, &notes), &(Ok(2), Err(CallFailed)))?;
    equal(&writer.bytes.as_slice(), &b"ba".as_slice())
}

/// Without memory for a line notes are left out, and none is told of another line in its place.
fn each_is_left_out(alloc: &Refuser, whole: u64) -> Result<(), Fail> {
    for number in 1..MOST_GROWTHS {
        alloc.refuse_from(number);
        let (told, _) = notes_of(alloc, Script::Book, Head::SavedBook, BOOK);
        let asked = alloc.asked();
        alloc.grant();
        if asked < number {
            return equal(&told, &whole);
        }
        equal_at(&number, &(told == 0 || told == whole), &true)?;
    }
    Err(Fail::from("no end of growths"))
}

// Notes ask for 1 growth for the lines that wait, and by size for what the input begins with.
#[test]
fn growths_of_notes(rt: HostRuntime) -> Result<(), Fail> {
    each_is_left_out(&Refusing::new(rt.alloc()), 2)
}
