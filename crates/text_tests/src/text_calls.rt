// The text calls as values, each over a reader and a writer in memory of which one call may fail.
use airbook_text::{TextFault, book_text, plan_text, run_text};
use std::alloc::Global;
use std::hash::{BuildHasherDefault, FoldHasher};
use std::sync::Wait;
use std::thread::Threads;
use text_lines::{MemoryIn, MemoryOut};

/// How many bytes a call of the reader or the writer moves at most.
pub(crate) const STEP: usize = 8;

/// A text call.
#[derive(Clone, Copy, Debug)]
pub(crate) enum Call {
    Book { is_resumed: bool, is_saved: bool },
    Plan,
    Run { workers: u8 },
}

/// The two calls that fail, each by its number; none where it is 0.
#[derive(Clone, Copy, Debug)]
pub(crate) struct Failing {
    pub(crate) read: u64,
    pub(crate) write: u64,
}

/// What a text call answered, how many calls of the reader and of the writer failed, and what was written.
#[derive(Drop)]
pub(crate) struct Told {
    pub(crate) answer: Result<bool, TextFault>,
    pub(crate) failed: (u64, u64),
    pub(crate) output: Vec<u8>,
}

/// What a call answers and writes.
pub(crate) fn answer_to<R: Threads + Wait + Sync>(
    rt: &R,
    alloc: Global,
    call: Call,
    input: &[u8],
    failing: Failing,
) -> Told {
    match call {
        Call::Book {
            is_resumed,
            is_saved,
        } => booked(alloc, is_resumed, is_saved, input, failing),
        Call::Plan => planned(alloc, input, failing),
        Call::Run { workers } => run(rt, alloc, workers, input, failing),
    }
}

/// A book's text.
fn booked(alloc: Global, is_resumed: bool, is_saved: bool, input: &[u8], failing: Failing) -> Told {
    let mut reader = MemoryIn::failing(input, STEP, failing.read);
    let mut writer = MemoryOut::failing(alloc, STEP, failing.write);
    let answer = book_text(
        alloc,
        4_096,
        0,
        is_resumed,
        is_saved,
        &mut reader,
        &mut writer,
    );
    Told {
        answer,
        failed: (reader.failed, writer.failed),
        output: writer.bytes,
    }
}

/// A book's text with a plan.
fn planned(alloc: Global, input: &[u8], failing: Failing) -> Told {
    let mut reader = MemoryIn::failing(input, STEP, failing.read);
    let mut writer = MemoryOut::failing(alloc, STEP, failing.write);
    let answer = plan_text(alloc, 4_096, 0, &mut reader, &mut writer);
    Told {
        answer,
        failed: (reader.failed, writer.failed),
        output: writer.bytes,
    }
}

/// A run's text.
fn run<R: Threads + Wait + Sync>(
    rt: &R,
    alloc: Global,
    workers: u8,
    input: &[u8],
    failing: Failing,
) -> Told {
    let hasher: BuildHasherDefault<FoldHasher> = BuildHasherDefault::new();
    let mut reader = MemoryIn::failing(input, STEP, failing.read);
    let mut writer = MemoryOut::failing(alloc, STEP, failing.write);
    let answer = run_text(rt, alloc, hasher, workers, &mut reader, &mut writer);
    Told {
        answer,
        failed: (reader.failed, writer.failed),
        output: writer.bytes,
    }
}
