// Which fault each failing call of a reader and a writer gives, and that what was written then is a front of the output.
use crate::text_calls::{Call, Failing, STEP, Told, answer_to};
use crate::turns::SETTINGS;
use crate::worked_texts::{
    ANSWERED, BOOKED, BOOKED_AND_SAVED, BOOKINGS, COPIES, PLAN, PLANNED, RESUMED, SAVED,
    SAVED_AGAIN,
};
use airbook_text::{TextFault, read_whole_settings, toa_text};
use std::alloc::Global;
use std::sync::Wait;
use std::test::Fail;
use std::thread::Threads;
use test_asserts::{equal, equal_at, holds_at};
use text_lines::{MemoryIn, MemoryOut};

/// A call, its input, and what is written.
type Row = (Call, &'static [u8], &'static [u8]);

static BOOKS: [Row; 4] = [
    (
        Call::Book {
            is_resumed: false,
            is_saved: false,
        },
        BOOKINGS,
        BOOKED,
    ),
    (
        Call::Book {
            is_resumed: false,
            is_saved: true,
        },
        BOOKINGS,
        BOOKED_AND_SAVED,
    ),
    (
        Call::Book {
            is_resumed: true,
            is_saved: false,
        },
        SAVED,
        RESUMED,
    ),
    (
        Call::Book {
            is_resumed: true,
            is_saved: true,
        },
        SAVED,
        SAVED_AGAIN,
    ),
];

static PLANS: [Row; 1] = [(Call::Plan, PLAN, PLANNED)];

static RUNS: [Row; 3] = [
    (Call::Run { workers: 0 }, COPIES, ANSWERED),
    (Call::Run { workers: 1 }, COPIES, ANSWERED),
    // The answers are made in memory first: 90 bytes, and then 160 of a report.
    (Call::Run { workers: 2 }, COPIES, ANSWERED),
];

/// How often a reader of this input is called: until it gives nothing.
fn reads_of(input: &[u8]) -> u64 {
    (input.len().div_ceil(STEP) as u64).saturating_add(1)
}

/// How often a writer is called at least that takes all of this.
fn writes_of(whole: &[u8]) -> u64 {
    whole.len().div_ceil(STEP) as u64
}

/// More writes than any of these calls makes.
const MANY_WRITES: u64 = 100;

/// Whether all was written, and no call failed.
fn is_whole(told: &Told, whole: &[u8]) -> bool {
    told.answer == Ok(false) && told.failed == (0, 0) && told.output.as_slice() == whole
}

/// Whether this fault was answered for one failed call, and a front of the output was written.
fn is_stopped(told: &Told, fault: TextFault, failed: (u64, u64), whole: &[u8]) -> bool {
    told.answer == Err(fault) && told.failed == failed && whole.starts_with(told.output.as_slice())
}

/// Has each read of these calls fail in turn.
fn fail_reads<R: Threads + Wait + Sync>(rt: &R, alloc: Global, rows: &[Row]) -> Result<(), Fail> {
    for (call, input, whole) in rows {
        for read in 1..=reads_of(input) {
            let told = answer_to(rt, alloc, *call, input, Failing { read, write: 0 });
            holds_at(
                &(call, read),
                is_stopped(&told, TextFault::Read, (1, 0), whole),
            )?;
        }
    }
    Ok(())
}

/// Has each write of these calls fail in turn, until one makes no more of them.
fn fail_writes<R: Threads + Wait + Sync>(rt: &R, alloc: Global, rows: &[Row]) -> Result<(), Fail> {
    for (call, input, whole) in rows {
        let mut made = 0;
        for write in 1..=MANY_WRITES {
            let told = answer_to(rt, alloc, *call, input, Failing { read: 0, write });
            if is_whole(&told, whole) {
                break;
            }
            made = write;
            holds_at(
                &(call, write),
                is_stopped(&told, TextFault::Write, (0, 1), whole),
            )?;
        }
        holds_at(call, (writes_of(whole)..MANY_WRITES).contains(&made))?;
    }
    Ok(())
}

/// No more calls than these are made, and then all is written.
fn fail_none<R: Threads + Wait + Sync>(rt: &R, alloc: Global, rows: &[Row]) -> Result<(), Fail> {
    for (call, input, whole) in rows {
        let failing = Failing {
            read: reads_of(input).saturating_add(1),
            write: MANY_WRITES,
        };
        let told = answer_to(rt, alloc, *call, input, failing);
        holds_at(&call, is_whole(&told, whole))?;
    }
    Ok(())
}

#[test]
fn each_call_of_a_books_text_fails_in_turn(rt: HostRuntime) -> Result<(), Fail> {
    fail_reads(&rt, rt.alloc(), &BOOKS)?;
    fail_writes(&rt, rt.alloc(), &BOOKS)?;
    fail_none(&rt, rt.alloc(), &BOOKS)?;
    Ok(())
}

#[test]
fn each_call_of_a_plans_text_fails_in_turn(rt: HostRuntime) -> Result<(), Fail> {
    fail_reads(&rt, rt.alloc(), &PLANS)?;
    fail_writes(&rt, rt.alloc(), &PLANS)?;
    fail_none(&rt, rt.alloc(), &PLANS)?;
    Ok(())
}

#[test]
fn each_call_of_a_runs_text_fails_in_turn(rt: HostRuntime) -> Result<(), Fail> {
    fail_reads(&rt, rt.alloc(), &RUNS)?;
    fail_writes(&rt, rt.alloc(), &RUNS)?;
    fail_none(&rt, rt.alloc(), &RUNS)?;
    Ok(())
}

const TIME_ON_AIR: &[u8] = b"41216\n";

/// A time on air, of which each byte is written by a call of its own: what is answered, how many calls failed, and what was
/// written, where the call of this number fails.
fn time_on_air(alloc: Global, fails_at: u64) -> (Result<bool, TextFault>, u64, Vec<u8>) {
    let mut writer = MemoryOut::failing(alloc, 1, fails_at);
    let answer = toa_text(5, 12, &mut writer);
    (answer, writer.failed, writer.bytes)
}

#[test]
fn each_write_of_a_time_on_air_fails_in_turn(rt: HostRuntime) -> Result<(), Fail> {
    for before in 0..TIME_ON_AIR.len() {
        let (answer, failed, output) = time_on_air(rt.alloc(), before as u64 + 1);
        equal_at(&before, &(answer, failed), &(Err(TextFault::Write), 1))?;
        equal_at(&before, &output.as_slice(), &&TIME_ON_AIR[..before])?;
    }
    let (answer, failed, output) = time_on_air(rt.alloc(), TIME_ON_AIR.len() as u64 + 1);
    equal(&(answer, failed), &(Ok(false), 0))?;
    equal(&output.as_slice(), &TIME_ON_AIR)
}

/// What is answered to settings where the read of this number fails, by the fault, and how many reads failed.
fn settings_read(alloc: Global, fails_at: u64) -> (Option<TextFault>, u64) {
    let mut reader = MemoryIn::failing(SETTINGS.as_bytes(), STEP, fails_at);
    let fault = read_whole_settings(alloc, &mut reader).err();
    (fault, reader.failed)
}

#[test]
fn each_read_of_settings_fails_in_turn(rt: HostRuntime) -> Result<(), Fail> {
    let reads = reads_of(SETTINGS.as_bytes());
    for read in 1..=reads {
        equal_at(
            &read,
            &settings_read(rt.alloc(), read),
            &(Some(TextFault::Read), 1),
        )?;
    }
    equal(
        &settings_read(rt.alloc(), reads.saturating_add(1)),
        &(None, 0),
    )
}
