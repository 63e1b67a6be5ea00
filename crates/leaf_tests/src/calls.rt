// Which call of a reader or a writer fails, how output is gathered, and readers and writers of the standard library.
ghost use Rattle.std.specs.Prelude.{◌≤◌, length};

use std::alloc::Global;
use std::io::Cursor;
use std::test::Fail;
use test_asserts::{equal, equal_at, holds};
use text_lines::{
    HeldLine, InFault, MemoryIn, MemoryOut, NextLine, ReadAhead, StdIn, StdOut, TextLine,
    WriteBehind, write_all,
};

/// The last fault of three calls for a line, and how many calls of the reader failed.
fn faults(fails_at: u64) -> (Option<InFault>, u64) {
    let mut reader = MemoryIn::failing(b"one\ntwo\n", 3, fails_at);
    let mut ahead = ReadAhead::new();
    let mut line = HeldLine::new();
    let mut fault = None;
    for _ in 0..3 {
        if let Err(found) = ahead.next_line(&mut reader, &mut line) {
            fault = Some(found);
        }
    }
    (fault, reader.failed)
}

#[test]
fn the_read_that_fails_is_told() -> Result<(), Fail> {
    for fails_at in 1..5 {
        equal_at(&fails_at, &faults(fails_at), &(Some(InFault::Read), 1))?;
    }
    // Without a failure there are four calls.
    equal(&faults(5), &(None, 0))?;
    Ok(())
}

/// Whether a write of six bytes in steps of two fails, how many calls failed, and how many bytes were taken.
fn written(rt: &impl AllocGlobal, fails_at: u64) -> (bool, u64, u64) {
    let mut writer = MemoryOut::failing(rt.alloc(), 2, fails_at);
    let is_refused = write_all(&mut writer, b"abcdef").is_err();
    (is_refused, writer.failed, writer.bytes.len() as u64)
}

#[test]
fn the_write_that_fails_is_told(rt: HostRuntime) -> Result<(), Fail> {
    for fails_at in 1..4 {
        equal(&written(&rt, fails_at), &(true, 1, 2 * (fails_at - 1)))?;
    }
    Ok(())
}

/// A writer that took 500 lines of 28 bytes.
fn gathered(rt: &impl AllocGlobal) -> Result<MemoryOut<Global>, Fail> {
    let mut writer = MemoryOut::new(rt.alloc());
    let mut behind = WriteBehind::new();
    let mut text = TextLine::new();
    for number in 0..500u64 {
        text.clear();
        text.text(b"number ");
        text.number(number + 18_446_744_073_709_551_000);
        text.text(b"\n");
        behind.put(&mut writer, text.as_slice())?;
    }
    behind.flush(&mut writer)?;
    Ok(writer)
}

#[test]
fn output_is_gathered(rt: HostRuntime) -> Result<(), Fail> {
    let writer = gathered(&rt)?;
    equal(&writer.bytes.len(), &(500 * 28))?;
    holds(writer.bytes.starts_with(b"number 18446744073709551000\n"))?;
    // One call for 4,096 bytes or more, and one for the rest.
    equal(&writer.calls, &4)?;
    Ok(())
}

/// How many calls a writer has had once so many bytes were put and not flushed.
fn calls_of(rt: &impl AllocGlobal, bytes: &[u8]) -> Result<u64, Fail>
    requires { length bytes.now ≤ 4096 }
{
    let mut writer = MemoryOut::new(rt.alloc());
    WriteBehind::new().put(&mut writer, bytes)?;
    Ok(writer.calls)
}

#[test]
fn output_is_written_from_4096_bytes_on(rt: HostRuntime) -> Result<(), Fail> {
    equal(&calls_of(&rt, &[b'x'; 4_095])?, &0)?;
    equal(&calls_of(&rt, &[b'x'; 4_096])?, &1)?;
    Ok(())
}

/// Whether a reader of the standard library gives one line, and no byte behind it.
fn is_read() -> Result<bool, Fail> {
    let mut reader = StdIn::new(Cursor::new(b"a b\n".as_slice()));
    let mut ahead = ReadAhead::new();
    let mut line = HeldLine::new();
    let found = ahead.next_line(&mut reader, &mut line)?;
    let is_line = line.as_slice() == b"a b".as_slice();
    let is_end = ahead.next_byte(&mut reader)?.is_none();
    Ok(found == NextLine::Whole && is_line && is_end && reader.failed == 0)
}

/// Whether a writer of the standard library takes a line, and one without room for it fails once.
fn is_written(rt: &impl AllocGlobal) -> Result<bool, Fail> {
    let mut writer = StdOut::new(Vec::new(rt.alloc()));
    write_all(&mut writer, b"a b")?;
    let mut room = [0u8; 2];
    let mut full = StdOut::new(room.as_mut_slice());
    let is_refused = write_all(&mut full, b"abc").is_err();
    Ok(writer.writer.as_slice() == b"a b".as_slice() && is_refused && full.failed == 1)
}

#[test]
fn readers_and_writers_of_std_serve(rt: HostRuntime) -> Result<(), Fail> {
    holds(is_read()?)?;
    holds(is_written(&rt)?)?;
    Ok(())
}
