// Worked lines of an input.
use std::test::Fail;
use test_asserts::{equal, equal_at, holds_at};
use text_lines::{HeldLine, MemoryIn, NextLine, ReadAhead, is_passed_over, is_too_long};

// The lines of an input that is read `step` bytes at a time, each ended by `|`, `$` for the last one without a line
// feed.
fn shown(rt: &impl AllocGlobal, input: &[u8], step: usize) -> Result<Vec<u8>, Fail> {
    let mut reader = MemoryIn::failing(input, step, 0);
    let mut ahead = ReadAhead::new();
    let mut line = HeldLine::new();
    let mut all = Vec::new(rt.alloc());
    for _ in 0..1000 {
        let found = ahead.next_line(&mut reader, &mut line)?;
        all.extend_from_slice(line.as_slice())?;
        match found {
            NextLine::Whole => all.push(b'|')?,
            NextLine::Last => all.push(b'$')?,
            NextLine::End => break,
        }
    }
    Ok(all)
}

/// An input, and its lines as `shown` writes them.
static LINES: [(&[u8], &[u8]); 9] = [
    (b"", b""),
    (b"\n", b"|"),
    (b"a", b"a$"),
    (b"a\n", b"a|"),
    (b"a\n\nb", b"a||b$"),
    (b"a\r\nb\r", b"a|b\r$"),
    (b"a\r\r\n", b"a\r|"),
    (b"\r\n", b"|"),
    (b"\xff\x00\n", b"\xff\x00|"),
];

/// Fails where an input that is read `step` bytes at a time has other lines.
fn are_found(rt: &impl AllocGlobal, step: usize) -> Result<(), Fail> {
    for (input, want) in &LINES {
        equal(&shown(rt, input, step)?.as_slice(), want)?;
    }
    Ok(())
}

#[test]
fn lines_are_found(rt: HostRuntime) -> Result<(), Fail> {
    are_found(&rt, 1)?;
    are_found(&rt, 2)?;
    are_found(&rt, 4096)
}

/// A line of so many bytes, and one behind it.
fn long_input(rt: &impl AllocGlobal, len: usize) -> Result<Vec<u8>, Fail> {
    let mut input = vec![in rt.alloc(); b'a'; len]?;
    input.extend_from_slice(b"\r\nb")?;
    Ok(input)
}

/// Whether the first line of an input is told to be too long, and whether it is passed over.
fn first_is_told(input: &[u8]) -> Result<(bool, bool), Fail> {
    let mut reader = MemoryIn::new(input);
    let mut ahead = ReadAhead::new();
    let mut line = HeldLine::new();
    ahead.next_line(&mut reader, &mut line)?;
    Ok((
        is_too_long(line.as_slice()),
        is_passed_over(line.as_slice()),
    ))
}

/// How long a line is, and whether that is too long.
static LENGTHS: [(usize, bool); 4] = [(1023, false), (1024, false), (1025, true), (5000, true)];

#[test]
fn long_lines_are_told(rt: HostRuntime) -> Result<(), Fail> {
    for (len, long) in &LENGTHS {
        let input = long_input(&rt, *len)?;
        equal_at(len, &first_is_told(input.as_slice())?, &(*long, false))?;
        holds_at(len, shown(&rt, input.as_slice(), 4096)?.ends_with(b"|b$"))?;
    }
    Ok(())
}

#[test]
fn bytes_read_ahead_are_taken() -> Result<(), Fail> {
    let mut reader = MemoryIn::failing(b"abcde", 4, 0);
    let mut ahead = ReadAhead::new();
    let mut into = [b'-'; 3];
    equal(&ahead.take_into(&mut into), &0)?;
    ahead.refill(&mut reader)?;
    equal(&ahead.take_into(&mut into), &3)?;
    equal(&into.as_slice(), &b"abc".as_slice())?;
    equal(&ahead.take_into(&mut into), &1)?;
    equal(&into.as_slice(), &b"dbc".as_slice())?;
    Ok(())
}
