// Worked turns: which datagrams are answered, and by which lines; and what is left where a call of the writer fails.
use crate::datagrams::Datagrams;
use airbook_text::{Settings, TextFault, listen_text, read_settings};
use std::alloc::Global;
use std::hash::{BuildHasherDefault, FoldHasher};
use std::sync::Wait;
use std::test::Fail;
use std::thread::Threads;
use test_asserts::{equal, equal_at, holds_at};
use text_lines::MemoryOut;

pub(crate) const SETTINGS: &str =
    "[[gateway]]\nid = 1\n[[gateway]]\nid = 2\n[[device]]\naddr = \"26011bda\"\n\
     nwkskey = \"2b7e151628aed2a6abf7158809cf4f3c\"\nappskey = \"000102030405060708090a0b0c0d0e0f\"\n";

/// A confirmed uplink that two gateways hear, one that is to be made, and a receive that fails.
pub(crate) static TURNS: [Option<&[u8]>; 6] = [
    Some(b"hear 1 5000000 868100000 5 55 -90 1000 80da1b012600070009c89141"),
    Some(b"hear 2 9000000 868100000 5 55 -80 1100 80da1b012600070009c89141\n"),
    Some(b"pass 201000"),
    Some(b"pass 201001"),
    Some(b"hear 1 5000000 868100000 5 0 -100 0 @u:26011bda:8"),
    None,
];

const ANSWERED: &[u8] =
    b"opened 1\njoined 1 2\nsend 1 2 RX1 10000000 868100000 5 12\nframe 1 60da1b0126200000240347ca\nbad 5 Syntax\n\
      bad 6 Read\ngateway 1 booked 0 cancelled 0 retired 0 kept 0\n\
      gateway 2 booked 41216 cancelled 0 retired 0 kept 1\nbusiest 2 M 10000000 41216\n\
      answered 1 unanswered 0 silent 0\n";

/// The report where nothing was booked.
const NOTHING_BOOKED: &[u8] =
    b"gateway 1 booked 0 cancelled 0 retired 0 kept 0\ngateway 2 booked 0 cancelled 0 retired 0 kept 0\n\
      answered 0 unanswered 0 silent 0\n";

/// What was answered, how many receives were made, and what a writer took of whom call number `fails_at` fails.
#[derive(Drop)]
struct Heard {
    answered: Result<bool, TextFault>,
    receives: u64,
    failed: u64,
    output: Vec<u8>,
}

/// Listens to datagrams for so many turns.
fn listened<R: Threads + Wait + Sync>(
    rt: &R,
    alloc: Global,
    given: &[Option<&[u8]>],
    workers: u8,
    turns: u32,
    fails_at: u64,
) -> Result<Heard, Fail> {
    let settings = read_settings(alloc, SETTINGS)?;
    let hasher: BuildHasherDefault<FoldHasher> = BuildHasherDefault::new();
    let mut source = Datagrams::new(given);
    let mut writer = MemoryOut::failing(alloc, 16, fails_at);
    let answered = listen_text(
        rt,
        alloc,
        hasher,
        &settings,
        workers,
        &mut source,
        turns,
        &mut writer,
    );
    Ok(Heard {
        answered,
        receives: source.receives,
        failed: writer.failed,
        output: writer.bytes,
    })
}

#[test]
fn turns_are_answered_and_reported(rt: HostRuntime) -> Result<(), Fail> {
    let all = listened(&rt, rt.alloc(), &TURNS, 1, 6, 0)?;
    equal(&all.answered, &Ok(true))?;
    equal(&all.receives, &6)?;
    equal(&all.output.as_slice(), &ANSWERED)?;
    Ok(())
}

/// How many writes of at most 16 bytes the answers take, each turn's by itself: 1, 1, 5, 1 and 1, and 10 for the report.
const WRITES: u64 = 19;

#[test]
fn each_write_fails_in_turn(rt: HostRuntime) -> Result<(), Fail> {
    for write in 1..WRITES + 1 {
        let part = listened(&rt, rt.alloc(), &TURNS, 2, 6, write)?;
        equal_at(&write, &part.answered, &Err(TextFault::Write))?;
        equal_at(&write, &part.failed, &1)?;
        holds_at(&write, ANSWERED.starts_with(part.output.as_slice()))?;
    }
    Ok(())
}

/// How many workers and turns, and which of the two is refused.
static REFUSED: [(u8, u32, &str); 4] = [
    (0, 6, "Workers"),
    (17, 0, "Workers"),
    (1, 0, "Turns"),
    (16, 1_000_001, "Turns"),
];

#[test]
fn workers_and_turns_are_refused_before_anything_is_received(rt: HostRuntime) -> Result<(), Fail> {
    for (workers, turns, name) in &REFUSED {
        let none = listened(&rt, rt.alloc(), &TURNS, *workers, *turns, 0)?;
        equal(&none.answered, &Err(TextFault::Settings(name)))?;
        equal(&none.receives, &0)?;
        equal(&none.output.len(), &0)?;
    }
    Ok(())
}

/// As many turns as there may be are begun: the first answer can't be written.
#[test]
fn a_million_turns_are_not_refused(rt: HostRuntime) -> Result<(), Fail> {
    let begun = listened(&rt, rt.alloc(), &TURNS, 16, 1_000_000, 1)?;
    equal(&begun.answered, &Err(TextFault::Write))?;
    equal(&begun.receives, &1)
}

/// What is answered to one datagram, its report left out.
fn answer_to<R: Threads + Wait + Sync>(
    rt: &R,
    alloc: Global,
    datagram: &[u8],
) -> Result<Vec<u8>, Fail> {
    let one = listened(rt, alloc, &[Some(datagram)], 1, 1, 0)?;
    let mut output = one.output;
    let answer = output.len().saturating_sub(NOTHING_BOOKED.len());
    output.truncate(answer);
    Ok(output)
}

/// A datagram, and what is answered to it.
static DATAGRAMS: [(&[u8], &[u8]); 15] = [
    (b"", b""),
    (b"\n", b""),
    (b"\r\n", b""),
    (b" \t", b""),
    (b"# cancel 1", b""),
    (b"cancel 1", b"no cancel 1 NotHere\n"),
    (b"cancel 1\n", b"no cancel 1 NotHere\n"),
    (b"cancel 1\r\n", b"no cancel 1 NotHere\n"),
    (b"cancel 1\r", b"bad 1 Syntax\n"),
    (b"\r", b"bad 1 Syntax\n"),
    (b"cancel 1\n\n", b"bad 1 Syntax\n"),
    (b"\ncancel 1", b"bad 1 Syntax\n"),
    (b"# cancel 1\ncancel 1", b"bad 1 Syntax\n"),
    (b"cancel @", b"bad 1 Syntax\n"),
    (b"x", b"bad 1 Syntax\n"),
];

#[test]
fn a_datagram_is_one_line(rt: HostRuntime) -> Result<(), Fail> {
    for (datagram, answer) in &DATAGRAMS {
        equal_at(
            datagram,
            &answer_to(&rt, rt.alloc(), datagram)?.as_slice(),
            answer,
        )?;
    }
    Ok(())
}

/// A line of so many bytes, blanks behind `cancel 1`, and its end.
fn long_line(alloc: Global, len: usize, end: &[u8]) -> Result<Vec<u8>, Fail> {
    let mut line = Vec::new(alloc);
    line.extend_from_slice(b"cancel 1")?;
    line.resize(len, b' ')?;
    line.extend_from_slice(end)?;
    Ok(line)
}

/// How long a line is, its end, and what is answered to it.
static LONG: [(usize, &[u8], &[u8]); 10] = [
    (1024, b"", b"no cancel 1 NotHere\n"),
    (1024, b"\n", b"no cancel 1 NotHere\n"),
    (1024, b"\r\n", b"no cancel 1 NotHere\n"),
    (1024, b"\r\ncancel 1", b"bad 1 Syntax\n"),
    (1025, b"", b"bad 1 Syntax\n"),
    (1025, b"\n", b"bad 1 Syntax\n"),
    (1025, b"\r\n", b"bad 1 Syntax\n"),
    (1026, b"", b"bad 1 Syntax\n"),
    (1027, b"", b"bad 1 Syntax\n"),
    (1500, b"", b"bad 1 Syntax\n"),
];

#[test]
fn a_datagram_that_fills_its_room_is_malformed(rt: HostRuntime) -> Result<(), Fail> {
    for (len, end, answer) in &LONG {
        let line = long_line(rt.alloc(), *len, end)?;
        let got = answer_to(&rt, rt.alloc(), line.as_slice())?;
        equal_at(&(*len, end.len()), &got.as_slice(), answer)?;
    }
    Ok(())
}
