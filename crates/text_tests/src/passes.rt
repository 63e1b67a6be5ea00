// The answers of one `pass` with workers that no run brings about at will: what the workers skip is answered by the calling
// thread, and all where none could work; and the lines of answers that hardly ever come.
ghost use Rattle.std.specs.Prelude.{◌≡◌, IfOk};

use airbook_text::{Settings, read_settings};
use answer_ticket::{Ending, Outcome};
use gateway_book::Refusal;
use run_lines::{events_from, write_lines};
use run_server::{Answer, Answered, Told, answer_with_workers, answers};
use server_core::{Book, DeskFault, Entry, Event, Line, NoMemory, TakeFault};
use server_workers::{Blank, Filed, Ledger, PARTS, ServeCause, Station, Till};
use std::alloc::Global;
use std::hash::{BuildHasherDefault, FoldHasher};
use std::marker::Brand;
use std::sync::Wait;
use std::test::Fail;
use std::thread::Threads;
use test_asserts::{equal, holds};
use text_lines::MemoryOut;

type TestStation<B> = Station<B, BuildHasherDefault<FoldHasher>>;

const SETTINGS: &str =
    "[[gateway]]\nid = 1\n[[device]]\naddr = \"0000000a\"\nnwkskey = \"2b7e151628aed2a6abf7158809cf4f3c\"\n\
     appskey = \"000102030405060708090a0b0c0d0e0f\"\n[[device]]\naddr = \"0000000b\"\n\
     nwkskey = \"2b7e151628aed2a6abf7158809cf4f3c\"\nappskey = \"000102030405060708090a0b0c0d0e0f\"\n[[device]]\n\
     addr = \"0000000c\"\nnwkskey = \"2b7e151628aed2a6abf7158809cf4f3c\"\n\
     appskey = \"000102030405060708090a0b0c0d0e0f\"\n[[device]]\naddr = \"26011bda\"\n\
     nwkskey = \"2b7e151628aed2a6abf7158809cf4f3c\"\nappskey = \"000102030405060708090a0b0c0d0e0f\"\n";

/// Three devices are heard until the same moment.
const AT_ONCE: &[u8] =
    b"hear 1 5000000 868100000 5 0 -100 0 @c:0000000a:0\nhear 1 5000000 868100000 5 0 -100 10 @c:0000000b:0\n\
      hear 1 5000000 868100000 5 0 -100 20 @c:0000000c:0\n";

/// One device is heard twice.
const TWICE: &[u8] =
    b"hear 1 5000000 868100000 5 0 -100 0 @c:26011bda:0\nhear 1 15000000 868100000 5 0 -100 10 @c:26011bda:1\n";

/// The answer to its second uplink while the ticket of its first is out.
const ENGAGED: &[u8] = b"no 2 Engaged\nanswered 0 unanswered 0 silent 0\n";

/// The answer to it once that ticket was settled. Frames here are as the model in tests/lorawan.py writes them.
const SENT_LATER: &[u8] =
    b"send 2 1 RX1 16000000 868100000 5 12\nframe 2 60da1b01262001002e22e36b\nanswered 1 unanswered 0 silent 0\n";

/// The answers to the three devices.
const ANSWERED_HERE: &[u8] =
    b"send 1 1 RX1 6000000 868100000 5 12\nframe 1 600a00000020000087c940f9\nsend 2 1 RX2 7000000 869525000 0 12\n\
      frame 2 600b0000002000000b784269\nunanswered 3 Taken\nanswered 2 unanswered 1 silent 0\n";

/// The answer to the first of them, twice.
const TOLD_TWICE: &[u8] =
    b"send 1 1 RX1 6000000 868100000 5 12\nframe 1 600a00000020000087c940f9\nsend 1 1 RX1 6000000 868100000 5 12\n\
      frame 1 600a00000020000087c940f9\nanswered 2 unanswered 0 silent 0\n";

/// What is told of an answer that was given up, of two that got no ticket, and of a stray.
const RARE: &[u8] =
    b"unanswered 1 NoMemory\nno 2 NoMemory\nsilent 3\nno 4 Stray\nno 5 NotReady\nno 6 Taken\nunanswered 7 TotalsFull\n\
      answered 0 unanswered 2 silent 1\n";

/// Whether a line begins with `no`, and the text.
type Text = (bool, Vec<u8>);

/// A station that heard these copies and closed their gatherings, and the till with all parts of its ledger.
fn station_that_heard<B: Ledger, R: Threads + Wait + Sync>(
    rt: &R,
    alloc: Global,
    copies: &[u8],
    blank: Blank,
) -> Result<(TestStation<B>, Till<B>), Fail>
    requires name { blank.name ≡ B.name }
    requires parts { blank.parts ≡ B.parts }
    requires all { blank.parts ≡ PARTS }
    ensures { IfOk result (λ made. made.1.parts ≡ PARTS) }
{
    let settings = read_settings(alloc, SETTINGS)?;
    let (station, till) = Station::new(alloc, BuildHasherDefault::new(), &settings, blank)?;
    hear_all(rt, alloc, &station, &settings, copies)?;
    Ok((station, till))
}

/// Has a station hear these copies and close their gatherings.
fn hear_all<B: Ledger, R: Threads + Wait + Sync>(
    rt: &R,
    alloc: Global,
    station: &TestStation<B>,
    settings: &Settings<Global>,
    copies: &[u8],
) -> Result<(), Fail> {
    let events = events_from(alloc, settings.devices(), 1, copies)?;
    for event in events.as_slice() {
        if let Event::Hear {
            bytes,
            heard,
            arrived,
        } = event
        {
            station.hear(rt, bytes.as_slice(), *heard, *arrived)?;
        }
    }
    for _ in 0..events.len() {
        station.pass(rt, 300_000).ok_or("one more is due")?;
    }
    Ok(())
}

/// The text of some answers, and of their counts.
fn text_of(alloc: Global, answers: Vec<Answer>) -> Result<Text, Fail> {
    let mut entries = Vec::new(alloc);
    for answer in answers {
        let Answer {
            number,
            line,
            frame,
        } = answer;
        entries.push(Entry { event: 0, line })?;
        if let Some(bytes) = frame {
            let line = Line::Frame { number, bytes };
            entries.push(Entry { event: 0, line })?;
        }
    }
    written(alloc, entries.as_slice())
}

/// The text of some entries, and of their counts.
fn written(alloc: Global, entries: &[Entry<Global>]) -> Result<Text, Fail> {
    let books: Vec<Book<Global>> = Vec::new(alloc);
    let mut writer = MemoryOut::new(alloc);
    let refused = write_lines(entries, books.as_slice(), &mut writer)?;
    Ok((refused, writer.bytes))
}

/// The text of what is told of a `pass`, and the numbers of what was booked.
fn pass_text(alloc: Global, told: Result<Told, NoMemory>) -> Result<(Text, Vec<u64>), Fail> {
    let Told { answers, booked } = told?;
    let mut numbers = Vec::new(alloc);
    for receipt in booked {
        numbers.push(receipt.number)?;
    }
    Ok((text_of(alloc, answers)?, numbers))
}

/// What is told of a device's second uplink while the ticket of its first is out, and what once that is settled.
fn held<B: Ledger + Send + Sync, R: Threads + Wait + Sync>(
    rt: &R,
    alloc: Global,
    blank: Blank,
) -> Result<(Text, (Text, Vec<u64>)), Fail>
    requires name { blank.name ≡ B.name }
    requires parts { blank.parts ≡ B.parts }
    requires all { blank.parts ≡ PARTS }
{
    let (station, till) = station_that_heard::<B, R>(rt, alloc, TWICE, blank)?;
    let ticket = station.take(rt, 1)?;
    let before = answer_with_workers(rt, alloc, &station, &[2], till, 1);
    let mut till = before.till;
    if let Err(stub) = station.settle(rt, ticket.give_up(), &mut till) {
        stub.end();
    }
    let after = answer_with_workers(rt, alloc, &station, &[2], till, 1);
    let (text, _) = pass_text(alloc, before.told)?;
    Ok((text, pass_text(alloc, after.told)?))
}

/// How many of so many workers are started for the numbers 1 to `last`, of which the first three are uplinks that were heard, and
/// what is told of all.
fn answered<B: Ledger + Send + Sync, R: Threads + Wait + Sync>(
    rt: &R,
    alloc: Global,
    workers: u8,
    last: u64,
    blank: Blank,
) -> Result<(Result<u8, ServeCause>, Text), Fail>
    requires name { blank.name ≡ B.name }
    requires parts { blank.parts ≡ B.parts }
    requires all { blank.parts ≡ PARTS }
{
    let (station, till) = station_that_heard::<B, R>(rt, alloc, AT_ONCE, blank)?;
    let mut numbers = Vec::new(alloc);
    for number in 1..=last {
        numbers.push(number)?;
    }
    let Answered { till: _, ran, told } = answer_with_workers(
        rt,
        alloc,
        &station,
        numbers.as_slice(),
        till,
        workers,
    );
    let (text, _) = pass_text(alloc, told)?;
    Ok((ran, text))
}

/// What is told of an uplink whose number stands twice.
fn told_twice<B: Ledger + Send + Sync, R: Threads + Wait + Sync>(
    rt: &R,
    alloc: Global,
    blank: Blank,
) -> Result<Text, Fail>
    requires name { blank.name ≡ B.name }
    requires parts { blank.parts ≡ B.parts }
    requires all { blank.parts ≡ PARTS }
{
    let (station, till) = station_that_heard::<B, R>(rt, alloc, AT_ONCE, blank)?;
    let answered = answer_with_workers(rt, alloc, &station, &[1, 1], till, 1);
    let (text, _) = pass_text(alloc, answered.told)?;
    Ok(text)
}

#[test]
fn what_is_skipped_is_answered_once_more(rt: HostRuntime) -> Result<(), Fail> {
    let (before, after) = held::<Brand, _>(&rt, rt.alloc(), Blank::new(PARTS as u64))?;
    let (later, booked) = after;
    holds(before.0)?;
    equal(&before.1.as_slice(), &ENGAGED)?;
    holds(!later.0)?;
    equal(&later.1.as_slice(), &SENT_LATER)?;
    equal(&booked.as_slice(), &[2].as_slice())?;
    Ok(())
}

#[test]
fn calling_thread_answers_where_nobody_works(rt: HostRuntime) -> Result<(), Fail> {
    let blank = Blank::new(PARTS as u64);
    let (ran, (refused, text)) = answered::<Brand, _>(&rt, rt.alloc(), 17, 3, blank)?;
    equal(&ran, &Err(ServeCause::Workers))?;
    holds(!refused)?;
    equal(&text.as_slice(), &ANSWERED_HERE)?;
    Ok(())
}

#[test]
fn number_that_stands_twice_has_its_answer_twice(rt: HostRuntime) -> Result<(), Fail> {
    let (refused, text) = told_twice::<Brand, _>(&rt, rt.alloc(), Blank::new(PARTS as u64))?;
    holds(!refused)?;
    equal(&text.as_slice(), &TOLD_TWICE)?;
    Ok(())
}

/// How many workers there may be, the last number, and how many are started.
static STARTS: [(u8, u64, u8); 8] = [
    (2, 600, 2),
    (16, 600, 16),
    (16, 31, 1),
    (16, 32, 2),
    (16, 63, 2),
    (16, 64, 3),
    (16, 3, 1),
    (1, 3, 1),
];

#[test]
fn as_many_workers_start_as_there_is_work_for(rt: HostRuntime) -> Result<(), Fail> {
    for (workers, last, wanted) in &STARTS {
        let blank = Blank::new(PARTS as u64);
        let (ran, _) = answered::<Brand, _>(&rt, rt.alloc(), *workers, *last, blank)?;
        equal(&ran, &Ok(*wanted))?;
    }
    Ok(())
}

/// How seven uplinks ended, of which no run tells some so.
fn rare_ends(alloc: Global) -> Result<Filed, Fail> {
    let mut ends = Filed::none(alloc);
    ends.strays.push(4)?;
    for refused in [
        (6, TakeFault::Taken),
        (5, TakeFault::NotReady),
        (3, TakeFault::Silent),
        (2, TakeFault::NoMemory),
    ] {
        ends.refused.push(refused)?;
    }
    for (number, result) in [
        (7, Ending::Unanswered(Refusal::TotalsFull)),
        (1, Ending::GivenUp),
    ] {
        ends.outcomes.push(Outcome { number, result })?;
    }
    Ok(ends)
}

#[test]
fn rare_answers_are_told(rt: HostRuntime) -> Result<(), Fail> {
    let mut ends = rare_ends(rt.alloc())?;
    ends.sort();
    let answers = answers(rt.alloc(), &mut ends, &[1, 2, 3, 4, 5, 6, 7])?;
    let (refused, text) = text_of(rt.alloc(), answers)?;
    holds(refused)?;
    equal(&text.as_slice(), &RARE)
}

/// No run hears as many copies of an uplink by as many gateways as a desk has no room for.
#[test]
fn a_copy_that_is_one_too_many_is_told(rt: HostRuntime) -> Result<(), Fail> {
    let line = Line::NotHeard(DeskFault::TooManyCopies);
    let (refused, text) = written(rt.alloc(), &[Entry { event: 0, line }])?;
    holds(refused)?;
    equal(
        &text.as_slice(),
        &b"no hear TooManyCopies\nanswered 0 unanswered 0 silent 0\n".as_slice(),
    )
}
