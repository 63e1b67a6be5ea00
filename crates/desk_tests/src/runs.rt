// What `airbook run` doesn't print of a run: its steps, the events that its lines answer, and its books.

use answer_ticket::Bytes;
use gateway_book::Refusal;
use rx_windows::{Candidate, Window};
use server_core::{
    DataRate, DeskHeard, DeviceSetting, Entry, Event, Heard1, Line, Replay, Step, replay,
};
use std::alloc::{Allocator, Global};
use std::test::Fail;
use test_asserts::{equal, equal_at, holds};
use worked_inputs::{ADDR, COPY, device, hasher, settings_of, uplink};

/// What a line says.
#[derive(Clone, Copy, Debug, PartialEq, Eq)]
pub(crate) enum Told {
    Queued(u32, usize),
    Heard(DeskHeard),
    Send(u64, Candidate),
    /// A frame of so many bytes that begins with these eight.
    Frame(u64, usize, Option<[u8; 8]>),
    Unanswered(u64, Refusal),
    Cancelled(u64, u64),
    NotCancelled(u64),
    Floor(u16, u64),
    Bad(u64),
    Other,
}

/// The place of an event, and what a line that answers it says.
pub(crate) type Row = (usize, Told);

/// What the events come to at gateways 1 and 2 with these devices.
fn replayed(
    alloc: Global,
    devices: &[DeviceSetting],
    events: &[Event<Global>],
) -> Result<Replay<Global>, Fail> {
    let settings = settings_of(alloc, devices)?;
    Ok(replay(alloc, hasher(), &settings, events)?)
}

/// A copy of the confirmed uplink with this counter of the device with this address.
fn heard(
    alloc: Global,
    addr: u32,
    counter: u32,
    heard: Heard1,
    arrived: u64,
) -> Result<Event<Global>, Fail> {
    let bytes = Bytes::new(uplink(alloc, true, addr, counter)?);
    Ok(Event::Hear {
        bytes,
        heard,
        arrived,
    })
}

/// Compares the lines of a run, each with the place of its event.
pub(crate) fn tells<A: Allocator>(outcomes: &[Entry<A>], lines: &[Row]) -> Result<(), Fail> {
    equal(&outcomes.len(), &lines.len())?;
    for (place, (entry, line)) in outcomes.iter().zip(lines).enumerate() {
        equal_at(&place, &(entry.event, what_is_told(&entry.line)), line)?;
    }
    Ok(())
}

fn what_is_told<A: Allocator>(line: &Line<A>) -> Told {
    match line {
        Line::Queued { addr, count } => Told::Queued(*addr, *count),
        Line::Heard(heard) => Told::Heard(*heard),
        Line::Send { number, candidate } => Told::Send(*number, *candidate),
        Line::Frame { number, bytes } => frame_told(*number, bytes.as_slice()),
        Line::Unanswered { number, refusal } => Told::Unanswered(*number, *refusal),
        Line::Cancelled { number, airtime } => Told::Cancelled(*number, *airtime),
        Line::NotCancelled { number, .. } => Told::NotCancelled(*number),
        Line::Floor { gateway, floor } => Told::Floor(*gateway, *floor),
        Line::Bad { line } => Told::Bad(*line),
        _ => Told::Other,
    }
}

/// How long a frame is, and how it begins.
fn frame_told(number: u64, bytes: &[u8]) -> Told {
    Told::Frame(number, bytes.len(), bytes.first_chunk().copied())
}

/// The candidate in RX1 of gateway 1, for 12 bytes.
pub(crate) const IN_RX1: Candidate = Candidate {
    gateway: 1,
    window: Window::Rx1,
    start: 6_000_000,
    freq_hz: 868_100_000,
    rate: DataRate::Dr5,
    len: 12,
    carries: false,
};

const IN_RX2: Candidate = Candidate {
    gateway: 1,
    window: Window::Rx2,
    start: 7_000_000,
    freq_hz: 869_525_000,
    rate: DataRate::Dr0,
    len: 12,
    carries: false,
};

const IN_RX1_ELSEWHERE: Candidate = Candidate {
    gateway: 2,
    window: Window::Rx1,
    start: 10_000_000,
    freq_hz: 868_100_000,
    rate: DataRate::Dr5,
    len: 12,
    carries: false,
};

/// The second copy of the uplink, which gateway 2 heard better.
const BETTER: Heard1 = Heard1 {
    gateway: 2,
    at: 9_000_000,
    freq_hz: 868_100_000,
    rate: 5,
    snr: 0,
    rssi: -80,
};

/// Two gateways hear one uplink, the second better; it is answered, and the answer is cancelled.
fn heard_twice(alloc: Global) -> Result<Replay<Global>, Fail> {
    let events = [
        heard(alloc, ADDR, 7, COPY, 1_000)?,
        heard(alloc, ADDR, 7, BETTER, 1_100)?,
        Event::Pass { now: 201_000 },
        Event::Pass { now: 201_001 },
        Event::Cancel { number: 1 },
        Event::Cancel { number: 2 },
    ];
    replayed(alloc, &[device(ADDR)], &events)
}

static HEARD_TWICE: [Row; 6] = [
    (
        0,
        Told::Heard(DeskHeard::Opened {
            n: 1,
            repeat: false,
        }),
    ),
    (1, Told::Heard(DeskHeard::Joined { n: 1, copies: 2 })),
    (3, Told::Send(1, IN_RX1_ELSEWHERE)),
    (
        3,
        Told::Frame(1, 12, Some([0x60, 0xda, 0x1b, 0x01, 0x26, 0x20, 0, 0])),
    ),
    (4, Told::Cancelled(1, 41_216)),
    (5, Told::NotCancelled(2)),
];

#[test]
fn answers_on_the_gateway_that_heard_better(rt: HostRuntime) -> Result<(), Fail> {
    let replay = heard_twice(rt.alloc())?;
    tells(&replay.outcomes, &HEARD_TWICE)?;
    Ok(())
}

/// The totals of the book at this place: what was booked, and what was cancelled, in microseconds.
fn totals(replay: &Replay<Global>, place: usize) -> Option<(u64, u64)> {
    let totals = replay.books.get(place)?.totals();
    Some((totals.booked, totals.cancelled))
}

#[test]
fn keeps_its_steps_and_its_books(rt: HostRuntime) -> Result<(), Fail> {
    let replay = heard_twice(rt.alloc())?;
    equal(&replay.steps.len(), &10)?;
    holds(matches!(replay.steps.get(7), Some(Step::Pass { now: 201_001 })))?;
    equal(&totals(&replay, 0), &Some((0, 0)))?;
    equal(&totals(&replay, 1), &Some((41_216, 41_216)))?;
    Ok(())
}

/// Three devices are heard by one gateway at once, and are answered together.
fn heard_at_once(alloc: Global) -> Result<Replay<Global>, Fail> {
    let events = [
        heard(alloc, 0xa, 0, COPY, 0)?,
        heard(alloc, 0xb, 0, COPY, 10)?,
        heard(alloc, 0xc, 0, COPY, 20)?,
        Event::Pass { now: 300_000 },
    ];
    replayed(alloc, &[device(0xa), device(0xb), device(0xc)], &events)
}

static HEARD_AT_ONCE: [Row; 8] = [
    (
        0,
        Told::Heard(DeskHeard::Opened {
            n: 1,
            repeat: false,
        }),
    ),
    (
        1,
        Told::Heard(DeskHeard::Opened {
            n: 2,
            repeat: false,
        }),
    ),
    (
        2,
        Told::Heard(DeskHeard::Opened {
            n: 3,
            repeat: false,
        }),
    ),
    (3, Told::Send(1, IN_RX1)),
    (
        3,
        Told::Frame(1, 12, Some([0x60, 0x0a, 0, 0, 0, 0x20, 0, 0])),
    ),
    (3, Told::Send(2, IN_RX2)),
    (
        3,
        Told::Frame(2, 12, Some([0x60, 0x0b, 0, 0, 0, 0x20, 0, 0])),
    ),
    (3, Told::Unanswered(3, Refusal::Taken { start: 7_000_000 })),
];

#[test]
fn answers_as_many_as_there_are_windows(rt: HostRuntime) -> Result<(), Fail> {
    let replay = heard_at_once(rt.alloc())?;
    equal(&replay.steps.len(), &18)?;
    // The first is answered before the second is closed.
    holds(matches!(replay.steps.get(6), Some(Step::Settle { number: 1 })))?;
    holds(matches!(replay.steps.get(7), Some(Step::Pass { now: 300_000 })))?;
    tells(&replay.outcomes, &HEARD_AT_ONCE)?;
    Ok(())
}
