// Events as lines.

use answer_ticket::Bytes;
use event_lines::{NoMemory, event_line};
use refusing_alloc::{MOST_GROWTHS, Refuser, Refusing};
use server_core::{Event, Heard1};
use std::alloc::{Allocator, Global};
use std::test::Fail;
use test_asserts::{equal, equal_at};

/// A copy of an uplink that was heard below the noise.
const HEARD: Heard1 = Heard1 {
    gateway: 2,
    at: 1_100,
    freq_hz: 868_100_000,
    rate: 5,
    snr: -55,
    rssi: -80,
};

/// An event of each kind, and its line.
fn worked(alloc: Global) -> Result<[(Event<Global>, &'static str); 6], NoMemory> {
    let uplink = Bytes::new(Vec::from_slice(alloc, &[0x80, 0xda, 0x1b])?);
    Ok([
        (
            Event::Hear {
                bytes: uplink,
                heard: HEARD,
                arrived: 1_200,
            },
            "hear 2 1100 868100000 5 -55 -80 1200 80da1b",
        ),
        (
            Event::Queue {
                addr: 0x2601_1bda,
                port: 9,
                payload: Bytes::new(Vec::new(alloc)),
            },
            "queue 26011bda 9 -",
        ),
        (
            Event::Tick {
                gateway: 1,
                now: 601_001,
            },
            "tick 1 601001",
        ),
        (Event::Pass { now: 201_001 }, "pass 201001"),
        (Event::Cancel { number: 7 }, "cancel 7"),
        (Event::Bad { line: 3 }, ""),
    ])
}

/// Whether the line of an event is this one.
fn is_line<B: Allocator + Copy>(
    alloc: B,
    event: &Event<Global>,
    wanted: &str,
) -> Result<bool, NoMemory> {
    Ok(event_line(alloc, event)?.as_str() == wanted)
}

#[test]
fn events_are_written_as_lines(rt: HostRuntime) -> Result<(), Fail> {
    for (place, (event, wanted)) in worked(rt.alloc())?.iter().enumerate() {
        equal_at(&place, &is_line(rt.alloc(), event, wanted), &Ok(true))?;
    }
    Ok(())
}

/// Whether there is no line where the growth of any number is refused that is asked for.
fn each_is_refused(alloc: &Refuser, event: &Event<Global>, wanted: &str) -> Result<(), Fail> {
    for number in 1..MOST_GROWTHS {
        alloc.refuse(number);
        let written = is_line(alloc, event, wanted);
        let asked = alloc.asked();
        alloc.grant();
        if asked < number {
            return equal(&written, &Ok(true));
        }
        equal_at(&number, &written.is_err(), &true)?;
    }
    Err(Fail::from("no end of growths"))
}

// Refuses `event_lines` `event_line`: at most 3 for its words, and those of the line, by its length.
#[test]
fn growths_of_lines(rt: HostRuntime) -> Result<(), Fail> {
    let events = worked(rt.alloc())?;
    for (event, wanted) in events.iter() {
        each_is_refused(&Refusing::new(rt.alloc()), event, wanted)?;
    }
    Ok(())
}
