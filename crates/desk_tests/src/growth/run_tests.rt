// A run of events on one thread.

use crate::runs::{IN_RX1, Row, Told, tells};
use answer_ticket::Bytes;
use refusing_alloc::{Call, Refused, Refuser, Refusing, growths_of, refuse, same, was_refused};
use rx_windows::Candidate;
use server_core::{
    DeskHeard, Entry, Event, NoMemory, Server, Settings, USUAL_LIMITS, empty_books, replay,
};
use std::alloc::{Allocator, Global};
use std::test::Fail;
use test_asserts::holds;
use worked_inputs::{copy_at, device, hasher, settings_of, uplink};

/// The address of the device.
const ADDR: u32 = 1;

/// The first uplink is answered with three bytes of payload, 16 bytes in all.
const WITH_PAYLOAD: Candidate = Candidate {
    len: 16,
    carries: true,
    ..IN_RX1
};

/// Two uplinks of a device, of which the first is answered with a payload on the gateway that heard it alone, and then
/// cancelled: the place of each event, and what a line that answers it says.
static LINES: [Row; 11] = [
    (0, Told::Queued(ADDR, 1)),
    (
        1,
        Told::Heard(DeskHeard::Opened {
            n: 1,
            repeat: false,
        }),
    ),
    (2, Told::Send(1, WITH_PAYLOAD)),
    (2, Told::Frame(1, 16, Some([0x60, 1, 0, 0, 0, 0x20, 0, 0]))),
    (3, Told::Cancelled(1, 46_336)),
    (4, Told::Floor(2, 7)),
    (
        5,
        Told::Heard(DeskHeard::Opened {
            n: 2,
            repeat: false,
        }),
    ),
    (6, Told::Heard(DeskHeard::Joined { n: 2, copies: 2 })),
    (7, Told::Send(2, IN_RX1)),
    (7, Told::Frame(2, 12, Some([0x60, 1, 0, 0, 0, 0x20, 1, 0]))),
    (8, Told::Bad(9)),
];

/// The event at this place, of those that these lines answer.
fn event<A: Allocator + Copy>(memory: Global, alloc: A, place: usize) -> Result<Event<A>, Fail> {
    match place {
        0 => Ok(Event::Queue {
            addr: ADDR,
            port: 9,
            payload: Bytes::new([1, 2, 3].to_vec(alloc)?),
        }),
        1 => copied(memory, alloc, (1, 0, 0)),
        2 => Ok(Event::Pass { now: 200_001 }),
        3 => Ok(Event::Cancel { number: 1 }),
        4 => Ok(Event::Tick { gateway: 2, now: 7 }),
        5 => copied(memory, alloc, (1, 1, 300_000)),
        6 => copied(memory, alloc, (2, 1, 300_000)),
        7 => Ok(Event::Pass { now: 600_000 }),
        _ => Ok(Event::Bad { line: 9 }),
    }
}

/// A gateway's copy of the device's confirmed uplink with a counter, and when it arrived.
fn copied<A: Allocator>(memory: Global, alloc: A, copy: (u16, u32, u64)) -> Result<Event<A>, Fail> {
    let (gateway, counter, arrived) = copy;
    let bytes = uplink(memory, true, ADDR, counter)?;
    Ok(Event::Hear {
        bytes: Bytes::new(bytes.as_slice().to_vec(alloc)?),
        heard: copy_at(gateway),
        arrived,
    })
}

/// The nine events.
fn events<A: Allocator + Copy>(memory: Global, alloc: A) -> Result<Vec<Event<A>, A>, Fail> {
    let mut events = Vec::new(alloc);
    for place in 0..9 {
        events.push(event(memory, alloc, place)?)?;
    }
    Ok(events)
}

/// Who answers the events.
#[derive(Clone, Copy)]
enum By {
    Replay,
    Server,
}

/// A run of these events by these settings, with memory of which growths are refused.
#[derive(Drop)]
struct Run<'r, A: Allocator> {
    settings: &'r Settings<Global>,
    memory: Global,
    own: A,
    by: By,
}

impl<'r, A: Allocator + Copy> Run<'r, A> {
    /// Whether it finds memory where these growths are refused. It answers as ever then.
    fn is_whole(&self, alloc: &Refuser, refused: Refused) -> Result<bool, Fail> {
        let events = events(self.memory, self.own)?;
        refuse(alloc, refused);
        match self.by {
            By::Replay => self.is_replayed(&events),
            By::Server => self.is_served(&events),
        }
    }

    /// Whether the events are replayed. There are two books and 16 steps then.
    fn is_replayed(&self, events: &[Event<A>]) -> Result<bool, Fail> {
        let Ok(replay) = replay(self.own, hasher(), self.settings, events) else {
            return Ok(false);
        };
        tells(&replay.outcomes, &LINES)?;
        same((replay.books.len(), replay.steps.len()), (2, 16))?;
        Ok(true)
    }

    /// Whether a server on empty books answers the events, one after another.
    fn is_served(&self, events: &[Event<A>]) -> Result<bool, Fail> {
        let Ok(outcomes) = served(self.own, self.settings, events) else {
            return Ok(false);
        };
        tells(&outcomes, &LINES)?;
        Ok(true)
    }
}

/// What a server on empty books tells of these events.
fn served<A: Allocator + Copy>(
    alloc: A,
    settings: &Settings<Global>,
    events: &[Event<A>],
) -> Result<Vec<Entry<A>, A>, NoMemory> {
    let books = empty_books(alloc, settings)?;
    let mut server = Server::resumed(alloc, hasher(), settings, USUAL_LIMITS, books)?;
    for (place, event) in events.iter().enumerate() {
        server.event(place, event)?;
    }
    Ok(server.take_lines(alloc))
}

/// With the growth of this number refused, and all that follow it. With memory it then answers as ever; and so it does where that
/// growth alone is refused, if something asks for less then.
impl<'r, A: Allocator + Copy> Call for Run<'r, A> {
    fn is_refused(&mut self, alloc: &Refuser, number: u64) -> Result<bool, Fail> {
        let is_starved = !self.is_whole(alloc, (number, true))?;
        if was_refused(alloc, number, is_starved, true)? {
            holds(self.is_whole(alloc, (0, false))?)?;
            self.is_whole(alloc, (number, false))?;
            alloc.grant();
        }
        Ok(is_starved)
    }
}

// Refuses `server_core` `replay`: by size: what its events take, its lists of outcomes and steps, and one list for
// each book; 42 for nine events.
/// A run takes so many growths.
#[test]
fn a_run_is_replayed(rt: HostRuntime) -> Result<(), Fail> {
    let settings = settings_of(rt.alloc(), &[device(ADDR)])?;
    let alloc = &Refusing::new(rt.alloc());
    let mut run = Run {
        settings: &settings,
        memory: rt.alloc(),
        own: alloc,
        by: By::Replay,
    };
    same(growths_of(alloc, &mut run)?, 42)
}

// Refuses `server_core` `empty_books`: 1.
// Refuses `server_core` `Server::resumed`: as `Desk::new`.
// Refuses `server_core` `Server::event`: by size; 27 for nine events.
// Refuses `server_core` `do_all_but_pass` (`Server::event` calls it): by size.
// Refuses `server_core` `Engine::queue` (`Server::event` calls it): as `Desk::queue`, and by size for its line.
// Refuses `server_core` `Engine::hear` (`Server::event` calls it): as `Desk::hear`, and by size for its line.
// Refuses `server_core` `Engine::tick` (`Server::event` calls it): by size for its line.
// Refuses `server_core` `Engine::cancel` (`Server::event` calls it): by size for its line.
// Refuses `server_core` `Engine::tell_bad` (`Server::event` calls it): by size for its line.
/// The same events take fewer at a server that is given one after another: it keeps no steps.
#[test]
fn a_server_is_resumed(rt: HostRuntime) -> Result<(), Fail> {
    let settings = settings_of(rt.alloc(), &[device(ADDR)])?;
    let alloc = &Refusing::new(rt.alloc());
    let mut run = Run {
        settings: &settings,
        memory: rt.alloc(),
        own: alloc,
        by: By::Server,
    };
    same(growths_of(alloc, &mut run)?, 35)
}
