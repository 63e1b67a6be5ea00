// The downlink of a worked pass: what is written into the journal before it is sent, and its datagram.

use answer_ticket::Bytes;
use forwarder_sessions::{Datagram, Endpoint, Forwarder, Forwarders};
use json::Scratch;
use refusing_alloc::{MOST_GROWTHS, Refuser, Refusing};
use serve_downlinks::{Fate, batch_of, downlinks_of, fate_of, pull_resp_for};
use server_core::{Entry, Event, Heard1, Server, USUAL_LIMITS, empty_books};
use server_desk::DeviceSetting;
use std::alloc::{Allocator, Global};
use std::test::Fail;
use test_asserts::equal;
use worked_inputs::{ADDR, DEVICE, WorkedHasher, hasher, settings_of};

/// The device has sent six uplinks before.
const HEARD_BEFORE: DeviceSetting = DeviceSetting {
    up: Some(6),
    ..DEVICE
};

/// The packet forwarder of the gateway with this number, which is the last byte of its EUI.
fn forwarder(gateway: u8) -> Forwarder {
    Forwarder {
        gateway: u16::from(gateway),
        eui: [0xaa, 0x55, 0x5a, 0, 0, 0, 0, gateway],
        from: None,
        lead: 400_000,
        power_dbm: 14,
    }
}

const PULL_2: &[u8] = &[2, 0, 7, 2, 0xaa, 0x55, 0x5a, 0, 0, 0, 0, 2];

/// Both gateways, which heard the uplink; the second one asks for its downlinks.
fn forwarders(alloc: Global) -> Result<Forwarders<Global>, Fail> {
    let mut known = Forwarders::new(alloc, &[forwarder(1), forwarder(2)])?;
    let pull = Datagram {
        source: Endpoint {
            ip: [127, 0, 0, 2],
            port: 1_700,
        },
        at: 10,
        bytes: PULL_2,
    };
    known.receive(alloc, &mut Scratch::new(alloc), &pull)?;
    known.hear(0, 5_000_000, 1_000);
    known.hear(1, 4_294_000_000, 1_100);
    known.join(0, 1);
    known.join(1, 1);
    Ok(known)
}

const UPLINK: [u8; 12] = [
    0x80, 0xda, 0x1b, 0x01, 0x26, 0x00, 0x07, 0x00, 0x09, 0xc8, 0x91, 0x41,
];

/// The gateway with this number hears the uplink, at the moment of its own clock at which it arrives.
fn heard<A: Allocator>(alloc: A, gateway: u16, at: u64, rssi: i16) -> Result<Event<A>, Fail> {
    let bytes = Bytes::new(Vec::from_slice(alloc, &UPLINK)?);
    let heard = Heard1 {
        gateway,
        at,
        freq_hz: 868_100_000,
        rate: 5,
        snr: 55,
        rssi,
    };
    Ok(Event::Hear {
        bytes,
        heard,
        arrived: at,
    })
}

/// Both gateways hear the uplink, and are ticked; then it is answered.
fn events<A: Allocator + Copy>(alloc: A) -> Result<Vec<Event<A>, A>, Fail> {
    let mut events = Vec::with_capacity(alloc, 5)?;
    events.push(heard(alloc, 1, 1_000, -90)?)?;
    events.push(heard(alloc, 2, 1_100, -80)?)?;
    for gateway in 1..3 {
        events.push(Event::Tick {
            gateway,
            now: 601_001,
        })?;
    }
    events.push(Event::Pass { now: 201_001 })?;
    Ok(events)
}

/// A server that has answered the uplink, and the lines that it told.
type Passed<A> = (Server<WorkedHasher, A>, Vec<Entry<A>, A>);

fn passed<A: Allocator + Copy>(alloc: A, memory: Global) -> Result<Passed<A>, Fail> {
    let settings = settings_of(memory, &[HEARD_BEFORE])?;
    let events = events(alloc)?;
    let books = empty_books(alloc, &settings)?;
    let mut server = Server::resumed(alloc, hasher(), &settings, USUAL_LIMITS, books)?;
    for (place, event) in events.iter().enumerate() {
        server.event(place, event)?;
    }
    let told = server.take_lines(alloc);
    Ok((server, told))
}

const SESSIONS: [(u32, [u8; 4]); 1] = [(ADDR, [0x5c, 0x7e, 0xfb, 0x43])];

const BATCH: &[u8] = b"clock 2 2200981 601001
device 26011bda 5c7efb43 7 1
sent 2 1001100 868100000 5 12
.
";

const DATAGRAM: &[u8] =
    b"\x02\x00\x01\x03{\"txpk\":{\"imme\":false,\"tmst\":32704,\"freq\":868.100000,\"rfch\":0,\"powe\":14,\"modu\":\"LORA\",\"datr\":\"SF7BW125\",\"codr\":\"4/5\",\"ipol\":true,\"size\":12,\"ncrc\":true,\"data\":\"YNobASYgAAAkA0fK\"}}";

/// The counter and the port of a downlink that may be sent.
fn sendable(fate: Fate) -> Option<(u32, u16)> {
    match fate {
        Fate::Sendable { peer, tmst, .. } => Some((tmst, peer.port)),
        Fate::Barred | Fate::Unreachable => None,
    }
}

#[test]
fn a_downlink_is_in_the_journal_before_it_is_sent(rt: HostRuntime) -> Result<(), Fail> {
    let (server, told) = passed(rt.alloc(), rt.alloc())?;
    let known = forwarders(rt.alloc())?;
    let found = downlinks_of(rt.alloc(), &told)?;
    let [downlink] = found.as_slice() else {
        return Err(Fail::from("one downlink"));
    };
    let fate = fate_of(downlink, known.sessions());
    equal(&sendable(fate), &Some((32_704, 1_700)))?;
    let batch = batch_of(
        rt.alloc(),
        &server,
        known.sessions(),
        &SESSIONS,
        201_001,
        &found,
    )?;
    equal(&batch.as_slice(), &BATCH)?;
    let datagram = pull_resp_for(rt.alloc(), downlink, 32_704, 14)?;
    equal(&datagram.as_slice(), &DATAGRAM)
}

/// Why a downlink may not be sent, if it may not.
fn kept_back(fate: Fate) -> Option<&'static str> {
    match fate {
        Fate::Barred => Some("barred"),
        Fate::Unreachable => Some("unreachable"),
        Fate::Sendable { .. } => None,
    }
}

/// It isn't sent where the gateway has sent no PULL_DATA, or where its counter began anew since it heard the uplink.
#[test]
fn a_downlink_may_be_kept_back(rt: HostRuntime) -> Result<(), Fail> {
    let (_, told) = passed(rt.alloc(), rt.alloc())?;
    let found = downlinks_of(rt.alloc(), &told)?;
    let [downlink] = found.as_slice() else {
        return Err(Fail::from("one downlink"));
    };
    let mut known = Forwarders::new(rt.alloc(), &[forwarder(1), forwarder(2)])?;
    known.hear(1, 4_294_000_000, 1_100);
    known.join(1, 1);
    equal(
        &kept_back(fate_of(downlink, known.sessions())),
        &Some("unreachable"),
    )?;
    known.hear(1, 5_000_000, 100_000);
    equal(
        &kept_back(fate_of(downlink, known.sessions())),
        &Some("barred"),
    )
}

// Refuses `serve_downlinks` `downlinks_of`: 1 for the list of one.
#[test]
fn growths_of_a_list_of_downlinks(rt: HostRuntime) -> Result<(), Fail> {
    let alloc = &Refusing::new(rt.alloc());
    let (_, told) = passed(rt.alloc(), rt.alloc())?;
    alloc.refuse(1);
    let refused = downlinks_of(alloc, &told).is_err();
    alloc.grant();
    equal(&refused, &true)?;
    equal(&downlinks_of(alloc, &told)?.len(), &1)
}

/// How many bytes the batch has of the worked pass, with the growth of this number refused; None where there was no memory.
fn batch_size(memory: Global, alloc: &Refuser, number: u64) -> Result<Option<usize>, Fail> {
    let (server, told) = passed(alloc, memory)?;
    let known = forwarders(memory)?;
    let found = downlinks_of(memory, &told)?;
    alloc.refuse(number);
    let batch = batch_of(alloc, &server, known.sessions(), &SESSIONS, 201_001, &found);
    alloc.grant();
    Ok(batch.ok().map(|bytes| bytes.len()))
}

// Refuses `serve_downlinks` `batch_of`: by size, those of its text.
#[test]
fn growths_of_a_batch(rt: HostRuntime) -> Result<(), Fail> {
    let alloc = &Refusing::new(rt.alloc());
    equal(&batch_size(rt.alloc(), alloc, 1)?, &None)?;
    equal(
        &batch_size(rt.alloc(), alloc, MOST_GROWTHS)?,
        &Some(BATCH.len()),
    )
}

// Refuses `serve_downlinks` `pull_resp_for`: those of `pull_resp`.
#[test]
fn growths_of_a_datagram(rt: HostRuntime) -> Result<(), Fail> {
    let alloc = &Refusing::new(rt.alloc());
    let (_, told) = passed(rt.alloc(), rt.alloc())?;
    let found = downlinks_of(rt.alloc(), &told)?;
    let [downlink] = found.as_slice() else {
        return Err(Fail::from("one downlink"));
    };
    alloc.refuse(1);
    let refused = pull_resp_for(alloc, downlink, 32_704, 14).is_err();
    alloc.grant();
    equal(&refused, &true)?;
    let datagram = pull_resp_for(alloc, downlink, 32_704, 14)?;
    equal(&datagram.as_slice(), &DATAGRAM)
}
