// Datagrams of two gateways' packet forwarders, one after another.

use forwarder_sessions::{
    Datagram, DatagramFault, Endpoint, Forwarder, Forwarders, News, NoMemory, PushDropped, TxAck,
};
use json::Scratch;
use refusing_alloc::{MOST_GROWTHS, Refuser, Refusing};
use std::alloc::Allocator;
use std::test::Fail;
use test_asserts::{equal, equal_at};

/// What a datagram comes to, without its packets.
#[derive(Clone, Copy, Debug, PartialEq, Eq, Drop)]
enum Wanted {
    Dropped(DatagramFault),
    Pulled(usize),
    /// How many packets there are.
    Pushed(usize, Result<usize, PushDropped>),
    /// The token, and whether the downlink goes on air.
    Told(usize, u16, bool),
}

/// A moment of the server's clock, the last byte of the sender's address, a datagram's head and what stands behind it; and what is
/// sent back, and told.
type Row = (
    u64,
    u8,
    &'static [u8],
    &'static str,
    Option<[u8; 4]>,
    Wanted,
);

/// Two gateways, of which the second's datagrams may come from one address alone.
static FORWARDERS: [Forwarder; 2] = [
    Forwarder {
        gateway: 1,
        eui: [0xaa, 0x55, 0x5a, 0, 0, 0, 0, 1],
        from: None,
        lead: 400_000,
        power_dbm: 14,
    },
    Forwarder {
        gateway: 2,
        eui: [0xaa, 0x55, 0x5a, 0, 0, 0, 0, 2],
        from: Some([127, 0, 0, 2]),
        lead: 400_000,
        power_dbm: 14,
    },
];

const PUSH_1: &[u8] = &[2, 0x12, 0x34, 0, 0xaa, 0x55, 0x5a, 0, 0, 0, 0, 1];

const PULL_1: &[u8] = &[2, 0, 6, 2, 0xaa, 0x55, 0x5a, 0, 0, 0, 0, 1];

const PULL_2: &[u8] = &[2, 0, 7, 2, 0xaa, 0x55, 0x5a, 0, 0, 0, 0, 2];

const PULL_3: &[u8] = &[2, 0, 7, 2, 0xaa, 0x55, 0x5a, 0, 0, 0, 0, 3];

const ACK_2: &[u8] = &[2, 0, 1, 5, 0xaa, 0x55, 0x5a, 0, 0, 0, 0, 2];

const STRANGE: &[u8] = &[2, 0, 7, 1, 0xaa, 0x55, 0x5a, 0, 0, 0, 0, 2];

const HEARD: &str =
    r#"{"rxpk":[{"tmst":5000000,"freq":868.100000,"stat":1,"modu":"LORA","datr":"SF7BW125","codr":"4/5","rssi":-90,"lsnr":5.5,"size":12,"data":"gNobASYABwAJyJFB"}]}"#;

const TOO_LATE: &str = r#"{"txpk_ack":{"error":"TOO_LATE"}}"#;

static ROWS: [Row; 14] = [
    (
        0,
        1,
        &[2, 0, 7],
        "",
        None,
        Wanted::Dropped(DatagramFault::Short),
    ),
    (
        0,
        1,
        &[1, 0, 7, 2],
        "",
        None,
        Wanted::Dropped(DatagramFault::Version),
    ),
    (
        0,
        1,
        STRANGE,
        "",
        None,
        Wanted::Dropped(DatagramFault::Kind),
    ),
    (
        0,
        1,
        PULL_3,
        "",
        None,
        Wanted::Dropped(DatagramFault::UnknownGateway),
    ),
    (0, 1, PULL_2, "", None, Wanted::Dropped(DatagramFault::Peer)),
    (0, 2, PULL_2, "", Some([2, 0, 7, 4]), Wanted::Pulled(1)),
    (
        0,
        1,
        PUSH_1,
        HEARD,
        Some([2, 0x12, 0x34, 1]),
        Wanted::Pushed(0, Err(PushDropped::NoPull)),
    ),
    (1_000, 1, PULL_1, "", Some([2, 0, 6, 4]), Wanted::Pulled(0)),
    (
        60_001_000,
        1,
        PUSH_1,
        HEARD,
        Some([2, 0x12, 0x34, 1]),
        Wanted::Pushed(0, Ok(1)),
    ),
    (
        60_001_001,
        1,
        PUSH_1,
        HEARD,
        Some([2, 0x12, 0x34, 1]),
        Wanted::Pushed(0, Err(PushDropped::NoPull)),
    ),
    (
        60_001_002,
        9,
        PULL_1,
        "",
        Some([2, 0, 6, 4]),
        Wanted::Pulled(0),
    ),
    (
        60_001_003,
        1,
        PUSH_1,
        "{",
        Some([2, 0x12, 0x34, 1]),
        Wanted::Pushed(0, Err(PushDropped::Json)),
    ),
    (60_001_004, 2, ACK_2, "", None, Wanted::Told(1, 1, true)),
    (
        60_001_005,
        2,
        ACK_2,
        TOO_LATE,
        None,
        Wanted::Told(1, 1, false),
    ),
];

/// What was told of a datagram.
fn told<A: Allocator>(news: &News<A>) -> Wanted {
    match news {
        News::Dropped { fault, .. } => Wanted::Dropped(*fault),
        News::Pulled { place } => Wanted::Pulled(*place),
        News::Pushed { place, packets } => match packets {
            Ok(packets) => Wanted::Pushed(*place, Ok(packets.len())),
            Err(fault) => Wanted::Pushed(*place, Err(*fault)),
        },
        News::Told { place, token, ack } => {
            Wanted::Told(*place, *token, matches!(ack, TxAck::Acked))
        }
    }
}

/// Hands a row's datagram in, and answers what is sent back and told.
fn received<A: Allocator + Copy>(
    alloc: A,
    forwarders: &mut Forwarders<A>,
    scratch: &mut Scratch,
    row: &Row,
    bytes: &mut Vec<u8, A>,
) -> Result<(Option<[u8; 4]>, Wanted), NoMemory> {
    bytes.clear();
    bytes.extend_from_slice(row.2)?;
    bytes.extend_from_slice(row.3.as_bytes())?;
    let source = Endpoint {
        ip: [127, 0, 0, row.1],
        port: 1700,
    };
    let datagram = Datagram {
        source,
        at: row.0,
        bytes: bytes.as_slice(),
    };
    let received = forwarders.receive(alloc, scratch, &datagram)?;
    Ok((received.acknowledgement, told(&received.news)))
}

#[test]
fn datagrams_of_two_gateways(rt: HostRuntime) -> Result<(), Fail> {
    let scratch = &mut Scratch::new(rt.alloc());
    let mut bytes = Vec::new(rt.alloc());
    let mut forwarders = Forwarders::new(rt.alloc(), &FORWARDERS)?;
    for (place, row) in ROWS.iter().enumerate() {
        let got = received(rt.alloc(), &mut forwarders, scratch, row, &mut bytes)?;
        equal_at(&place, &got, &(row.4, row.5))?;
    }
    // The last PULL_DATA came from elsewhere.
    let Some(session) = forwarders.sessions().first() else {
        return Err(Fail::from("no gateway"));
    };
    let peer = session.pulled().map(|pulled| pulled.peer.ip);
    equal(&peer, &Some([127, 0, 0, 9]))
}

#[test]
fn packets_are_placed_on_each_gateways_clock(rt: HostRuntime) -> Result<(), Fail> {
    let mut forwarders = Forwarders::new(rt.alloc(), &FORWARDERS)?;
    equal(&forwarders.sessions()[0].tick(1_000), &None)?;
    equal(&forwarders.hear(0, 5_000_000, 1_000).at, &1_000)?;
    equal(&forwarders.hear(1, 4_294_000_000, 1_100).at, &1_100)?;
    let sessions = forwarders.sessions();
    equal(&sessions[0].tick(201_001), &Some(601_001))?;
    equal(&sessions[0].tick(2_001_000), &Some(2_401_000))?;
    equal(&sessions[0].tick(2_001_001), &None)?;
    equal(&sessions[1].tmst_of(1_001_100), &Some(32_704))
}

#[test]
fn an_uplink_of_an_earlier_session_is_not_answered(rt: HostRuntime) -> Result<(), Fail> {
    let mut forwarders = Forwarders::resumed(rt.alloc(), &[(FORWARDERS[0], 5_000_000)])?;
    equal(&forwarders.sessions()[0].line(1_000_000), &5_999_900)?;
    equal(&forwarders.hear(0, 7_000_000, 1_000).at, &3_001_000)?;
    forwarders.join(0, 4);
    forwarders.join(0, 3);
    equal(&forwarders.sessions()[0].may_answer(1), &true)?;
    // The gateway restarts: its counter begins anew.
    equal(&forwarders.hear(0, 1_000, 900_000).is_new, &true)?;
    forwarders.join(0, 5);
    equal(&forwarders.sessions()[0].may_answer(4), &false)?;
    equal(&forwarders.sessions()[0].may_answer(5), &true)
}

/// A PUSH_DATA that is heard.
static HEARD_ROW: Row = (
    2_000,
    1,
    PUSH_1,
    HEARD,
    Some([2, 0x12, 0x34, 1]),
    Wanted::Pushed(0, Ok(1)),
);

/// Whether a datagram comes to nothing where the growth of any number is refused that is asked for, and then to what it comes to.
fn each_is_refused(alloc: &Refuser, scratch: &mut Scratch) -> Result<(), Fail> {
    let mut bytes = Vec::with_capacity(alloc, 1_024)?;
    let mut forwarders = Forwarders::new(alloc, &FORWARDERS)?;
    received(alloc, &mut forwarders, scratch, &ROWS[7], &mut bytes)?;
    for number in 1..MOST_GROWTHS {
        alloc.refuse(number);
        let got = received(alloc, &mut forwarders, scratch, &HEARD_ROW, &mut bytes);
        let asked = alloc.asked();
        alloc.grant();
        if asked < number {
            return equal(&got, &Ok((HEARD_ROW.4, HEARD_ROW.5)));
        }
        equal_at(&number, &got.is_err(), &true)?;
    }
    Err(Fail::from("no end of growths"))
}

// Refuses `forwarder_sessions` `Forwarders::receive`: what `read_packets` and `read_tx_ack` take.
#[test]
fn growths_of_datagrams(rt: HostRuntime) -> Result<(), Fail> {
    each_is_refused(&Refusing::new(rt.alloc()), &mut Scratch::new(rt.alloc()))
}

// Refuses `forwarder_sessions` `Forwarders::new`: 1 for its list.
#[test]
fn growths_of_forwarders(rt: HostRuntime) -> Result<(), Fail> {
    let alloc = &Refusing::new(rt.alloc());
    alloc.refuse(1);
    let refused = Forwarders::new(alloc, &FORWARDERS).is_err();
    alloc.grant();
    equal(&refused, &true)?;
    equal(&Forwarders::new(alloc, &FORWARDERS)?.sessions().len(), &2)
}

// Refuses `forwarder_sessions` `Forwarders::resumed`: 1 for its list.
#[test]
fn growths_of_resumed_forwarders(rt: HostRuntime) -> Result<(), Fail> {
    let resumed = [(FORWARDERS[0], 0), (FORWARDERS[1], 0)];
    let alloc = &Refusing::new(rt.alloc());
    alloc.refuse(1);
    let refused = Forwarders::resumed(alloc, &resumed).is_err();
    alloc.grant();
    equal(&refused, &true)?;
    equal(&Forwarders::resumed(alloc, &resumed)?.sessions().len(), &2)
}
