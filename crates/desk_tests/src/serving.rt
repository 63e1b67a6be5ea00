// The worked run of a server that two packet forwarders are pointed at, turn by turn: what comes, what is sent back and told, and
// what happens where memory is refused.
ghost use Rattle.std.specs.Prelude.{◌≡◌, ◌≤◌, length};

use refusing_alloc::{Call, Refuser, Refusing, growths_of, refuse, same, was_refused};
use serve_turns::{Came, Endpoint, Forwarder, Host, Serving, Stopped, forwarders_of};
use server_core::{GatewaySetting, Settings};
use std::alloc::{Allocator, Global};
use std::test::Fail;
use test_asserts::{equal, equal_at, holds};
use text_lines::CallFailed;
use worked_inputs::{DEVICE, hasher, settings_of};

/// What the clock shows, the datagram that comes, if one does: its head and what stands behind it; what is sent back, and told.
type Turn = (
    u64,
    Option<(&'static [u8], &'static str)>,
    &'static [u8],
    &'static str,
);

/// What is set of two gateways' packet forwarders.
static SET: [serve_settings::Forwarder; 2] = [
    serve_settings::Forwarder {
        eui: [0xaa, 0x55, 0x5a, 0, 0, 0, 0, 1],
        from: None,
        power_dbm: 14,
        lead_us: 400_000,
    },
    serve_settings::Forwarder {
        eui: [0xaa, 0x55, 0x5a, 0, 0, 0, 0, 2],
        from: None,
        power_dbm: 14,
        lead_us: 400_000,
    },
];

const PULL_1: &[u8] = &[2, 0, 6, 2, 0xaa, 0x55, 0x5a, 0, 0, 0, 0, 1];

const PULL_2: &[u8] = &[2, 0, 7, 2, 0xaa, 0x55, 0x5a, 0, 0, 0, 0, 2];

const PULL_3: &[u8] = &[2, 0, 7, 2, 0xaa, 0x55, 0x5a, 0, 0, 0, 0, 3];

const PUSH_1: &[u8] = &[2, 0x12, 0x34, 0, 0xaa, 0x55, 0x5a, 0, 0, 0, 0, 1];

const PUSH_2: &[u8] = &[2, 0x12, 0x35, 0, 0xaa, 0x55, 0x5a, 0, 0, 0, 0, 2];

const ACK_2: &[u8] = &[2, 0, 1, 5, 0xaa, 0x55, 0x5a, 0, 0, 0, 0, 2];

const HEARD_BY_1: &str =
    r#"{"rxpk":[{"tmst":5000000,"freq":868.100000,"stat":1,"modu":"LORA","datr":"SF7BW125","codr":"4/5","rssi":-90,"lsnr":5.5,"size":12,"data":"gNobASYABwAJyJFB"}]}"#;

const HEARD_BY_2: &str =
    r#"{"rxpk":[{"tmst":4294000000,"freq":868.100000,"stat":1,"modu":"LORA","datr":"SF7BW125","codr":"4/5","rssi":-80,"lsnr":5.5,"size":12,"data":"gNobASYABwAJyJFB"},{"stat":-1}]}"#;

/// The uplink that both heard, and the answer to it. Then a program on the machine itself has a payload wait, and asks for a report.
static TURNS: [Turn; 18] = [
    (10, Some((PULL_1, "")), &[2, 0, 6, 4], ""),
    (20, Some((PULL_2, "")), &[2, 0, 7, 4], ""),
    (
        1_000,
        Some((PUSH_1, HEARD_BY_1)),
        &[2, 0x12, 0x34, 1],
        "session 1 1000\n> hear 1 1000 868100000 5 55 -90 1000 80da1b012600070009c89141\nopened 1\n",
    ),
    (
        1_100,
        Some((PUSH_2, HEARD_BY_2)),
        &[2, 0x12, 0x35, 1],
        "session 2 1100\n> hear 2 1100 868100000 5 55 -80 1100 80da1b012600070009c89141\njoined 1 2\n",
    ),
    // A second copy of the same gateway is refused; its clock is reckoned from that packet on, which came 100 us later.
    (1_200, Some((PUSH_2, HEARD_BY_2)), &[2, 0x12, 0x35, 1], ""),
    (201_000, None, &[], ""),
    (
        201_001,
        None,
        &[],
        "> tick 1 601001\nfloor 1 601001\n> tick 2 600901\nfloor 2 600901\n> pass 201001\n\
         send 1 2 RX1 1001100 868100000 5 12\nframe 1 60da1b0126200000240347ca\n",
    ),
    (
        201_500,
        Some((ACK_2, r#"{"txpk_ack":{"error":"TOO_LATE"}}"#)),
        &[],
        "failed 1 2 TOO_LATE\n",
    ),
    (201_600, Some((ACK_2, "")), &[], "acked 1 2\n"),
    (300_000, Some((PULL_3, "")), &[], ""),
    (300_001, Some((&[2, 0, 7], "")), &[], ""),
    (999_999, Some((PULL_3, "")), &[], ""),
    (
        1_000_000,
        None,
        &[],
        "dropped Shape 2 aa555a0000000002\ndropped SameGateway 1 aa555a0000000002\n\
         dropped UnknownGateway 2 aa555a0000000003\ndropped Short 1 -\n",
    ),
    (1_999_999, Some((&[2, 0, 7, 3], "")), &[], ""),
    (2_000_000, None, &[], "dropped Kind 1 -\n"),
    (
        2_000_001,
        Some((b"queue 26011bda 1 c0ffee", "")),
        b"queued 26011bda 1\n",
        "> queue 26011bda 1 c0ffee\nqueued 26011bda 1\n",
    ),
    (
        2_000_002,
        Some((b"report", "\n")),
        b"gateway 1 booked 0 cancelled 0 retired 0 kept 0\n\
          gateway 2 booked 41216 cancelled 0 retired 0 kept 1\nbusiest 2 M 1001100 41216\n\
          answered 1 unanswered 0 silent 0\n",
        "",
    ),
    (2_000_003, Some((b"reports", "")), b"bad 0 Syntax\n", ""),
];

/// The world of one turn: what it gives, and what was done to it.
#[derive(Drop)]
struct Played {
    turn: Turn,
    acknowledged: Vec<u8>,
    told: Vec<u8>,
    /// Whether a journal or a PULL_RESP was asked for, neither of which a server that keeps no journal does.
    is_kept: bool,
}

impl Played {
    /// A turn in which nothing was done yet.
    fn new(alloc: Global, turn: Turn) -> Self {
        Played {
            turn,
            acknowledged: Vec::new(alloc),
            told: Vec::new(alloc),
            is_kept: false,
        }
    }
}

impl Host for Played {
    fn receive(&mut self, into: &mut [u8]) -> Option<Came> {
        let (head, rest) = self.turn.1?;
        let at = put(head, into);
        let len = at + put(rest.as_bytes(), &mut into[at..]);
        let source = Endpoint {
            ip: [127, 0, 0, 1],
            port: 40_000,
        };
        Some(Came { source, len })
    }

    fn rest(&mut self) {}

    fn now(&mut self) -> Option<u64> {
        Some(self.turn.0)
    }

    fn acknowledge(&mut self, _to: Endpoint, bytes: &[u8]) {
        let _ = self.acknowledged.extend_from_slice(bytes);
    }

    fn append(&mut self, _bytes: &[u8]) -> bool {
        self.is_kept = true;
        true
    }

    fn sync(&mut self) -> bool {
        self.is_kept = true;
        true
    }

    fn replace(&mut self, _journal: &[u8]) -> bool {
        self.is_kept = true;
        true
    }

    fn send(&mut self, _to: Endpoint, _bytes: &[u8]) -> bool {
        self.is_kept = true;
        true
    }

    fn tell(&mut self, lines: &[u8]) -> Result<(), CallFailed> {
        self.told.extend_from_slice(lines).map_err(|_| CallFailed)
    }
}

/// Puts as much of some bytes as there is room for into the front of `into`.
fn put(bytes: &[u8], into: &mut [u8]) -> usize
    ensures room { result ≤ length into.old }
    ensures len { length into.new ≡ length into.old }
{
    let count = bytes.len().min(into.len());
    into[..count].copy_from_slice(&bytes[..count]);
    count
}

/// The packet forwarders of the gateways 1 and 2.
fn forwarders(alloc: Global, settings: &Settings<Global>) -> Result<Vec<Forwarder>, Fail> {
    Ok(forwarders_of(alloc, settings.gateways(), &SET)?)
}

/// Whether a server that keeps no journal makes all turns. Each acknowledges and tells what it has to; none writes or sends anything.
fn is_served<A: Allocator + Copy>(
    memory: Global,
    alloc: A,
    settings: &Settings<Global>,
    forwarders: &[Forwarder],
) -> Result<bool, Fail> {
    let Ok(mut serving) = Serving::new(alloc, hasher(), settings, forwarders) else {
        return Ok(false);
    };
    let mut room = vec![in memory; 0u8; 256]?;
    for turn in &TURNS {
        let mut host = Played::new(memory, *turn);
        match serving.turn(&mut host, &mut room) {
            Ok(()) => {
                equal_at(&turn.0, &host.acknowledged.as_slice(), &turn.2)?;
                equal_at(&turn.0, &host.told.as_slice(), &turn.3.as_bytes())?;
                equal_at(&turn.0, &host.is_kept, &false)?;
            }
            Err(stopped) => {
                equal_at(&turn.0, &stopped, &Stopped::NoMemory)?;
                return Ok(false);
            }
        }
    }
    Ok(true)
}

#[test]
fn two_forwarders_are_served(rt: HostRuntime) -> Result<(), Fail> {
    let alloc = rt.alloc();
    let settings = settings_of(alloc, &[DEVICE])?;
    let forwarders = forwarders(alloc, &settings)?;
    holds(is_served(alloc, alloc, &settings, &forwarders)?)?;
    Ok(())
}

/// Gateways in another order than that of their numbers.
static GATEWAYS: [GatewaySetting; 2] = [
    GatewaySetting {
        id: 2,
        cap: 4_096,
        gap: 45_000,
    },
    GatewaySetting {
        id: 1,
        cap: 4_096,
        gap: 45_000,
    },
];

#[test]
fn forwarders_stand_by_gateway(rt: HostRuntime) -> Result<(), Fail> {
    let forwarders = forwarders_of(rt.alloc(), &GATEWAYS, &SET)?;
    let mut ids = Vec::new(rt.alloc());
    for forwarder in &forwarders {
        ids.push((forwarder.gateway, forwarder.eui[7]))?;
    }
    equal(&ids.as_slice(), &[(1, 2), (2, 1)].as_slice())?;
    Ok(())
}

/// What shows no moment or a late one, gives datagrams without a byte, and takes no lines.
#[derive(Drop)]
struct Failing {
    now: Option<u64>,
}

impl Host for Failing {
    fn receive(&mut self, _into: &mut [u8]) -> Option<Came> {
        let source = Endpoint {
            ip: [127, 0, 0, 1],
            port: 40_000,
        };
        Some(Came { source, len: 0 })
    }

    fn rest(&mut self) {}

    fn now(&mut self) -> Option<u64> {
        self.now
    }

    fn acknowledge(&mut self, _to: Endpoint, _bytes: &[u8]) {}

    fn append(&mut self, _bytes: &[u8]) -> bool {
        false
    }

    fn sync(&mut self) -> bool {
        false
    }

    fn replace(&mut self, _journal: &[u8]) -> bool {
        false
    }

    fn send(&mut self, _to: Endpoint, _bytes: &[u8]) -> bool {
        false
    }

    fn tell(&mut self, _lines: &[u8]) -> Result<(), CallFailed> {
        Err(CallFailed)
    }
}

/// How a server ends whose clock shows these, one in each turn: None where it makes all turns.
fn end_of(
    alloc: Global,
    settings: &Settings<Global>,
    shown: &[Option<u64>],
) -> Result<Option<Stopped>, Fail> {
    let forwarders = forwarders(alloc, settings)?;
    let mut serving = Serving::new(alloc, hasher(), settings, &forwarders)?;
    for now in shown {
        let mut host = Failing { now: *now };
        if let Err(stopped) = serving.turn(&mut host, &mut []) {
            return Ok(Some(stopped));
        }
    }
    Ok(None)
}

/// What the clock shows in one turn after another, and how that ends: what was dropped is told once a second has passed.
static ENDS: [(&[Option<u64>], Option<Stopped>); 4] = [
    (&[None], Some(Stopped::Clock)),
    (&[Some((1 << 60) + 1)], Some(Stopped::Clock)),
    (&[Some(0), Some(999_999)], None),
    (&[Some(0), Some(1 << 60)], Some(Stopped::Write)),
];

#[test]
fn a_server_stops_without_clock_or_output(rt: HostRuntime) -> Result<(), Fail> {
    let settings = settings_of(rt.alloc(), &[DEVICE])?;
    for (shown, end) in &ENDS {
        equal_at(shown, &end_of(rt.alloc(), &settings, shown)?, end)?;
    }
    Ok(())
}

/// A server that makes all turns, with memory of which growths are refused.
#[derive(Drop)]
struct Run<'r, A: Allocator> {
    settings: &'r Settings<Global>,
    forwarders: &'r [Forwarder],
    memory: Global,
    own: A,
}

/// With the growth of this number refused, and all that follow it.
impl<'r, A: Allocator + Copy> Call for Run<'r, A> {
    fn is_refused(&mut self, alloc: &Refuser, number: u64) -> Result<bool, Fail> {
        refuse(alloc, (number, true));
        let is_starved = !is_served(self.memory, self.own, self.settings, self.forwarders)?;
        was_refused(alloc, number, is_starved, true)?;
        alloc.grant();
        Ok(is_starved)
    }
}

// Refuses `serve_turns` `Serving::turn`: by size: as `Forwarders::receive` and `Server::event`, and for its lines; 122 for 18 turns.
// A desk that is made anew takes those of `Server::resumed` twice, and those of what waits: it comes behind 32,768 uplinks, and no
// test refuses them.
/// A growth that is refused stops the server, whichever it is.
#[test]
fn growths_of_turns(rt: HostRuntime) -> Result<(), Fail> {
    let settings = settings_of(rt.alloc(), &[DEVICE])?;
    let forwarders = forwarders(rt.alloc(), &settings)?;
    let alloc = &Refusing::new(rt.alloc());
    let mut run = Run {
        settings: &settings,
        forwarders: &forwarders,
        memory: rt.alloc(),
        own: alloc,
    };
    same(growths_of(alloc, &mut run)?, 122)
}

/// No gateway needs no memory; with one there is an answer or none.
#[test]
fn growths_of_forwarders(rt: HostRuntime) -> Result<(), Fail> {
    let alloc = &Refusing::new(rt.alloc());
    refuse(alloc, (1, true));
    holds(forwarders_of(alloc, &GATEWAYS, &SET).is_err())?;
    holds(forwarders_of(alloc, &[], &SET).is_ok())?;
    alloc.grant();
    Ok(())
}
