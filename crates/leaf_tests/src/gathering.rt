// Worked gatherings: calls in turn, each with what it is to answer.

use radio_airtime::DataRate;
use std::alloc::Global;
use std::hash::{BuildHasherDefault, FoldHasher};
use std::test::Fail;
use test_asserts::equal_at;
use uplink_gather::{Gather, HearFault, Heard, HeardCopy, Limits, Place};

type Gathered = Gather<BuildHasherDefault<FoldHasher>>;

/// A call, and what it is to answer. An uplink is its one byte, and a copy the gateway that heard it.
enum Step {
    Place(u8, u16, u64, Result<Place, HearFault>),
    Hear(u8, u16, u64, Result<Heard, HearFault>),
    /// The same, at the place that was found for the copy.
    HearAt(u8, u16, u64, Result<Heard, HearFault>),
    Due(u64, Option<u64>),
    Close(u64, bool),
    IsClosed(u64, bool),
    Bytes(u64, &'static [u8]),
    Copies(u64, &'static [u16]),
}

/// More than these gatherings come to.
const AMPLE: Limits = Limits {
    max_open: 16,
    max_ever: 16,
    max_copies: 16,
};

/// How much there may be of everything, and the steps.
static RUNS: [(&str, Limits, &[Step]); 9] = [
    (
        "the copies of one uplink",
        AMPLE,
        &[
            Step::Place(1, 1, 1_000, Ok(Place::Opens)),
            Step::Hear(1, 1, 1_000, Ok(Heard::Opened { n: 1 })),
            Step::Place(1, 1, 1_500, Err(HearFault::SameGateway)),
            Step::Hear(1, 1, 1_500, Err(HearFault::SameGateway)),
            Step::Place(1, 2, 201_000, Ok(Place::Joins(1))),
            Step::Hear(1, 2, 201_000, Ok(Heard::Joined { n: 1, copies: 2 })),
            Step::Copies(1, &[1, 2]),
            Step::Bytes(1, &[1]),
            Step::Due(201_000, None),
            Step::Due(201_001, Some(1)),
            Step::IsClosed(1, false),
            Step::Close(1, true),
            Step::Close(1, false),
            Step::IsClosed(1, true),
            Step::Due(201_001, None),
            Step::Hear(1, 3, 201_001, Err(HearFault::Late)),
            Step::Hear(1, 3, 1_001_000, Err(HearFault::Late)),
            Step::Hear(1, 3, 1_001_001, Ok(Heard::Opened { n: 2 })),
            Step::Copies(2, &[3]),
            Step::Bytes(2, &[1]),
        ],
    ),
    (
        "copies at the place that was found",
        Limits {
            max_open: 1,
            ..AMPLE
        },
        &[
            Step::HearAt(1, 1, 1_000, Ok(Heard::Opened { n: 1 })),
            Step::HearAt(1, 2, 201_000, Ok(Heard::Joined { n: 1, copies: 2 })),
            Step::HearAt(1, 1, 201_000, Err(HearFault::SameGateway)),
            Step::HearAt(2, 1, 201_000, Err(HearFault::Crowded)),
            Step::Copies(1, &[1, 2]),
            Step::Bytes(1, &[1]),
            Step::Close(1, true),
            Step::HearAt(1, 1, 1_001_001, Ok(Heard::Opened { n: 2 })),
            Step::Copies(2, &[1]),
        ],
    ),
    (
        "no more copies than may be",
        Limits {
            max_copies: 1,
            ..AMPLE
        },
        &[
            Step::Hear(1, 1, 1_000, Ok(Heard::Opened { n: 1 })),
            Step::Hear(1, 1, 1_500, Err(HearFault::SameGateway)),
            Step::Hear(1, 2, 201_000, Err(HearFault::TooManyCopies)),
        ],
    ),
    (
        "no more at a time than may be",
        Limits {
            max_open: 1,
            ..AMPLE
        },
        &[
            Step::Hear(1, 1, 1_000, Ok(Heard::Opened { n: 1 })),
            Step::Hear(2, 1, 2_000, Err(HearFault::Crowded)),
            Step::Close(1, true),
            Step::Hear(2, 1, 2_000, Ok(Heard::Opened { n: 2 })),
        ],
    ),
    (
        "no more ever than may be",
        Limits {
            max_ever: 1,
            ..AMPLE
        },
        &[
            Step::Hear(1, 1, 1_000, Ok(Heard::Opened { n: 1 })),
            Step::Close(1, true),
            Step::Hear(2, 1, 2_000, Err(HearFault::Crowded)),
        ],
    ),
    (
        "arrivals in any order",
        AMPLE,
        &[
            Step::Hear(1, 1, 900_000, Ok(Heard::Opened { n: 1 })),
            Step::Hear(1, 2, 0, Ok(Heard::Joined { n: 1, copies: 2 })),
            Step::Hear(2, 1, 100_000, Ok(Heard::Opened { n: 2 })),
            Step::Due(300_001, Some(2)),
            Step::Due(1_100_001, Some(1)),
            Step::Close(1, true),
            Step::Due(1_100_001, Some(2)),
            Step::Due(u64::MAX, Some(2)),
        ],
    ),
    (
        "an earlier copy's gateway",
        AMPLE,
        &[
            Step::Hear(1, 1, 1_000, Ok(Heard::Opened { n: 1 })),
            Step::Hear(1, 2, 1_000, Ok(Heard::Joined { n: 1, copies: 2 })),
            Step::Hear(1, 3, 1_000, Ok(Heard::Joined { n: 1, copies: 3 })),
            Step::Hear(1, 1, 1_000, Err(HearFault::SameGateway)),
        ],
    ),
    (
        "one of three is closed",
        AMPLE,
        &[
            Step::Hear(1, 1, 1_000, Ok(Heard::Opened { n: 1 })),
            Step::Hear(2, 1, 1_000, Ok(Heard::Opened { n: 2 })),
            Step::Hear(3, 1, 1_000, Ok(Heard::Opened { n: 3 })),
            Step::Close(2, true),
            Step::IsClosed(1, false),
            Step::IsClosed(2, true),
            Step::IsClosed(3, false),
            Step::Close(1, true),
            Step::Due(201_001, Some(3)),
        ],
    ),
    (
        "other numbers",
        AMPLE,
        &[
            Step::Hear(1, 1, u64::MAX, Ok(Heard::Opened { n: 1 })),
            Step::Due(u64::MAX, None),
            Step::Close(0, false),
            Step::IsClosed(0, false),
            Step::Copies(0, &[]),
            Step::Bytes(0, &[]),
            Step::Close(2, false),
            Step::IsClosed(2, false),
            Step::Copies(2, &[]),
            Step::Bytes(2, &[]),
            Step::Close(u64::MAX, false),
            Step::IsClosed(u64::MAX, false),
            Step::Copies(u64::MAX, &[]),
            Step::Bytes(u64::MAX, &[]),
        ],
    ),
];

/// A copy that this gateway heard.
fn copy_of(gateway: u16) -> HeardCopy {
    HeardCopy {
        gateway,
        at: 5_000_000,
        freq_hz: 868_100_000,
        rate: DataRate::Dr5,
        snr: -25,
        rssi: -100,
    }
}

/// Whether these are the copies that these gateways heard.
fn are_of(copies: &[HeardCopy], gateways: &[u16]) -> bool {
    copies.len() == gateways.len()
        && copies
            .iter()
            .zip(gateways)
            .all(|(copy, &gateway)| *copy == copy_of(gateway))
}

fn hear(gather: &mut Gathered, byte: u8, gateway: u16, arrived: u64) -> Result<Heard, HearFault> {
    gather.hear(&[byte], copy_of(gateway), arrived)
}

fn hear_at(
    gather: &mut Gathered,
    byte: u8,
    gateway: u16,
    arrived: u64,
) -> Result<Heard, HearFault> {
    let copy = copy_of(gateway);
    match gather.place(&[byte], copy.gateway, arrived) {
        Ok(place) => gather.hear_at(place, &[byte], copy, arrived),
        Err(fault) => Err(fault),
    }
}

/// Whether the call answers as it is to.
fn holds(gather: &mut Gathered, step: &Step) -> bool {
    match *step {
        Step::Place(byte, gateway, arrived, wanted) => gather.place(&[byte], gateway, arrived)
            == wanted,
        Step::Hear(byte, gateway, arrived, wanted) => hear(gather, byte, gateway, arrived)
            == wanted,
        Step::HearAt(byte, gateway, arrived, wanted) => hear_at(gather, byte, gateway, arrived)
            == wanted,
        Step::Due(now, wanted) => gather.due(now) == wanted,
        Step::Close(n, wanted) => gather.close(n) == wanted,
        Step::IsClosed(n, wanted) => gather.is_closed(n) == wanted,
        Step::Bytes(n, wanted) => gather.bytes(n) == wanted,
        Step::Copies(n, gateways) => are_of(gather.copies(n), gateways),
    }
}

/// The place of the first step that doesn't answer as it is to, on gatherings of which there are none yet.
fn first_wrong(alloc: Global, limits: Limits, steps: &[Step]) -> Result<Option<usize>, Fail> {
    let mut gather: Gathered = Gather::new(alloc, BuildHasherDefault::new(), limits)?;
    Ok(steps.iter().position(|step| !holds(&mut gather, step)))
}

#[test]
fn worked_gatherings(rt: HostRuntime) -> Result<(), Fail> {
    for (name, limits, steps) in &RUNS {
        equal_at(name, &first_wrong(rt.alloc(), *limits, steps)?, &None)?;
    }
    Ok(())
}
