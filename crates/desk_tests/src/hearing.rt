// Copies of uplinks at a desk, and how many uplinks it has room for: of those that are gathered at one time, and of all.

use crate::calls::{Answer, Call, OPENED_1, OPENED_2, Row, run};
use server_core::USUAL_LIMITS;
use server_desk::{DeskFault, DeskHeard, DeviceSetting, Limits};
use std::alloc::Global;
use std::test::Fail;
use test_asserts::equal;
use worked_inputs::{ADDR, COPY, DEVICE, copy_at, desk_of, heard, uplink};

/// One uplink at a time.
const ONE_OPEN: Limits = Limits {
    max_open: 1,
    max_ever: 16,
    max_copies: 16,
};

const CROWDED: Answer = Answer::Heard(Err(DeskFault::Crowded));

static MIC_BEFORE_ROOM: [Row; 7] = [
    (Call::Hear(0), OPENED_1),
    (Call::Hear(1), CROWDED),
    (Call::HearTurned(1), Answer::Heard(Err(DeskFault::BadMic))),
    (
        Call::HearFirst(9),
        Answer::Heard(Err(DeskFault::UnknownDevice)),
    ),
    (Call::Pass(200_000), Answer::Passed(None)),
    (Call::Pass(200_001), Answer::Passed(Some(1))),
    (Call::Pass(200_001), Answer::Passed(None)),
];

#[test]
fn looks_at_the_mic_before_the_room(rt: HostRuntime) -> Result<(), Fail> {
    run(rt.alloc(), ONE_OPEN, &[DEVICE], &MIC_BEFORE_ROOM)
}

/// One uplink at a time, and two in all.
const SCARCE: Limits = Limits {
    max_open: 1,
    max_ever: 2,
    max_copies: 64,
};

static THREE_DEVICES: [DeviceSetting; 3] = [
    DeviceSetting { addr: 1, ..DEVICE },
    DeviceSetting { addr: 2, ..DEVICE },
    DeviceSetting { addr: 3, ..DEVICE },
];

static TWO_IN_ALL: [Row; 7] = [
    (Call::HearFirst(1), OPENED_1),
    (Call::HearFirst(2), CROWDED),
    (Call::Pass(200_001), Answer::Passed(Some(1))),
    (Call::HearFirst(2), OPENED_2),
    (Call::HearFirst(3), CROWDED),
    (Call::Pass(200_001), Answer::Passed(Some(2))),
    (Call::HearFirst(3), CROWDED),
];

#[test]
fn a_desk_has_room_as_its_limits_say(rt: HostRuntime) -> Result<(), Fail> {
    run(rt.alloc(), SCARCE, &THREE_DEVICES, &TWO_IN_ALL)
}

/// One copy of an uplink.
const ONE_COPY: Limits = Limits {
    max_open: 16,
    max_ever: 16,
    max_copies: 1,
};

/// What a desk with room for one copy answers to two copies of an uplink that gateway 1 heard, and to one of gateway 2.
fn heard_thrice(alloc: Global) -> Result<[Result<DeskHeard, DeskFault>; 3], Fail> {
    let mut desk = desk_of(alloc, ONE_COPY, DEVICE)?;
    let frame = uplink(alloc, true, ADDR, 0)?;
    Ok([
        heard(&mut desk, &frame, COPY, 0),
        heard(&mut desk, &frame, COPY, 0),
        heard(&mut desk, &frame, copy_at(2), 0),
    ])
}

#[test]
fn a_desk_keeps_as_many_copies_as_its_limits_say(rt: HostRuntime) -> Result<(), Fail> {
    let opened = DeskHeard::Opened {
        n: 1,
        repeat: false,
    };
    equal(
        &heard_thrice(rt.alloc())?,
        &[
            Ok(opened),
            Err(DeskFault::SameGateway),
            Err(DeskFault::TooManyCopies),
        ],
    )
}

#[test]
fn a_server_has_room_for_a_million_uplinks() -> Result<(), Fail> {
    let Limits {
        max_open,
        max_ever,
        max_copies,
    } = USUAL_LIMITS;
    equal(&(max_open, max_ever, max_copies), &(4_096, 1_000_000, 64))
}
