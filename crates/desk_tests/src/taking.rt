// Tickets as a desk gives them.

use crate::calls::{Answer, Call, OPENED_1, OPENED_2, Row, run, run_amply};
use server_desk::{DeviceSetting, TakeFault};
use std::test::Fail;
use worked_inputs::{AMPLE, DEVICE};

const CLOSED_1: Answer = Answer::Passed(Some(1));

const CLOSED_2: Answer = Answer::Passed(Some(2));

const NOT_READY: Answer = Answer::NotGiven(TakeFault::NotReady);

static NOTHING_IS_OWED: [Row; 7] = [
    (Call::Hear(0), OPENED_1),
    (Call::Pass(200_001), CLOSED_1),
    (Call::Take(1), Answer::NotGiven(TakeFault::Silent)),
    (Call::Take(1), Answer::NotGiven(TakeFault::Silent)),
    (Call::Queue, Answer::Queued(Ok(1))),
    (Call::Take(1), Answer::Given(1, 1, 0)),
    (Call::Take(1), Answer::NotGiven(TakeFault::Taken)),
];

#[test]
fn owes_nothing_to_a_silent_uplink(rt: HostRuntime) -> Result<(), Fail> {
    run_amply(rt.alloc(), &NOTHING_IS_OWED)
}

static CLOSED_ALONE: [Row; 7] = [
    (Call::HearConfirmed(0), OPENED_1),
    (Call::Take(0), NOT_READY),
    (Call::Take(1), NOT_READY),
    (Call::Take(2), NOT_READY),
    (Call::Take(u64::MAX), NOT_READY),
    (Call::Pass(200_001), CLOSED_1),
    (Call::Take(1), Answer::Given(1, 1, 0)),
];

#[test]
fn answers_closed_uplinks_alone(rt: HostRuntime) -> Result<(), Fail> {
    run_amply(rt.alloc(), &CLOSED_ALONE)
}

static ONE_AT_A_TIME: [Row; 9] = [
    (Call::HearConfirmed(0), OPENED_1),
    (Call::HearConfirmed(1), OPENED_2),
    (Call::Pass(200_001), CLOSED_1),
    (Call::Pass(200_001), CLOSED_2),
    (Call::TakeBeside(1, 2), Answer::NotGiven(TakeFault::Engaged)),
    (Call::Take(1), Answer::NotGiven(TakeFault::Taken)),
    (Call::Answered(1), Answer::Airtime(Some(0))),
    (Call::TakeAndSettle(2), Answer::Given(2, 1, 1)),
    (Call::Take(2), Answer::NotGiven(TakeFault::Taken)),
];

#[test]
fn answers_one_uplink_of_a_device_at_a_time(rt: HostRuntime) -> Result<(), Fail> {
    run_amply(rt.alloc(), &ONE_AT_A_TIME)
}

/// A ticket of its device is out, but nothing is owed to it.
static SILENT_FIRST: [Row; 6] = [
    (Call::HearConfirmed(0), OPENED_1),
    (Call::Hear(1), OPENED_2),
    (Call::Pass(200_001), CLOSED_1),
    (Call::Pass(200_001), CLOSED_2),
    (Call::TakeBeside(1, 2), Answer::NotGiven(TakeFault::Silent)),
    (Call::Take(2), Answer::NotGiven(TakeFault::Silent)),
];

#[test]
fn owes_nothing_to_a_silent_uplink_whose_device_has_a_ticket_out(
    rt: HostRuntime,
) -> Result<(), Fail> {
    run_amply(rt.alloc(), &SILENT_FIRST)
}

/// It has one downlink counter left.
const LAST_COUNTER: DeviceSetting = DeviceSetting {
    down: 4_294_967_295,
    ..DEVICE
};

/// The one counter is given; while that ticket is out the device is engaged, and then it has none.
static ENGAGED_FIRST: [Row; 7] = [
    (Call::HearConfirmed(0), OPENED_1),
    (Call::HearConfirmed(1), OPENED_2),
    (Call::Pass(200_001), CLOSED_1),
    (Call::Pass(200_001), CLOSED_2),
    (Call::TakeBeside(1, 2), Answer::NotGiven(TakeFault::Engaged)),
    (Call::Take(1), Answer::NotGiven(TakeFault::Taken)),
    (Call::Take(2), Answer::NotGiven(TakeFault::CounterSpent)),
];

#[test]
fn a_device_whose_last_counter_is_out_is_engaged(rt: HostRuntime) -> Result<(), Fail> {
    run(rt.alloc(), AMPLE, &[LAST_COUNTER], &ENGAGED_FIRST)
}

static STRAY: [Row; 4] = [
    (Call::HearConfirmed(0), OPENED_1),
    (Call::Pass(200_001), CLOSED_1),
    (Call::SettleStray, Answer::Stray),
    (Call::Take(1), Answer::Given(1, 1, 0)),
];

#[test]
fn hands_a_stub_back_that_is_not_out(rt: HostRuntime) -> Result<(), Fail> {
    run_amply(rt.alloc(), &STRAY)
}
