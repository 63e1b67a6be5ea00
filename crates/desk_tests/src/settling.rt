// Answers that are booked and settled at a desk.

use crate::calls::{Answer, Call, OPENED_1, OPENED_2, Row, run_amply};
use answer_ticket::{Ending, Outcome};
use rx_windows::Window;
use server_desk::TakeFault;
use std::test::Fail;

/// The outcome of an answer with the payload that was booked in RX1 of gateway 1.
const WITH_PAYLOAD: Outcome = Outcome {
    number: 1,
    result: Ending::Answered {
        gateway: 1,
        window: Window::Rx1,
        start: 6_000_000,
        airtime: 189_696,
        carried: true,
    },
};

/// The same of one without a payload.
const WITHOUT_PAYLOAD: Outcome = Outcome {
    number: 1,
    result: Ending::Answered {
        gateway: 1,
        window: Window::Rx1,
        start: 6_000_000,
        airtime: 41_216,
        carried: false,
    },
};

static PAYLOAD_GOES_ALONG: [Row; 9] = [
    (Call::HearConfirmed(0), OPENED_1),
    (Call::HearConfirmed(1), OPENED_2),
    (Call::Pass(200_001), Answer::Passed(Some(1))),
    (Call::Pass(200_001), Answer::Passed(Some(2))),
    (Call::Answered(1), Answer::Airtime(Some(0))),
    (Call::QueueLong, Answer::Queued(Ok(1))),
    (
        Call::Book(1),
        Answer::Booked(
            (6_000_000, 113, 189_696, Some(0x20)),
            Some(0),
            Some(WITH_PAYLOAD),
        ),
    ),
    (Call::Answered(1), Answer::Airtime(Some(189_696))),
    (Call::Queue, Answer::Queued(Ok(1))),
];

#[test]
fn first_window_takes_the_payload_along(rt: HostRuntime) -> Result<(), Fail> {
    run_amply(rt.alloc(), &PAYLOAD_GOES_ALONG)
}

static ON_AIR: [Row; 11] = [
    (Call::HearConfirmed(0), OPENED_1),
    (Call::HearConfirmed(1), OPENED_2),
    (Call::Pass(200_001), Answer::Passed(Some(1))),
    (Call::Pass(200_001), Answer::Passed(Some(2))),
    (Call::Answered(1), Answer::Airtime(Some(0))),
    (
        Call::Book(1),
        Answer::Booked(
            (6_000_000, 12, 41_216, Some(0x20)),
            Some(0),
            Some(WITHOUT_PAYLOAD),
        ),
    ),
    (Call::Answered(1), Answer::Airtime(Some(41_216))),
    (Call::Answered(2), Answer::Airtime(Some(0))),
    (Call::Answered(3), Answer::Airtime(None)),
    (Call::TakeAndSettle(2), Answer::Given(2, 1, 1)),
    (Call::Answered(1), Answer::Airtime(Some(41_216))),
];

#[test]
fn adds_up_how_long_each_gateway_was_on_air(rt: HostRuntime) -> Result<(), Fail> {
    run_amply(rt.alloc(), &ON_AIR)
}

/// The outcome of an answer with a byte of payload.
const WITH_A_BYTE: Outcome = Outcome {
    number: 1,
    result: Ending::Answered {
        gateway: 1,
        window: Window::Rx1,
        start: 6_000_000,
        airtime: 41_216,
        carried: true,
    },
};

/// An unconfirmed uplink is answered, since a payload waits; once that is sent no answer is owed to it any more.
static TAKEN_AND_SILENT: [Row; 5] = [
    (Call::Hear(0), OPENED_1),
    (Call::Pass(200_001), Answer::Passed(Some(1))),
    (Call::Queue, Answer::Queued(Ok(1))),
    (
        Call::Book(1),
        Answer::Booked(
            (6_000_000, 14, 41_216, Some(0x00)),
            Some(0),
            Some(WITH_A_BYTE),
        ),
    ),
    (Call::Take(1), Answer::NotGiven(TakeFault::Taken)),
];

#[test]
fn what_was_taken_is_not_silent(rt: HostRuntime) -> Result<(), Fail> {
    run_amply(rt.alloc(), &TAKEN_AND_SILENT)
}
