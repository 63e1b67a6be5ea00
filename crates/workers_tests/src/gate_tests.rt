// Workers at gates, and what they do where a gateway refuses them.

use crate::asks::{Ask, Heard};
use crate::plans::tells;
use crate::steps::Step;
use crate::tickets::Answer;
use crate::wanted::{
    OPENED_1, OPENED_2, OPENED_3, OPENED_4, RX1_ON_1, RX1_ON_2, RX2_ON_1, RX2_ON_2,
};
use answer_ticket::Ending;
use gateway_book::Refusal;
use rx_windows::Window;
use server_core::DeskHeard;
use std::test::Fail;

/// The gate is asked ten million times, and no more; one who is let in at the last of these isn't counted.
static SHUT_OUT: [Step; 3] = [
    Step::HearAll(2),
    Step::Answer(
        1,
        Answer::ShutOut(
            0,
            (
                Some(Ending::Answered {
                    gateway: 2,
                    window: Window::Rx1,
                    start: 2_000_000,
                    airtime: 41_216,
                    carried: false,
                }),
                1,
            ),
            [0, 10_000_000],
        ),
    ),
    Step::Answer(
        2,
        Answer::ShutOut(
            10_000_000,
            (
                Some(Ending::Answered {
                    gateway: 1,
                    window: Window::Rx1,
                    start: 3_000_000,
                    airtime: 41_216,
                    carried: false,
                }),
                0,
            ),
            [10_000_000, 0],
        ),
    ),
];

#[test]
fn one_who_is_never_let_in_goes_on(rt: HostRuntime) -> Result<(), Fail> {
    tells(&rt, rt.alloc(), 2, &SHUT_OUT)
}

/// One of two devices finds RX1 taken, and is tried twice: the gate is asked ten million times for each try.
static SHUT_OUT_TWICE: [Step; 6] = [
    Step::Hear(Heard::Of(1, 0), OPENED_1),
    Step::Hear(Heard::Of(2, 0), OPENED_2),
    Step::Ask(Ask::Pass(200_001, Some(1))),
    Step::Ask(Ask::Pass(200_001, Some(2))),
    Step::Answer(1, Answer::Freely((Some(RX1_ON_1), 0))),
    Step::Answer(2, Answer::ShutOut(0, (Some(RX2_ON_1), 2), [20_000_000, 0])),
];

#[test]
fn each_try_asks_the_gate_ten_million_times(rt: HostRuntime) -> Result<(), Fail> {
    tells(&rt, rt.alloc(), 2, &SHUT_OUT_TWICE)
}

static AUDITED: [Step; 2] = [Step::HearAll(1), Step::Answer(1, Answer::Audited(41_216))];

#[test]
fn the_lock_is_free_when_a_worker_has_left(rt: HostRuntime) -> Result<(), Fail> {
    tells(&rt, rt.alloc(), 1, &AUDITED)
}

/// Two devices need gateway 1 at the same moment.
static CROWDED: [Step; 6] = [
    Step::Hear(Heard::Of(1, 0), OPENED_1),
    Step::Hear(Heard::Of(2, 0), OPENED_2),
    Step::Ask(Ask::Pass(200_001, Some(1))),
    Step::Ask(Ask::Pass(200_001, Some(2))),
    Step::Answer(1, Answer::Logged((Some(RX1_ON_1), 0), 16)),
    Step::Answer(2, Answer::Logged((Some(RX2_ON_1), 0), 1_616)),
];

#[test]
fn a_worker_leaves_once_per_try(rt: HostRuntime) -> Result<(), Fail> {
    tells(&rt, rt.alloc(), 2, &CROWDED)
}

/// A third device finds both windows taken, and so does a fourth, whose worker asks what the gateway has booked when it has left.
static FULL: [Step; 12] = [
    Step::Hear(Heard::Of(1, 0), OPENED_1),
    Step::Hear(Heard::Of(2, 0), OPENED_2),
    Step::Hear(Heard::Of(3, 0), OPENED_3),
    Step::Hear(Heard::Of(4, 0), OPENED_4),
    Step::Ask(Ask::Pass(200_001, Some(1))),
    Step::Ask(Ask::Pass(200_001, Some(2))),
    Step::Ask(Ask::Pass(200_001, Some(3))),
    Step::Ask(Ask::Pass(200_001, Some(4))),
    Step::Answer(1, Answer::Freely((Some(RX1_ON_1), 0))),
    Step::Answer(2, Answer::Freely((Some(RX2_ON_1), 0))),
    Step::Answer(
        3,
        Answer::Logged(
            (
                Some(Ending::Unanswered(Refusal::Taken { start: 7_000_000 })),
                0,
            ),
            1_616,
        ),
    ),
    Step::Answer(4, Answer::Audited(1_032_448)),
];

#[test]
fn a_worker_leaves_after_the_last_refusal(rt: HostRuntime) -> Result<(), Fail> {
    tells(&rt, rt.alloc(), 4, &FULL)
}

/// A payload of three bytes goes with the answer.
static LADEN: [Step; 4] = [
    Step::Ask(Ask::Queue(1, &[7, 8, 9], Ok(1))),
    Step::Hear(Heard::Of(1, 0), OPENED_1),
    Step::Ask(Ask::Pass(200_001, Some(1))),
    Step::Answer(
        1,
        Answer::Freely((
            Some(Ending::Answered {
                gateway: 1,
                window: Window::Rx1,
                start: 6_000_000,
                airtime: 46_336,
                carried: true,
            }),
            0,
        )),
    ),
];

#[test]
fn a_worker_tells_that_a_payload_was_carried(rt: HostRuntime) -> Result<(), Fail> {
    tells(&rt, rt.alloc(), 1, &LADEN)
}

/// The third of three uplinks finds RX1 taken on both gateways that heard it, of which the second heard it better.
static THIRD_TRY: [Step; 10] = [
    Step::Hear(Heard::Of(1, 0), OPENED_1),
    Step::Hear(Heard::By(2, 2, 0), OPENED_2),
    Step::Hear(Heard::Of(3, 0), OPENED_3),
    Step::Hear(
        Heard::By(3, 2, 1),
        Ok(DeskHeard::Joined { n: 3, copies: 2 }),
    ),
    Step::Ask(Ask::Pass(200_001, Some(1))),
    Step::Ask(Ask::Pass(200_001, Some(2))),
    Step::Ask(Ask::Pass(200_001, Some(3))),
    Step::Answer(1, Answer::Freely((Some(RX1_ON_1), 0))),
    Step::Answer(2, Answer::Freely((Some(RX1_ON_2), 0))),
    Step::Answer(3, Answer::Logged((Some(RX2_ON_2), 0), 271_627)),
];

#[test]
fn a_worker_goes_on_after_two_refusals(rt: HostRuntime) -> Result<(), Fail> {
    tells(&rt, rt.alloc(), 3, &THIRD_TRY)
}
