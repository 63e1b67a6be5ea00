// Workers at a station of two gateways, and at one of three.

use crate::asks::{Ask, Heard};
use crate::done::{Done, DoneAlone, NOTHING};
use crate::plans::{Plan, runs, tells};
use crate::shifts::Shift;
use crate::steps::Step;
use crate::wanted::{MANY_BOOKED, ONE_BOOKED, OPENED_1, OPENED_2, OPENED_3, TWO_BOOKED};
use server_core::TakeFault;
use server_workers::ServeCause;
use std::test::Fail;

/// One worker takes them up one after another; the station heard nothing.
static UNHEARD: [Step; 1] = [Step::Work(Shift::Crew(
    (0, 999, 1),
    Ok(Done {
        ran: 1,
        refused: 1_000,
        ..NOTHING
    }),
))];

#[test]
fn a_thousand_numbers_wait_for_one_worker(rt: HostRuntime) -> Result<(), Fail> {
    tells(&rt, rt.alloc(), 1, &UNHEARD)
}

/// As many as one pass may close wait for two, who begin once all of them were sent.
static ALL_UNHEARD: [Step; 1] = [Step::Work(Shift::Crew(
    (1, 4_096, 2),
    Ok(Done {
        ran: 2,
        refused: 4_096,
        ..NOTHING
    }),
))];

#[test]
fn as_many_numbers_wait_as_a_pass_may_close(rt: HostRuntime) -> Result<(), Fail> {
    tells(&rt, rt.alloc(), 1, &ALL_UNHEARD)
}

/// Each gateway books half of the answers.
static FIVE_HUNDRED: [Step; 4] = [
    Step::HearAll(500),
    Step::Work(Shift::Crew(
        (1, 500, 16),
        Ok(Done {
            ran: 16,
            answered: 500,
            receipts: 500,
            are_in_order: true,
            ..NOTHING
        }),
    )),
    Step::Ask(Ask::Totals(1, 0, Ok(MANY_BOOKED))),
    Step::Ask(Ask::Totals(2, 0, Ok(MANY_BOOKED))),
];

#[test]
fn sixteen_workers_answer_five_hundred_devices(rt: HostRuntime) -> Result<(), Fail> {
    tells(&rt, rt.alloc(), 500, &FIVE_HUNDRED)
}

/// Each worker goes on once it has asked the gate often enough, and tells so; so does one who works alone.
static SHUT_OUT: [Step; 3] = [
    Step::HearAll(4),
    Step::Work(Shift::ShutOut(
        (1, 3, 2),
        Done {
            ran: 2,
            answered: 3,
            receipts: 3,
            overrun: 3,
            are_in_order: true,
            ..NOTHING
        },
    )),
    Step::Work(Shift::ShutOut(
        (4, 4, 1),
        Done {
            ran: 1,
            answered: 1,
            receipts: 1,
            overrun: 1,
            are_in_order: true,
            ..NOTHING
        },
    )),
];

#[test]
fn workers_whom_no_gate_lets_in_go_on(rt: HostRuntime) -> Result<(), Fail> {
    tells(&rt, rt.alloc(), 4, &SHUT_OUT)
}

/// The till is handed back with all its parts.
static TOO_FEW_AND_TOO_MANY: [Step; 2] = [
    Step::Work(Shift::Crew((1, 1, 0), Err((ServeCause::Workers, 65_536)))),
    Step::Work(Shift::Crew((1, 1, 17), Err((ServeCause::Workers, 65_536)))),
];

#[test]
fn one_to_sixteen_workers_serve(rt: HostRuntime) -> Result<(), Fail> {
    tells(&rt, rt.alloc(), 1, &TOO_FEW_AND_TOO_MANY)
}

/// With room for one number it is given two; the second is left. No gate lets it in, and it goes on. With room for two it
/// answers one of each of two channels, though it stopped at the end of the first. All three answers stay booked.
static ONE_OF_TWO: [Step; 5] = [
    Step::HearAll(4),
    Step::Work(Shift::One(
        1,
        (&[1, 2], &[]),
        DoneAlone {
            outcomes: 1,
            skipped: &[],
            refused: &[],
            overrun: 1,
            left: [Some(2), None],
        },
    )),
    Step::Work(Shift::One(
        2,
        (&[3], &[4]),
        DoneAlone {
            outcomes: 2,
            skipped: &[],
            refused: &[],
            overrun: 2,
            left: [None, None],
        },
    )),
    Step::Ask(Ask::Totals(1, 0, Ok(ONE_BOOKED))),
    Step::Ask(Ask::Totals(2, 0, Ok(TWO_BOOKED))),
];

#[test]
fn a_worker_stops_without_room_and_goes_on_at_another_channel(rt: HostRuntime) -> Result<(), Fail> {
    tells(&rt, rt.alloc(), 4, &ONE_OF_TWO)
}

/// It is given both uplinks of a device whose first ticket is out, and a number that is unknown. An uplink that wasn't closed is
/// open then as before.
static PASSED_OVER: [Step; 7] = [
    Step::Hear(Heard::Of(1, 0), OPENED_1),
    Step::Hear(Heard::Of(1, 1), OPENED_2),
    Step::Ask(Ask::Pass(200_001, Some(1))),
    Step::Ask(Ask::Pass(200_001, Some(2))),
    Step::Hear(Heard::Of(2, 0), OPENED_3),
    Step::WorkBeside(
        1,
        Shift::One(
            3,
            (&[1, 2, 9], &[]),
            DoneAlone {
                outcomes: 0,
                skipped: &[2],
                refused: &[(1, TakeFault::Taken), (9, TakeFault::NotReady)],
                overrun: 0,
                left: [None, None],
            },
        ),
    ),
    Step::Ask(Ask::Pass(200_001, Some(3))),
];

#[test]
fn a_worker_tells_whom_it_passed_over(rt: HostRuntime) -> Result<(), Fail> {
    tells(&rt, rt.alloc(), 2, &PASSED_OVER)
}

/// Two workers are given the second uplink of a device whose first ticket is out.
static ENGAGED: [Step; 5] = [
    Step::Hear(Heard::Of(1, 0), OPENED_1),
    Step::Hear(Heard::Of(1, 1), OPENED_2),
    Step::Ask(Ask::Pass(200_001, Some(1))),
    Step::Ask(Ask::Pass(200_001, Some(2))),
    Step::WorkBeside(
        1,
        Shift::Crew(
            (2, 2, 2),
            Ok(Done {
                ran: 2,
                skipped: &[2],
                ..NOTHING
            }),
        ),
    ),
];

#[test]
fn workers_skip_an_engaged_device(rt: HostRuntime) -> Result<(), Fail> {
    tells(&rt, rt.alloc(), 1, &ENGAGED)
}

/// Each lets the other go on: they are inside at once, and each leaves its gateway once.
static MET: [Step; 5] = [
    Step::Hear(Heard::Of(1, 0), OPENED_1),
    Step::Hear(Heard::By(2, 2, 0), OPENED_2),
    Step::Ask(Ask::Pass(200_001, Some(1))),
    Step::Ask(Ask::Pass(200_001, Some(2))),
    Step::Work(Shift::Meeting(
        (1, 2, 2),
        Done {
            ran: 2,
            answered: 2,
            receipts: 2,
            are_in_order: true,
            ..NOTHING
        },
        [1, 1, 1, 0],
    )),
];

#[test]
fn two_workers_are_at_two_gateways_at_once(rt: HostRuntime) -> Result<(), Fail> {
    tells(&rt, rt.alloc(), 2, &MET)
}

/// Two have the same gateway to ask, of whom the second is refused once.
static ONE_GATEWAY: [Step; 5] = [
    Step::Hear(Heard::Of(1, 0), OPENED_1),
    Step::Hear(Heard::Of(2, 0), OPENED_2),
    Step::Ask(Ask::Pass(200_001, Some(1))),
    Step::Ask(Ask::Pass(200_001, Some(2))),
    Step::Work(Shift::Slow(
        (1, 2, 2),
        Done {
            ran: 2,
            answered: 2,
            receipts: 2,
            are_in_order: true,
            ..NOTHING
        },
        false,
    )),
];

#[test]
fn a_worker_has_the_lock_while_it_asks_the_gate(rt: HostRuntime) -> Result<(), Fail> {
    tells(&rt, rt.alloc(), 2, &ONE_GATEWAY)
}

/// Each waits until all three are inside, which takes a thread for each.
static ALL_MET: [Step; 7] = [
    Step::Hear(Heard::Of(1, 0), OPENED_1),
    Step::Hear(Heard::By(2, 2, 0), OPENED_2),
    Step::Hear(Heard::By(3, 3, 0), OPENED_3),
    Step::Ask(Ask::Pass(200_001, Some(1))),
    Step::Ask(Ask::Pass(200_001, Some(2))),
    Step::Ask(Ask::Pass(200_001, Some(3))),
    Step::Work(Shift::Meeting(
        (1, 3, 3),
        Done {
            ran: 3,
            answered: 3,
            receipts: 3,
            are_in_order: true,
            ..NOTHING
        },
        [1, 1, 1, 1],
    )),
];

#[test]
fn three_workers_are_at_three_gateways_at_once(rt: HostRuntime) -> Result<(), Fail> {
    let plan = Plan {
        gateways: &[2, 3, 1],
        devices: 3,
        before: &[],
        steps: &ALL_MET,
        tries: &[],
        sights: &[],
        changes: &[],
    };
    runs(&rt, rt.alloc(), &plan)
}
