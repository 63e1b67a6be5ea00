// A station's call takes no step but its own: what it leaves of a busy station is seen when the station is finished.

use crate::asks::{Ask, Heard};
use crate::busy::{BUSY, SEEN};
use crate::done::{Done, DoneAlone, NOTHING};
use crate::finishing::Try;
use crate::looks::{AtDesk, Look, Member};
use crate::plans::{Plan, runs};
use crate::shifts::Shift;
use crate::steps::Step;
use crate::tickets::{Answer, Fate};
use crate::wanted::{ONE_BOOKED, OPENED_5, RX2_ON_1, TWO_BOOKED};
use answer_ticket::Ending;
use gateway_book::{Refusal, Totals};
use server_core::{DataRate, DeskFault, QueueFault, TakeFault};
use server_workers::{FinishCause, TotalsFault};
use std::alloc::Global;
use std::sync::Wait;
use std::test::Fail;
use std::thread::Threads;

/// What is seen in place of the sight with this place.
type Change = (usize, Look);

/// A call, and what is seen then in place of the sights with these places.
type Call = (Step, &'static [Change]);

const SENT_3: Change = (
    2,
    Look::Desk(AtDesk::Sent(3, Some((1, 7_000_000, 991_232)))),
);

const ON_AIR_3: Change = (4, Look::Desk(AtDesk::Answered(1, Some(1_032_448))));

const TAKEN_3: Change = (6, Look::Desk(AtDesk::Take(3, Some(TakeFault::Taken))));

const KEPT_3: Change = (
    17,
    Look::Kept(
        0,
        1,
        Some(Member {
            number: 3,
            start: 7_000_000,
            freq_hz: 869_525_000,
            rate: DataRate::Dr0,
            len: 12,
        }),
    ),
);

const TOTALS_3: Change = (
    19,
    Look::Totals(
        0,
        Totals {
            booked: 1_032_448,
            kept_airtime: 1_032_448,
            floor: 3,
            ..TWO_BOOKED
        },
    ),
);

const BOOKED_3: Change = (24, Look::Booked(1_073_664));

/// Number 3 is answered in RX2, since RX1 is taken, and nothing else is done.
const ANSWERED_3: &[Change] = &[SENT_3, ON_AIR_3, TAKEN_3, KEPT_3, TOTALS_3, BOOKED_3];

/// The ticket of number 3 is lost.
const LOST_3: &[Change] = &[
    TAKEN_3,
    (
        13,
        Look::Desk(AtDesk::Probe(3, 0, (0, true, Err(TakeFault::Engaged)))),
    ),
];

/// Number 3 is booked by its second try, and settled.
const BOOK_3: Step = Step::Take(3, Fate::RefusedAndSettled, true, RX2_ON_1);

/// The answer to number 1 is cancelled.
const CANCELLED: Call = (
    Step::Ask(Ask::Cancel(0, Ok(41_216))),
    &[
        (16, Look::Kept(0, 0, None)),
        (
            19,
            Look::Totals(
                0,
                Totals {
                    booked: 41_216,
                    cancelled: 41_216,
                    retired: 0,
                    kept_airtime: 0,
                    kept: 0,
                    floor: 3,
                },
            ),
        ),
    ],
);

static CALLS: [Call; 23] = [
    (
        Step::Ask(Ask::Queue(5, &[2], Ok(2))),
        &[(
            15,
            Look::Desk(AtDesk::Probe(5, 0, (2, false, Ok((0, 14, 48))))),
        )],
    ),
    (
        Step::Hear(Heard::Of(1, 1), OPENED_5),
        &[
            (9, Look::Desk(AtDesk::Pass(2_000_000, Some(5)))),
            (
                11,
                Look::Desk(AtDesk::Probe(1, 1, (0, true, Ok((1, 22, 32))))),
            ),
        ],
    ),
    (
        Step::Ask(Ask::Pass(2_000_000, Some(4))),
        &[
            (
                7,
                Look::Desk(AtDesk::Hear(4, 1_000_100, Err(DeskFault::Late))),
            ),
            (8, Look::Desk(AtDesk::Pass(2_000_000, None))),
        ],
    ),
    (Step::Take(3, Fate::Lost, false, Ending::GivenUp), LOST_3),
    (
        Step::Take(3, Fate::GivenUp, true, Ending::GivenUp),
        &[TAKEN_3],
    ),
    (
        Step::Take(3, Fate::RefusedAndLost, false, Ending::GivenUp),
        LOST_3,
    ),
    (BOOK_3, ANSWERED_3),
    // Whoever answers number 3 books it in RX2; 1 and 2 were taken, and 4 isn't ready.
    (
        Step::Answer(3, Answer::Freely((Some(RX2_ON_1), 0))),
        ANSWERED_3,
    ),
    (
        Step::Work(Shift::Alone(
            4,
            &[1, 2, 3, 4],
            DoneAlone {
                outcomes: 1,
                skipped: &[],
                refused: &[
                    (1, TakeFault::Taken),
                    (2, TakeFault::Taken),
                    (4, TakeFault::NotReady),
                ],
                overrun: 0,
                left: [None, None],
            },
        )),
        ANSWERED_3,
    ),
    (
        Step::Work(Shift::Crew(
            (1, 4, 1),
            Ok(Done {
                ran: 1,
                answered: 1,
                receipts: 1,
                refused: 3,
                ..NOTHING
            }),
        )),
        ANSWERED_3,
    ),
    (
        Step::Work(Shift::Crew(
            (1, 4, 2),
            Ok(Done {
                ran: 2,
                answered: 1,
                receipts: 1,
                refused: 3,
                ..NOTHING
            }),
        )),
        ANSWERED_3,
    ),
    (
        Step::Work(Shift::Crew(
            (3, 3, 3),
            Ok(Done {
                ran: 3,
                answered: 1,
                receipts: 1,
                are_in_order: true,
                ..NOTHING
            }),
        )),
        ANSWERED_3,
    ),
    CANCELLED,
    (
        Step::Ask(Ask::Tick(1, 7, Some(7))),
        &[(
            19,
            Look::Totals(
                0,
                Totals {
                    floor: 7,
                    ..ONE_BOOKED
                },
            ),
        )],
    ),
    (
        Step::Ask(Ask::Totals(
            1,
            0,
            Ok(Totals {
                floor: 3,
                ..ONE_BOOKED
            }),
        )),
        &[],
    ),
    // Refused calls take no step.
    (
        Step::Ask(Ask::Queue(9, &[2], Err(QueueFault::UnknownDevice))),
        &[],
    ),
    (
        Step::Hear(Heard::By(1, 9, 0), Err(DeskFault::UnknownGateway)),
        &[],
    ),
    (Step::Ask(Ask::Pass(200_001, None)), &[]),
    // Number 4 isn't ready, and number 1 was taken.
    (Step::Answer(4, Answer::Freely((None, 0))), &[]),
    (Step::Answer(1, Answer::Freely((None, 0))), &[]),
    (Step::Ask(Ask::Tick(9, 9, None)), &[]),
    (
        Step::Ask(Ask::Totals(2, 1_000_000, Err(TotalsFault::Behind { booked: 41_216 }))),
        &[],
    ),
    (
        Step::Ask(Ask::Totals(9, 0, Err(TotalsFault::UnknownGateway))),
        &[],
    ),
];

/// A busy station is called, and finished in so many tries.
fn calls<R: Threads + Wait + Sync>(
    rt: &R,
    alloc: Global,
    steps: &[Step],
    changes: &[Change],
    tries: &[Try],
) -> Result<(), Fail> {
    let plan = Plan {
        gateways: &[2, 1],
        devices: 5,
        before: &BUSY,
        steps,
        tries,
        sights: &SEEN,
        changes,
    };
    runs(rt, alloc, &plan)
}

/// It is finished at once.
static AT_ONCE: [Try; 1] = [(1, 0, None)];

#[test]
fn each_call_takes_its_own_step_alone(rt: HostRuntime) -> Result<(), Fail> {
    for (step, changes) in CALLS.iter() {
        calls(&rt, rt.alloc(), &[*step], changes, &AT_ONCE)?;
    }
    Ok(())
}

/// An uplink that was heard as number 1 was finds both windows taken once number 3 is booked.
static USED_UP: [Step; 4] = [
    Step::Hear(Heard::Of(5, 0), OPENED_5),
    Step::Ask(Ask::Pass(200_001, Some(5))),
    BOOK_3,
    Step::Take(
        5,
        Fate::RefusedTwice,
        true,
        Ending::Unanswered(Refusal::Taken { start: 7_000_000 }),
    ),
];

/// What was refused to the last uses its counter up, and its payload waits on.
const LEFT_5: &[Change] = &[
    SENT_3,
    ON_AIR_3,
    TAKEN_3,
    (9, Look::Desk(AtDesk::Sent(5, None))),
    (10, Look::Desk(AtDesk::Take(5, Some(TakeFault::Taken)))),
    (
        15,
        Look::Desk(AtDesk::Probe(5, 0, (1, true, Ok((1, 14, 48))))),
    ),
    KEPT_3,
    TOTALS_3,
    BOOKED_3,
];

#[test]
fn the_last_refusal_takes_no_step_at_the_book(rt: HostRuntime) -> Result<(), Fail> {
    calls(&rt, rt.alloc(), &USED_UP, LEFT_5, &AT_ONCE)
}

/// It isn't finished without its till, nor with the receipt of what was cancelled.
static REFUSED_TWICE: [Try; 3] = [
    (0, 0, Some(FinishCause::TillMissing)),
    (1, 2, Some(FinishCause::Lost { number: 1 })),
    (1, 0, None),
];

#[test]
fn a_refused_finish_takes_no_step(rt: HostRuntime) -> Result<(), Fail> {
    let (step, changes) = CANCELLED;
    calls(&rt, rt.alloc(), &[step], changes, &REFUSED_TWICE)
}
