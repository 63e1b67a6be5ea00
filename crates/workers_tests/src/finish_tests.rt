// A station of two gateways and two devices, finished.

use crate::asks::{Ask, Heard};
use crate::finishing::Try;
use crate::looks::{AtDesk, Look};
use crate::plans::{Plan, runs};
use crate::steps::Step;
use crate::tickets::Fate;
use crate::wanted::{OPENED_1, OPENED_2, RX1_ON_1, RX1_ON_2};
use server_workers::FinishCause;
use std::test::Fail;

/// An uplink of the first device on gateway 1 and one of the second on gateway 2 are closed.
static HEARD: [Step; 4] = [
    Step::Hear(Heard::Of(1, 0), OPENED_1),
    Step::Hear(Heard::By(2, 2, 0), OPENED_2),
    Step::Ask(Ask::Pass(200_001, Some(1))),
    Step::Ask(Ask::Pass(200_001, Some(2))),
];

/// Number 1 is booked and settled.
const SETTLE_1: Step = Step::Take(1, Fate::Settled, true, RX1_ON_1);

/// Number 2 is booked and not settled.
const BOOK_2: Step = Step::Take(2, Fate::Booked, false, RX1_ON_2);

const SPLIT: Step = Step::Ask(Ask::Split(65_535));

const CANCEL_1: Step = Step::Ask(Ask::Cancel(0, Ok(41_216)));

/// What was booked by the tills, and what the desk knows of gateway 1.
const BOOKED: [Look; 2] = [
    Look::Booked(41_216),
    Look::Desk(AtDesk::Answered(1, Some(41_216))),
];

/// Why a station isn't finished: not all tills are there, or the answer to number 1 isn't where its receipt says.
const TILL_MISSING: Option<FinishCause> = Some(FinishCause::TillMissing);

const LOST_1: Option<FinishCause> = Some(FinishCause::Lost { number: 1 });

/// What is done first, how the station is finished, and what is seen then.
type Ending = (&'static [Step], &'static [Try], &'static [Look]);

static ENDINGS: [Ending; 8] = [
    // without tills
    (&[], &[(0, 0, TILL_MISSING)], &[]),
    // without the till that counted, and then with both
    (
        &[SPLIT, SETTLE_1],
        &[(1, 0, TILL_MISSING), (2, 0, None)],
        &BOOKED,
    ),
    // a booking that isn't settled, without the till that counted and then with both
    (
        &[SPLIT, SETTLE_1, CANCEL_1, BOOK_2],
        &[
            (1, 1, TILL_MISSING),
            (
                2,
                1,
                Some(FinishCause::Apart {
                    gateway: 2,
                    booked: 41_216,
                    answered: 0,
                }),
            ),
        ],
        &[],
    ),
    // a receipt that was cancelled, and then without it
    (
        &[SETTLE_1, CANCEL_1],
        &[(1, 1, LOST_1), (1, 0, None)],
        &BOOKED,
    ),
    // a receipt that is kept, and one of another gateway
    (&[SETTLE_1], &[(1, 1, None)], &BOOKED),
    (
        &[SETTLE_1, Step::Ask(Ask::Readdress(0, 9))],
        &[(1, 1, LOST_1)],
        &[],
    ),
    // a receipt that was cancelled, of a gateway that is an hour past RX1's start, and one that is more
    (
        &[
            SETTLE_1,
            CANCEL_1,
            Step::Ask(Ask::Tick(1, 3_606_000_000, Some(3_606_000_000))),
        ],
        &[(1, 1, LOST_1)],
        &[],
    ),
    (
        &[
            SETTLE_1,
            CANCEL_1,
            Step::Ask(Ask::Tick(1, 3_606_000_001, Some(3_606_000_001))),
        ],
        &[(1, 1, None)],
        &BOOKED,
    ),
];

#[test]
fn is_finished_once_all_is_accounted_for(rt: HostRuntime) -> Result<(), Fail> {
    for (steps, tries, sights) in ENDINGS.iter() {
        let plan = Plan {
            gateways: &[2, 1],
            devices: 2,
            before: &HEARD,
            steps,
            tries,
            sights,
            changes: &[],
        };
        runs(&rt, rt.alloc(), &plan)?;
    }
    Ok(())
}
