// A day of a station: 500 uplinks that two workers answer, what is asked of it meanwhile, and its end.

use crate::asks::{Ask, Heard};
use crate::done::{Done, NOTHING};
use crate::finishing::Try;
use crate::looks::{AtDesk, Look};
use crate::plans::{Plan, runs};
use crate::shifts::Shift;
use crate::steps::Step;
use crate::wanted::MANY_BOOKED;
use gateway_book::Totals;
use server_core::QueueFault;
use server_workers::{FinishCause, TotalsFault};
use std::test::Fail;

/// The uplinks are answered.
static ANSWERED: [Step; 2] = [
    Step::HearAll(500),
    Step::Work(Shift::Crew(
        (1, 500, 2),
        Ok(Done {
            ran: 2,
            answered: 500,
            receipts: 500,
            are_in_order: true,
            ..NOTHING
        }),
    )),
];

/// What the book of gateway 1 has counted once the answer to number 500 is cancelled.
const ONE_CANCELLED: Totals = Totals {
    cancelled: 41_216,
    kept_airtime: 10_262_784,
    kept: 249,
    ..MANY_BOOKED
};

/// The station is asked this and that; the last receipt is that of number 500, which gateway 1 heard.
static ASKED: [Step; 20] = [
    Step::Ask(Ask::Queue(1, b"x", Ok(1))),
    Step::Ask(Ask::Queue(1, b"x", Ok(2))),
    Step::Ask(Ask::Totals(
        1,
        10_304_001,
        Err(TotalsFault::Behind { booked: 10_304_000 }),
    )),
    Step::Ask(Ask::Totals(
        2,
        20_000_000,
        Err(TotalsFault::Behind { booked: 10_304_000 }),
    )),
    Step::Ask(Ask::Totals(2, 1, Ok(MANY_BOOKED))),
    Step::Ask(Ask::Totals(9, 0, Err(TotalsFault::UnknownGateway))),
    Step::Ask(Ask::Totals(1, 0, Ok(MANY_BOOKED))),
    Step::Ask(Ask::Totals(2, 0, Ok(MANY_BOOKED))),
    Step::Ask(Ask::Cancel(499, Ok(41_216))),
    Step::Ask(Ask::Totals(1, 0, Ok(ONE_CANCELLED))),
    Step::Ask(Ask::Tick(1, 1, Some(1))),
    Step::Ask(Ask::Tick(1, 0, Some(1))),
    Step::Ask(Ask::Totals(
        1,
        0,
        Ok(Totals {
            floor: 1,
            ..ONE_CANCELLED
        }),
    )),
    Step::Ask(Ask::Totals(2, 0, Ok(MANY_BOOKED))),
    Step::Ask(Ask::Tick(2, 7, Some(7))),
    Step::Ask(Ask::Totals(
        1,
        0,
        Ok(Totals {
            floor: 1,
            ..ONE_CANCELLED
        }),
    )),
    Step::Ask(Ask::Totals(
        2,
        0,
        Ok(Totals {
            floor: 7,
            ..MANY_BOOKED
        }),
    )),
    Step::Ask(Ask::Tick(2, 3_700_500_000, Some(3_700_500_000))),
    Step::Ask(Ask::Totals(
        2,
        0,
        Ok(Totals {
            booked: 10_304_000,
            cancelled: 0,
            retired: 2_060_800,
            kept_airtime: 8_243_200,
            kept: 200,
            floor: 3_700_500_000,
        }),
    )),
    Step::Ask(Ask::Queue(501, b"x", Err(QueueFault::UnknownDevice))),
];

/// It is finished without the till, then with the cancelled receipt, which is the last, and then without it.
static TRIES: [Try; 3] = [
    (0, 0, Some(FinishCause::TillMissing)),
    (1, 500, Some(FinishCause::Lost { number: 500 })),
    (1, 499, None),
];

static ENDED: [Look; 2] = [
    Look::Booked(20_608_000),
    Look::Desk(AtDesk::Queue(1, b"x", Ok(3))),
];

#[test]
fn two_workers_answer_500_uplinks(rt: HostRuntime) -> Result<(), Fail> {
    let day = Plan {
        gateways: &[2, 1],
        devices: 500,
        before: &ANSWERED,
        steps: &ASKED,
        tries: &TRIES,
        sights: &ENDED,
        changes: &[],
    };
    runs(&rt, rt.alloc(), &day)
}
