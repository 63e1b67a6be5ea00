// A station on one thread.
ghost use Rattle.std.specs.Prelude.{◌≡◌};

use crate::asks::{Ask, Heard};
use crate::plans::tells;
use crate::posts::{Post, opened};
use crate::steps::{Step, take_steps};
use crate::tickets::Fate;
use crate::wanted::{ONE_BOOKED, OPENED_1, RX1_ON_1};
use answer_ticket::{Ending, Outcome};
use gateway_book::CancelFault;
use server_core::QueueFault;
use server_workers::{Blank, Gate, Ledger, NoGate, PARTS, TotalsFault};
use std::alloc::Global;
use std::marker::Brand;
use std::sync::Wait;
use std::test::Fail;
use std::thread::Threads;
use test_asserts::{equal, holds};
use worked_inputs::handed_back;

/// An uplink is answered, and the gateways are asked: the totals by those who saw less than the 41,216 us that are booked
/// there, just as much, and more; where nothing is booked; and those of a gateway that isn't there; the floors of both; and the
/// answer is cancelled twice, and once on the other gateway. What is refused leaves the floor.
static CALLS: [Step; 24] = [
    Step::Hear(Heard::Of(1, 0), OPENED_1),
    Step::Ask(Ask::Pass(200_001, Some(1))),
    Step::Ask(Ask::Split(65_535)),
    Step::Take(1, Fate::Settled, true, RX1_ON_1),
    Step::Ask(Ask::Totals(1, 41_216, Ok(ONE_BOOKED))),
    Step::Ask(Ask::Totals(1, 1, Ok(ONE_BOOKED))),
    Step::Ask(Ask::Totals(1, 41_217, Err(TotalsFault::Behind { booked: 41_216 }))),
    Step::Ask(Ask::Totals(1, 1_000_000, Err(TotalsFault::Behind { booked: 41_216 }))),
    Step::Ask(Ask::Totals(1, u64::MAX, Err(TotalsFault::Behind { booked: 41_216 }))),
    Step::Ask(Ask::Totals(2, 1, Err(TotalsFault::Behind { booked: 0 }))),
    Step::Ask(Ask::Totals(2, 1_000_000, Err(TotalsFault::Behind { booked: 0 }))),
    Step::Ask(Ask::Totals(9, 0, Err(TotalsFault::UnknownGateway))),
    Step::Ask(Ask::Tick(1, 1, Some(1))),
    Step::Ask(Ask::Tick(1, 0, Some(1))),
    Step::Ask(Ask::Tick(9, 5, None)),
    Step::Ask(Ask::Cancel(0, Ok(41_216))),
    Step::Ask(Ask::Cancel(0, Err(CancelFault::NotHere))),
    Step::Ask(Ask::Tick(1, 0, Some(1))),
    Step::Ask(Ask::Readdress(0, 9)),
    Step::Ask(Ask::Cancel(0, Err(CancelFault::NotHere))),
    Step::Ask(Ask::Tick(1, 0, Some(1))),
    Step::Ask(Ask::Queue(1, &[1], Ok(1))),
    Step::Ask(Ask::Queue(1, &[2], Ok(2))),
    Step::Ask(Ask::Queue(9, &[2], Err(QueueFault::UnknownDevice))),
];

#[test]
fn answers_an_uplink_and_asks_the_gateways_that_it_has(rt: HostRuntime) -> Result<(), Fail> {
    tells(&rt, rt.alloc(), 1, &CALLS)
}

/// A station hears an uplink, and closes it.
static HEARD: [Step; 2] = [
    Step::Hear(Heard::Of(1, 0), OPENED_1),
    Step::Ask(Ask::Pass(200_001, Some(1))),
];

/// A station without gateway 1 is given the ticket of one that has it.
fn strayed<B: Ledger + Send + Sync, C: Ledger, R: Threads + Wait + Sync>(
    rt: &R,
    alloc: Global,
    blank: Blank,
    other: Blank,
) -> Result<Option<(bool, Outcome)>, Fail>
    requires name { blank.name ≡ B.name }
    requires parts { blank.parts ≡ B.parts }
    requires all { blank.parts ≡ PARTS }
    requires other_name { other.name ≡ C.name }
    requires other_parts { other.parts ≡ C.parts }
    requires other_all { other.parts ≡ PARTS }
{
    let mut post = opened::<B, R>(rt, alloc, &[1], 1, blank)?;
    take_steps(&mut post, &HEARD)?;
    strayed_to::<B, C, R>(&post, other)
}

/// The same, by the ledger of the other, at which an uplink is open before and afterwards.
fn strayed_to<B: Ledger, C: Ledger, R: Wait>(
    post: &Post<'_, B, R>,
    other: Blank,
) -> Result<Option<(bool, Outcome)>, Fail>
    requires name { other.name ≡ C.name }
    requires parts { other.parts ≡ C.parts }
    requires all { other.parts ≡ PARTS }
{
    let mut elsewhere = opened::<C, R>(post.rt, post.alloc, &[2], 1, other)?;
    equal(&elsewhere.hear(Heard::By(1, 2, 0))?, &OPENED_1)?;
    let ended = stray(post, &mut elsewhere)?;
    equal(&elsewhere.station.pass(post.rt, 200_001), &Some(1))?;
    Ok(ended)
}

/// Whether a station hands the ticket of another back, then whether it settles the stub, and how that ended.
fn stray<B: Ledger, C: Ledger, R: Wait>(
    post: &Post<'_, B, R>,
    elsewhere: &mut Post<'_, C, R>,
) -> Result<Option<(bool, Outcome)>, Fail> {
    let tried = elsewhere
        .station
        .try_once(post.rt, post.station.take(post.rt, 1)?);
    let Some(ticket) = handed_back(tried) else {
        return Ok(None);
    };
    Ok(Some(elsewhere.ended(ticket.give_up(), true)))
}

#[test]
fn hands_back_what_is_another_stations(rt: HostRuntime) -> Result<(), Fail> {
    let blank = Blank::new(PARTS as u64);
    let other = Blank::new(PARTS as u64);
    let back = strayed::<Brand, Brand, _>(&rt, rt.alloc(), blank, other)?;
    let given_up = Outcome {
        number: 1,
        result: Ending::GivenUp,
    };
    equal(&back, &Some((false, given_up)))?;
    Ok(())
}

#[test]
fn nobody_waits_at_no_gate() -> Result<(), Fail> {
    holds(NoGate.inside(1))?;
    NoGate.left(1);
    Ok(())
}
