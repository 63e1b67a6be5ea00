// Steps at a station, each with what it is to tell.

use crate::asks::{Ask, Heard};
use crate::posts::Post;
use crate::shifts::Shift;
use crate::tickets::{Answer, Fate};
use answer_ticket::{Ending, Outcome};
use server_core::{DeskFault, DeskHeard};
use server_workers::Ledger;
use std::sync::Wait;
use std::test::Fail;
use std::thread::Threads;
use test_asserts::equal_at;

/// A step, and what it is to tell.
#[derive(Clone, Copy)]
pub(crate) enum Step {
    /// The station hears a copy of an uplink, which goes there.
    Hear(Heard, Result<DeskHeard, DeskFault>),
    /// The gateway `1 + addr mod 2` hears the first uplink of each of so many devices, until a million microseconds for each
    /// address. Each opens a gathering, and all are closed, in this order.
    HearAll(u32),
    /// The station is asked.
    Ask(Ask),
    /// The station answers the uplink with this number by itself.
    Answer(u64, Answer),
    /// A ticket is taken for the uplink with this number: whether its stub is settled then, and how the answer ends.
    Take(u64, Fate, bool, Ending),
    /// Workers answer.
    Work(Shift),
    /// Workers answer while a ticket for the uplink with this number is out, which is given up and settled then.
    WorkBeside(u64, Shift),
}

/// Takes these steps, one after another, and compares what each tells.
pub(crate) fn take_steps<B: Ledger + Send + Sync, R: Threads + Wait + Sync>(
    post: &mut Post<'_, B, R>,
    steps: &[Step],
) -> Result<(), Fail> {
    for (place, step) in steps.iter().enumerate() {
        take_step(post, place, *step)?;
    }
    Ok(())
}

/// Takes the step at this place of its table, and compares what it tells.
fn take_step<B: Ledger + Send + Sync, R: Threads + Wait + Sync>(
    post: &mut Post<'_, B, R>,
    place: usize,
    step: Step,
) -> Result<(), Fail> {
    match step {
        Step::Hear(heard, wanted) => equal_at(&place, &post.hear(heard)?, &wanted),
        Step::HearAll(count) => post.hear_all(place, count),
        Step::Ask(ask) => post.ask(place, ask),
        Step::Answer(number, answer) => post.answer(place, number, answer),
        Step::Take(number, fate, is_settled, result) => {
            let wanted = (is_settled, Outcome { number, result });
            equal_at(&place, &post.take(number, fate)?, &wanted)
        }
        Step::Work(shift) => post.work(place, shift),
        Step::WorkBeside(number, shift) => post.work_beside(place, number, shift),
    }
}
