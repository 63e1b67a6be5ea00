// What is done at a station, and what is told then, as tables.
ghost use Rattle.std.specs.Prelude.{◌≡◌};

use crate::finishing::{Try, finished};
use crate::looks::{Look, see_all};
use crate::posts::opened;
use crate::steps::{Step, take_steps};
use server_workers::{Blank, Ledger, PARTS};
use std::alloc::Global;
use std::marker::Brand;
use std::sync::Wait;
use std::test::Fail;
use std::thread::Threads;

/// What is done at a station.
#[derive(Clone, Copy)]
pub(crate) struct Plan<'a> {
    pub(crate) gateways: &'a [u16],
    /// It has the devices from address 1 on, so many of them.
    pub(crate) devices: u32,
    /// What comes before the steps.
    pub(crate) before: &'a [Step],
    pub(crate) steps: &'a [Step],
    /// How it is finished, if it is.
    pub(crate) tries: &'a [Try],
    /// What is seen of it then.
    pub(crate) sights: &'a [Look],
    /// What is seen in place of the sights with these places.
    pub(crate) changes: &'a [(usize, Look)],
}

/// Compares what the steps tell, at a station of the gateways 1 and 2 that isn't finished.
pub(crate) fn tells<R: Threads + Wait + Sync>(
    rt: &R,
    alloc: Global,
    devices: u32,
    steps: &[Step],
) -> Result<(), Fail> {
    let plan = Plan {
        gateways: &[2, 1],
        devices,
        before: &[],
        steps,
        tries: &[],
        sights: &[],
        changes: &[],
    };
    runs(rt, alloc, &plan)
}

/// Compares all that is told in the course of a plan.
pub(crate) fn runs<R: Threads + Wait + Sync>(
    rt: &R,
    alloc: Global,
    plan: &Plan,
) -> Result<(), Fail> {
    let blank = Blank::new(PARTS as u64);
    run::<Brand, R>(rt, alloc, blank, plan)
}

/// The same, by a ledger that this blank opens.
fn run<B: Ledger + Send + Sync, R: Threads + Wait + Sync>(
    rt: &R,
    alloc: Global,
    blank: Blank,
    plan: &Plan,
) -> Result<(), Fail>
    requires name { blank.name ≡ B.name }
    requires parts { blank.parts ≡ B.parts }
    requires all { blank.parts ≡ PARTS }
{
    let mut post = opened::<B, R>(rt, alloc, plan.gateways, plan.devices, blank)?;
    take_steps(&mut post, plan.before)?;
    take_steps(&mut post, plan.steps)?;
    let closing = finished(post, plan.tries)?;
    see_all(alloc, closing, plan)
}
