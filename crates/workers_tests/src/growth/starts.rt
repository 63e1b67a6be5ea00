// A worker starts with a share of a station's till.
ghost use Rattle.std.specs.Prelude.{◌≡◌, IfErr};

use crate::growth::stations::{AtWork, takes};
use refusing_alloc::{Refuser, asked_of, is_as_asked, same};
use server_workers::{Ledger, Station, Till, Worked};
use std::alloc::Allocator;
use std::sync::Wait;
use std::test::Fail;
use worked_inputs::WorkedHasher;

/// How many parts the till has of a worker that starts with this share; without memory the share comes back.
fn started<B: Ledger, A: Allocator + Copy>(memory: A, share: Till<B>) -> Result<u32, Till<B>>
    requires { share ≡ record { parts = 1; amount = 0 } }
    ensures { IfErr result (λ back. back ≡ share) }
{
    match Worked::new(memory, share, 4) {
        Ok(worked) => Ok(worked.till.parts()),
        Err(back) => Err(back),
    }
}

/// Whether a worker didn't start at once with this share; it then starts with what was handed back, which is one part.
fn is_started_without<B: Ledger, A: Allocator + Copy>(
    alloc: &Refuser,
    own: A,
    share: Till<B>,
    number: u64,
) -> Result<bool, Fail>
    requires { share ≡ record { parts = 1; amount = 0 } }
{
    alloc.refuse(number);
    let first = started(own, share);
    let asked = asked_of(alloc);
    let (is_starved, parts) = match first {
        Ok(parts) => (false, Some(parts)),
        Err(back) => (true, started(own, back).ok()),
    };
    same(parts, Some(1))?;
    is_as_asked(asked, number, is_starved, false)
}

/// A worker starts with a share of a till.
#[derive(Drop)]
struct Starts;

impl AtWork for Starts {
    fn is_refused<B: Ledger, A: Allocator + Copy, R: Wait>(
        &self,
        _rt: &R,
        alloc: &Refuser,
        own: A,
        _station: Station<B, WorkedHasher, A>,
        till: Till<B>,
        number: u64,
    ) -> Result<bool, Fail> {
        let mut till = till;
        is_started_without(alloc, own, till.split(), number)
    }
}

// Refuses `server_workers` `Worked::new`: 5, a list each; its Err hands the till back, and names nothing.
#[test]
fn a_worker_starts(rt: HostRuntime) -> Result<(), Fail> {
    takes(&rt, rt.alloc(), 0, &Starts, 5)
}
