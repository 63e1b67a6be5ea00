// A desk that is made.

use refusing_alloc::{Call, Refuser, Refusing, growths_of, same, was_refused};
use server_desk::{Desk, Settings};
use std::alloc::{Allocator, Global};
use std::test::Fail;
use test_asserts::holds;
use worked_inputs::{AMPLE, device, hasher, settings_of};

/// Whether a new desk finds memory.
fn is_made<A: Allocator + Copy>(alloc: A, settings: &Settings<Global>) -> bool {
    Desk::new(alloc, hasher(), settings, AMPLE).is_ok()
}

/// A new desk of these settings, with memory of which growths are refused.
#[derive(Drop)]
struct Making<'m, A: Allocator>(&'m Settings<Global>, A);

/// With the growth of this number refused, and all that follow it. With memory it is made then.
impl<'m, A: Allocator + Copy> Call for Making<'m, A> {
    fn is_refused(&mut self, alloc: &Refuser, number: u64) -> Result<bool, Fail> {
        alloc.refuse_from(number);
        let is_starved = !is_made(self.1, self.0);
        if was_refused(alloc, number, is_starved, true)? {
            holds(is_made(self.1, self.0))?;
        }
        Ok(is_starved)
    }
}

// Refuses `server_desk` `Desk::new`: by size; 7 for one device and two gateways.
#[test]
fn a_desk_is_made(rt: HostRuntime) -> Result<(), Fail> {
    let settings = settings_of(rt.alloc(), &[device(1)])?;
    let alloc = &Refusing::new(rt.alloc());
    same(growths_of(alloc, &mut Making(&settings, alloc))?, 7)
}
