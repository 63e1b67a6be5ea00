// The allocator that refuses one growth.

use refusing_alloc::{Refuser, Refusing, same};
use std::alloc::Allocator;
use std::test::Fail;
use std::thread;
use test_asserts::holds;

/// Whether a list of one byte with room for one more, which takes a growth or two, finds memory. It is freed again.
fn is_filled<A: Allocator>(alloc: A) -> bool {
    match Vec::with_capacity(alloc, 1) {
        Ok(mut bytes) => bytes.push(1).is_ok() && bytes.reserve_exact(1).is_ok(),
        Err(_) => false,
    }
}

/// Of so many growths each is refused alone, and then all from the last on, until they are granted.
fn each_is_refused_alone(alloc: &Refuser) -> Result<(), Fail> {
    holds(is_filled(alloc))?;
    let growths = alloc.asked();
    holds(growths > 0)?;
    for number in 1..=growths {
        alloc.refuse(number);
        same(
            (is_filled(alloc), alloc.asked(), is_filled(alloc)),
            (false, number, true),
        )?;
    }
    alloc.refuse_from(growths);
    same([is_filled(alloc), is_filled(alloc)], [false, false])?;
    alloc.grant();
    holds(is_filled(alloc))
}

#[test]
fn only_the_growth_of_the_number_is_refused(rt: HostRuntime) -> Result<(), Fail> {
    each_is_refused_alone(&Refusing::new(rt.alloc()))
}

#[test]
fn another_thread_may_grow_and_free(rt: HostRuntime) -> Result<(), Fail> {
    let alloc = &Refusing::new(rt.alloc());
    same(
        thread::join(&rt, || is_filled(alloc), || is_filled(alloc)),
        (true, true),
    )
}
