// Frames, and the candidates of an uplink.

use crate::windows::{copy, plan};
use lora_frame::{Body, Down, DownFault, Key, Keys, Up, UpFault, downlink, uplink_bytes};
use refusing_alloc::{Refuser, Refusing};
use rx_windows::candidates;
use std::alloc::Allocator;
use std::test::Fail;
use test_asserts::equal_at;

/// What a downlink and an uplink are refused with, and how many candidates of a copy there are, which are none where there is no
/// memory.
type Told = (Option<DownFault>, Option<UpFault>, usize);

/// How many candidates there are of a copy that ended at five seconds, with no payload.
fn count_of_candidates<A: Allocator>(alloc: A) -> usize {
    match candidates(alloc, &[copy(1, 5_000_000, 0, -100)], &plan(1, 0, None)) {
        Ok(candidates) => candidates.len(),
        Err(_) => 0,
    }
}

fn told<A: Allocator + Copy>(alloc: A, options: &[u8], body: Option<Body<'_>>) -> Told {
    let count = count_of_candidates(alloc);
    let down = &Down {
        addr: 7,
        counter: 1,
        ack: true,
        pending: false,
        body,
    };
    let up = &Up {
        confirmed: true,
        addr: 7,
        counter: 7,
        adr: false,
        adr_ack_req: false,
        ack: false,
        options,
        body: None,
    };
    let keys = &Keys {
        nwk: Key::new([1; 16]),
        app: Key::new([2; 16]),
    };
    (
        downlink(alloc, down, keys).err(),
        uplink_bytes(alloc, up, keys).err(),
        count,
    )
}

/// What is told where the growth of this number is refused, which is that of the candidates, the downlink or the uplink, or none.
fn wanted(number: u64) -> Told {
    match number {
        1 => (None, None, 0),
        2 => (Some(DownFault::NoMemory), None, 2),
        3 => (None, Some(UpFault::NoMemory), 2),
        _ => (None, None, 2),
    }
}

/// Each of the three takes one growth, which is refused once.
fn each_takes_one(alloc: &Refuser, options: &[u8], body: Option<Body<'_>>) -> Result<(), Fail> {
    for number in 1..5 {
        alloc.refuse(number);
        let told = told(alloc, options, body);
        equal_at(&number, &(told, alloc.asked()), &(wanted(number), 3))?;
    }
    Ok(())
}

/// So they do where they are empty, and with options and a payload.
fn they_take(alloc: &Refuser) -> Result<(), Fail> {
    each_takes_one(alloc, &[], None)?;
    let payload = &[3; 100];
    each_takes_one(alloc, &[1, 2, 3], Some(Body { port: 9, payload }))
}

// Refuses `lora_frame` `downlink`: 1.
// Refuses `lora_frame` `uplink_bytes`: 1.
// Refuses `rx_windows` `candidates`: 1, none where there is no copy.
#[test]
fn a_downlink_an_uplink_and_its_candidates(rt: HostRuntime) -> Result<(), Fail> {
    they_take(&Refusing::new(rt.alloc()))
}
