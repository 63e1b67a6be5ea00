// What a desk and a server tell of a device.

use server_core::{Counters, Server, USUAL_LIMITS, empty_books};
use std::alloc::Global;
use std::test::Fail;
use test_asserts::equal;
use worked_inputs::{ADDR, AMPLE, DEVICE, desk_of, hasher, queued, settings_of};

const OPENED: Counters = Counters { up: None, down: 0 };

#[test]
fn a_desk_tells_a_device_s_counters_and_payloads(rt: HostRuntime) -> Result<(), Fail> {
    let mut desk = desk_of(rt.alloc(), AMPLE, DEVICE)?;
    equal(&queued(&mut desk, ADDR, 9, &[1, 2]), &Ok(1))?;
    equal(&desk.device(ADDR), &Some(OPENED))?;
    equal(&desk.device(ADDR ^ 1), &None)?;
    equal(&desk.waiting(ADDR ^ 1).len(), &0)?;
    let [(port, payload)] = desk.waiting(ADDR) else {
        return Err(Fail::from("one payload waits"));
    };
    equal(&(*port, payload.as_slice()), &(9, [1, 2].as_slice()))
}

/// What a server that has heard nothing tells of its device, and how many books it has.
fn told(alloc: Global) -> Result<(Option<Counters>, usize, usize), Fail> {
    let settings = settings_of(alloc, &[DEVICE])?;
    let books = empty_books(alloc, &settings)?;
    let server = Server::resumed(alloc, hasher(), &settings, USUAL_LIMITS, books)?;
    let waiting = server.waiting(ADDR).len();
    Ok((server.device(ADDR), waiting, server.into_books().len()))
}

#[test]
fn a_server_tells_the_same_and_gives_its_books_back(rt: HostRuntime) -> Result<(), Fail> {
    let gateways = settings_of(rt.alloc(), &[DEVICE])?.gateways().len();
    equal(&told(rt.alloc())?, &(Some(OPENED), 0, gateways))
}
