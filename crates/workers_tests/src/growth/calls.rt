// Calls of a station that may take memory, as values, so that a run of them is a table.

use server_core::{DeskFault, DeskHeard, QueueFault};
use server_workers::{Ledger, Station};
use std::alloc::{Allocator, Global};
use std::sync::Wait;
use std::test::Fail;
use worked_inputs::{WorkedHasher, copy_at, uplink};

/// The addresses of the devices are 1 and 2; payloads are queued for the first.
pub(crate) const ADDR: u32 = 1;

/// A call.
#[derive(Clone, Copy)]
pub(crate) enum Call {
    /// Three bytes are queued for the first device.
    Queue,
    /// This gateway hears a confirmed uplink of the device with this address, with this counter, at moment 0 of the server's
    /// clock.
    Hear(u16, u32, u32),
    /// Time passes, until this moment: a gathering that is due is closed.
    Pass(u64),
}

/// What it answers: a word, and up to two numbers.
pub(crate) type Answer = (&'static str, [u64; 2]);

/// There was no memory.
pub(crate) const STARVED: Answer = ("no memory", [0; 2]);

/// What no table has.
const OTHER: Answer = ("other", [0; 2]);

/// A call and its answer.
pub(crate) type Row = (Call, Answer);

/// What a station answers to a call; the bytes of an uplink stand where no growth is refused.
pub(crate) fn answer_to<B: Ledger, A: Allocator + Copy, R: Wait>(
    rt: &R,
    global: Global,
    station: &Station<B, WorkedHasher, A>,
    call: Call,
) -> Result<Answer, Fail> {
    Ok(match call {
        Call::Queue => queued(station.queue(rt, ADDR, 9, &[1, 2, 3])),
        Call::Hear(gateway, addr, counter) => {
            let bytes = uplink(global, true, addr, counter)?;
            heard(station.hear(rt, &bytes, copy_at(gateway), 0))
        }
        Call::Pass(now) => closed(station.pass(rt, now)),
    })
}

/// The number that was closed, or none.
fn closed(number: Option<u64>) -> Answer {
    match number {
        Some(number) => ("closed", [number, 0]),
        None => ("none", [0; 2]),
    }
}

/// How many payloads wait.
fn queued(answer: Result<usize, QueueFault>) -> Answer {
    match answer {
        Ok(count) => ("queued", [count as u64, 0]),
        Err(QueueFault::NoMemory) => STARVED,
        Err(_) => OTHER,
    }
}

/// The gathering that a copy opened, whose uplink had a new counter, or that of its device's last; or that it joined, with the
/// count of its copies.
fn heard(answer: Result<DeskHeard, DeskFault>) -> Answer {
    match answer {
        Ok(DeskHeard::Opened { n, repeat: false }) => ("opened", [n, 0]),
        Ok(DeskHeard::Opened { n, repeat: true }) => ("repeated", [n, 0]),
        Ok(DeskHeard::Joined { n, copies }) => ("joined", [n, copies as u64]),
        Err(DeskFault::SameGateway) => ("same gateway", [0; 2]),
        Err(DeskFault::NoMemory) => STARVED,
        Err(_) => OTHER,
    }
}
