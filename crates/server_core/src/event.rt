// What happens at a server, and the steps that one thread makes of it.

use crate::Heard1;
use answer_ticket::Bytes;
use std::alloc::Allocator;

/// What happens at a server, in the order in which one thread is given it.
#[derive(Drop)]
pub enum Event<A: Allocator> {
    /// A payload is queued for the device with this address: FPort and FRMPayload, not encrypted.
    Queue {
        addr: u32,
        port: u8,
        payload: Bytes<A>,
    },
    /// A copy of the uplink with these bytes is heard. It arrives at this moment, in microseconds of the server's
    /// clock.
    Hear {
        bytes: Bytes<A>,
        heard: Heard1,
        arrived: u64,
    },
    /// Time passes for the gatherings, until `now` of the server's clock, in microseconds. All that are due are closed
    /// one by one, the least number first, and each is answered before the next is closed.
    Pass {
        now: u64,
    },
    /// Time passes for a gateway, until `now` of its clock, in microseconds.
    Tick {
        gateway: u16,
        now: u64,
    },
    /// What was booked for the uplink with this number is cancelled.
    Cancel {
        number: u64,
    },
    /// A line of this number that can't be read; nothing is done.
    Bad {
        line: u64,
    },
}

/// What happens in one holding of one lock.
#[derive(Drop)]
pub enum Step<A: Allocator> {
    /// A payload is queued for the device with this address.
    Queue {
        addr: u32,
        port: u8,
        payload: Bytes<A>,
    },
    /// A copy of the uplink with these bytes is heard, and arrives at this moment, in microseconds of the server's clock.
    Hear {
        bytes: Bytes<A>,
        heard: Heard1,
        arrived: u64,
    },
    /// The gathering with the least number of those that are due is closed, if one is: time has passed until `now` of the
    /// server's clock, in microseconds.
    Pass {
        now: u64,
    },
    /// A ticket is asked for, for the uplink with this number.
    Take {
        number: u64,
    },
    /// The answer to the uplink with this number is settled.
    Settle {
        number: u64,
    },
    /// The candidate is tried at which the ticket of the uplink with this number stands.
    Try {
        number: u64,
    },
    /// What was booked for the uplink with this number is cancelled.
    Cancel {
        number: u64,
    },
    /// Time passes for a gateway, until `now` of its clock, in microseconds.
    Tick {
        gateway: u16,
        now: u64,
    },
}
