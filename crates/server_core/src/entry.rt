// What one thread answers.

use crate::{DeskFault, DeskHeard, QueueFault, TakeFault};
use answer_ticket::Bytes;
use gateway_book::{CancelFault, Refusal};
use rx_windows::Candidate;
use std::alloc::Allocator;

/// One line of the answer to an event.
#[derive(Drop)]
pub struct Entry<A: Allocator> {
    /// The place of its event, counted from 0.
    pub event: usize,
    /// What it says.
    pub line: Line<A>,
}

/// What a line of an answer says.
#[derive(Drop)]
pub enum Line<A: Allocator> {
    /// A payload was queued; so many wait for the device with this address now.
    Queued { addr: u32, count: usize },
    /// A payload was not queued.
    NotQueued(QueueFault),
    /// A copy of an uplink was taken in.
    Heard(DeskHeard),
    /// A copy of an uplink was not taken in.
    NotHeard(DeskFault),
    /// No answer is owed to the uplink with this number.
    Silent { number: u64 },
    /// No ticket was given for the uplink with this number, for another reason.
    NotTaken { number: u64, fault: TakeFault },
    /// This candidate was booked as the answer to the uplink with this number.
    Send { number: u64, candidate: Candidate },
    /// The frame that its gateway is to send: the bytes of PHYPayload.
    Frame { number: u64, bytes: Bytes<A> },
    /// Every candidate was refused; this is why the last one was.
    Unanswered { number: u64, refusal: Refusal },
    /// The answer to the uplink with this number could not be settled: the desk handed its stub back. One thread that works
    /// at one desk has no such line.
    Stray { number: u64 },
    /// What was booked for the uplink with this number was cancelled, of this time on air in microseconds.
    Cancelled { number: u64, airtime: u64 },
    /// What was booked for the uplink with this number, if anything was, was not cancelled, and why.
    NotCancelled { number: u64, fault: CancelFault },
    /// The gateway's floor, in microseconds of its clock.
    Floor { gateway: u16, floor: u64 },
    /// No gateway has the tick's number.
    NotTicked,
    /// The line with this number can't be read.
    Bad { line: u64 },
}
