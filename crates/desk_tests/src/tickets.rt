// One confirmed uplink and a payload that fits RX1 alone.

ghost use Rattle.std.specs.Prelude.{IfOk};
ghost use Rattle.answer_ticket.specs.Job.{IsJob};

use answer_ticket::{Bytes, Copies, Ending, Job, NoMemory, Outcome, Receipt, Stub, Ticket};
use gateway_book::{Ask, Refusal};
use lora_frame::{Key, Keys};
use radio_airtime::DataRate;
use rx_windows::{Plan, Window};
use std::alloc::Global;
use std::test::Fail;
use test_asserts::{equal, holds};
use uplink_gather::HeardCopy;
use worked_inputs::{
    ADDR, APP, NWK, WorkedBook, book_of, booked, handed_back, last_refused, next_refused, tried_on,
};

/// The session keys of the device.
fn keys() -> Keys {
    Keys {
        nwk: Key::new(NWK),
        app: Key::new(APP),
    }
}

/// The answer to a confirmed uplink that gateway 1 heard until 5,000,000 us at DR5 on 868.1 MHz, with a payload
/// of 100 bytes on port 9.
fn job(alloc: Global) -> Result<Job<Global>, NoMemory>
    ensures { IfOk result IsJob }
{
    let copy = HeardCopy {
        gateway: 1,
        at: 5_000_000,
        freq_hz: 868_100_000,
        rate: DataRate::Dr5,
        snr: 55,
        rssi: -100,
    };
    let plan = Plan {
        delay: 1,
        offset: 0,
        rx2_freq: 869_525_000,
        rx2_rate: DataRate::Dr0,
        payload: Some(100),
    };
    Ok(Job {
        number: 17,
        addr: ADDR,
        ack: true,
        counter: 0,
        queued: 1,
        body: Some((9, Bytes::new([0x40; 100].to_vec(alloc)?))),
        copies: Copies::new([copy].to_vec(alloc)?),
        plan,
        keys: keys(),
    })
}

/// The ticket for that answer.
fn ticket(alloc: Global) -> Result<Ticket<Global>, NoMemory> {
    Ticket::new(alloc, job(alloc)?)
}

/// What a ticket tells: its number, the gateway to try next, and its counter.
fn told(ticket: &Ticket<Global>) -> (u64, u16, u32) {
    (ticket.number(), ticket.gateway(), ticket.counter())
}

/// What a stub tells, and how its answer ended.
fn ended(stub: Stub) -> (u64, Option<u16>, Outcome) {
    (stub.number(), stub.gateway(), stub.end())
}

/// What a receipt tells: its number, gateway and window, the start, rate and length of the reservation, the length of
/// the frame.
fn receipt_told(receipt: &Receipt<Global>) -> (u64, u16, Window, u64, DataRate, u8, usize) {
    let made = &receipt.reservation;
    (
        receipt.number,
        receipt.gateway,
        receipt.window,
        made.start,
        made.rate,
        made.len,
        receipt.frame.as_slice().len(),
    )
}

/// Whether the frame of a receipt begins with these bytes.
fn begins_with(receipt: &Receipt<Global>, head: &[u8]) -> bool {
    receipt.frame.as_slice().starts_with(head)
}

/// The ending of the answer that gateway 1 sends.
fn answered(
    window: Window,
    start: u64,
    airtime: u64,
    carried: bool,
) -> (u64, Option<u16>, Outcome) {
    let result = Ending::Answered {
        gateway: 1,
        window,
        start,
        airtime,
        carried,
    };
    (17, Some(1), Outcome { number: 17, result })
}

/// A job has its one copy.
fn has_its_copy(job: &Job<Global>) -> Result<(), Fail> {
    let copies = job.copies.as_slice();
    equal(&copies.len(), &1)?;
    equal(&copies[0].at, &5_000_000)
}

/// Bytes are those that were given.
fn has_its_bytes(bytes: &Bytes<Global>) -> Result<(), Fail> {
    equal(&bytes.as_slice(), &[1, 2, 3].as_slice())
}

#[test]
fn lists_are_as_given(rt: HostRuntime) -> Result<(), Fail> {
    has_its_bytes(&Bytes::new([1, 2, 3].to_vec(rt.alloc())?))?;
    has_its_copy(&job(rt.alloc())?)
}

/// The receipt of an answer in RX1, which carries the payload.
fn is_in_rx1(receipt: &Receipt<Global>) -> Result<(), Fail> {
    let wanted = (17, 1, Window::Rx1, 6_000_000, DataRate::Dr5, 113, 113);
    equal(&receipt_told(receipt), &wanted)?;
    let head = [0x60, 0xda, 0x1b, 0x01, 0x26, 0x20, 0, 0, 9];
    holds(begins_with(receipt, &head))
}

/// A book that keeps what this receipt tells, and nothing else.
fn keeps_alone(alloc: Global, book: &WorkedBook, receipt: &Receipt<Global>) -> Result<(), Fail> {
    let members = book.list(alloc)?;
    equal(&members.as_slice(), &[receipt.reservation].as_slice())
}

/// A ticket is booked in RX1.
fn is_booked_in_rx1(alloc: Global, book: &mut WorkedBook) -> Result<(), Fail> {
    let ticket = ticket(alloc)?;
    let shown = told(&ticket);
    let (stub, receipt) = booked(tried_on(ticket, book)).ok_or("it is booked")?;
    equal(
        &(ended(stub), shown),
        &(answered(Window::Rx1, 6_000_000, 189_696, true), (17, 1, 0)),
    )?;
    is_in_rx1(&receipt)?;
    keeps_alone(alloc, book, &receipt)
}

#[test]
fn first_window_carries_the_payload(rt: HostRuntime) -> Result<(), Fail> {
    is_booked_in_rx1(rt.alloc(), &mut book_of(rt.alloc(), 1)?)
}

/// Books what leaves no room for RX1.
fn fill_rx1(book: &mut WorkedBook) -> Result<(), Refusal> {
    book.book(Ask {
        number: 99,
        start: 6_000_000,
        freq_hz: 868_100_000,
        rate: DataRate::Dr5,
        len: 12,
    })?;
    Ok(())
}

/// The receipt of an answer in RX2, where the payload goes on waiting.
fn is_in_rx2(receipt: &Receipt<Global>) -> Result<(), Fail> {
    let wanted = (17, 1, Window::Rx2, 7_000_000, DataRate::Dr0, 12, 12);
    equal(&receipt_told(receipt), &wanted)?;
    let head = [0x60, 0xda, 0x1b, 0x01, 0x26, 0x30, 0, 0];
    holds(begins_with(receipt, &head))
}

/// A ticket that was refused in RX1 is booked in RX2.
fn is_booked_in_rx2(alloc: Global, book: &mut WorkedBook) -> Result<(), Fail> {
    let first = ticket(alloc)?;
    let (ticket, refusal) = next_refused(tried_on(first, book)).ok_or("RX2 follows")?;
    let shown = told(&ticket);
    let (stub, receipt) = booked(tried_on(ticket, book)).ok_or("it is booked")?;
    equal(
        &ended(stub),
        &answered(Window::Rx2, 7_000_000, 991_232, false),
    )?;
    equal(
        &(refusal, shown),
        &(Refusal::Taken { start: 6_000_000 }, (17, 1, 0)),
    )?;
    is_in_rx2(&receipt)
}

#[test]
fn second_window_leaves_the_payload_waiting(rt: HostRuntime) -> Result<(), Fail> {
    let mut book = book_of(rt.alloc(), 1)?;
    fill_rx1(&mut book)?;
    is_booked_in_rx2(rt.alloc(), &mut book)
}

/// A ticket is handed back, and the book of another gateway keeps nothing.
fn is_handed_back(alloc: Global, book: &mut WorkedBook) -> Result<(), Fail> {
    let first = ticket(alloc)?;
    let ticket = handed_back(tried_on(first, book)).ok_or("it is handed back")?;
    let shown = told(&ticket);
    let _ = ended(ticket.give_up());
    equal(&shown, &(17, 1, 0))?;
    equal(&book.totals().kept, &0)
}

#[test]
fn book_of_another_gateway_is_not_asked(rt: HostRuntime) -> Result<(), Fail> {
    is_handed_back(rt.alloc(), &mut book_of(rt.alloc(), 2)?)
}

/// A ticket is refused in both windows, which have passed.
fn is_refused_twice(alloc: Global, book: &mut WorkedBook) -> Result<(), Fail> {
    book.tick(7_000_001);
    let first = ticket(alloc)?;
    let (ticket, refusal) = next_refused(tried_on(first, book)).ok_or("RX2 follows")?;
    let (stub, last) = last_refused(tried_on(ticket, book)).ok_or("RX2 is the last")?;
    let result = Ending::Unanswered(Refusal::Passed);
    equal(&ended(stub), &(17, None, Outcome { number: 17, result }))?;
    equal(&[refusal, last], &[Refusal::Passed, Refusal::Passed])
}

#[test]
fn book_that_refuses_both_windows(rt: HostRuntime) -> Result<(), Fail> {
    is_refused_twice(rt.alloc(), &mut book_of(rt.alloc(), 1)?)
}

#[test]
fn given_up(rt: HostRuntime) -> Result<(), Fail> {
    let stub = ticket(rt.alloc())?.give_up();
    let result = Ending::GivenUp;
    equal(&ended(stub), &(17, None, Outcome { number: 17, result }))?;
    Ok(())
}
