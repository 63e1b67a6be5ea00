// Calls of a desk as values, so that a run of them is a table.

use answer_ticket::{Outcome, Receipt, Stub, Ticket};
use server_desk::{Desk, DeskFault, DeskHeard, DeviceSetting, Limits, QueueFault, TakeFault};
use std::alloc::Global;
use std::test::Fail;
use test_asserts::equal_at;
use worked_inputs::{
    ADDR, AMPLE, COPY, DEVICE, WorkedBook, WorkedDesk, answered, book_of, booked, desk_of,
    given_up, hasher, heard, passed, queued, settings_of, settled, taken, tried_on, uplink,
};

/// A call of a desk.
#[derive(Clone, Copy)]
pub(crate) enum Call {
    /// Gateway 1 hears an uplink with this counter, unconfirmed.
    Hear(u32),
    /// Gateway 1 hears the first uplink of the device with this address, unconfirmed.
    HearFirst(u32),
    /// Gateway 1 hears an uplink with this counter, confirmed.
    HearConfirmed(u32),
    /// Gateway 1 hears an uplink with this counter whose last byte is turned.
    HearTurned(u32),
    /// Time passes, until this moment.
    Pass(u64),
    /// A byte is queued.
    Queue,
    /// A payload of 100 bytes is queued.
    QueueLong,
    /// A ticket is taken for this number, and given up.
    Take(u64),
    /// A ticket is taken for this number, given up and settled.
    TakeAndSettle(u64),
    /// A ticket is taken for the second number while one for the first is out, which is settled then.
    TakeBeside(u64, u64),
    /// A ticket is taken for this number, booked on gateway 1 and settled.
    Book(u64),
    /// A stub for number 1 of another desk is settled.
    SettleStray,
    /// How long this gateway was on air.
    Answered(u16),
}

/// What was booked: the start, the length, the airtime, and the frame's FCtrl.
type Booked = (u64, u8, u64, Option<u8>);

/// What it answers.
#[derive(Clone, Copy, Debug, PartialEq)]
pub(crate) enum Answer {
    Heard(Result<DeskHeard, DeskFault>),
    Passed(Option<u64>),
    Queued(Result<usize, QueueFault>),
    /// A ticket was given, with this number, this gateway and this downlink counter.
    Given(u64, u16, u32),
    NotGiven(TakeFault),
    /// What was booked; how long gateway 1 was on air before the answer was settled; and its outcome.
    Booked(Booked, Option<u64>, Option<Outcome>),
    /// The stub was handed back.
    Stray,
    Settled(Outcome),
    Airtime(Option<u64>),
}

/// A call and its answer.
pub(crate) type Row = (Call, Answer);

/// What is answered to the copies that open the gatherings 1 and 2.
pub(crate) const OPENED_1: Answer = Answer::Heard(Ok(DeskHeard::Opened {
    n: 1,
    repeat: false,
}));

pub(crate) const OPENED_2: Answer = Answer::Heard(Ok(DeskHeard::Opened {
    n: 2,
    repeat: false,
}));

/// Makes these calls of a desk, with a book of gateway 1, one after another, and compares each answer.
fn call_all(
    alloc: Global,
    desk: &mut WorkedDesk,
    book: &mut WorkedBook,
    table: &[Row],
) -> Result<(), Fail> {
    for (place, (call, answer)) in table.iter().enumerate() {
        equal_at(&place, &answer_to(alloc, desk, book, *call)?, answer)?;
    }
    Ok(())
}

/// The same with a new book.
fn call_all_beside_book(alloc: Global, desk: &mut WorkedDesk, table: &[Row]) -> Result<(), Fail> {
    call_all(alloc, desk, &mut book_of(alloc, 1)?, table)
}

/// A new desk of the gateways 1 and 2 and of these devices.
fn opened(alloc: Global, limits: Limits, devices: &[DeviceSetting]) -> Result<WorkedDesk, Fail> {
    let settings = settings_of(alloc, devices)?;
    Ok(Desk::new(alloc, hasher(), &settings, limits)?)
}

/// Makes these calls of such a desk, and compares each answer.
pub(crate) fn run(
    alloc: Global,
    limits: Limits,
    devices: &[DeviceSetting],
    table: &[Row],
) -> Result<(), Fail> {
    call_all_beside_book(alloc, &mut opened(alloc, limits, devices)?, table)
}

/// The same with one device, and room for more than a run comes to.
pub(crate) fn run_amply(alloc: Global, table: &[Row]) -> Result<(), Fail> {
    run(alloc, AMPLE, &[DEVICE], table)
}

/// What a desk answers to a call.
fn answer_to(
    alloc: Global,
    desk: &mut WorkedDesk,
    book: &mut WorkedBook,
    call: Call,
) -> Result<Answer, Fail> {
    match call {
        Call::Hear(counter) => hear(alloc, desk, false, ADDR, counter),
        Call::HearFirst(addr) => hear(alloc, desk, false, addr, 0),
        Call::HearConfirmed(counter) => hear(alloc, desk, true, ADDR, counter),
        Call::HearTurned(counter) => hear_turned(alloc, desk, counter),
        Call::Pass(now) => Ok(Answer::Passed(passed(desk, now))),
        Call::Queue => Ok(Answer::Queued(queued(desk, ADDR, 9, &[1]))),
        Call::QueueLong => Ok(Answer::Queued(queued(desk, ADDR, 9, &[0x40; 100]))),
        Call::Take(number) => Ok(take(desk, number)),
        Call::TakeAndSettle(number) => Ok(take_and_settle(desk, number)),
        Call::TakeBeside(first, second) => Ok(take_beside(desk, first, second)),
        Call::Book(number) => book_and_settle(desk, book, number),
        Call::SettleStray => settle_stray(alloc, desk),
        Call::Answered(gateway) => Ok(Answer::Airtime(answered(desk, gateway))),
    }
}

/// Gateway 1 hears an uplink with this counter.
fn hear(
    alloc: Global,
    desk: &mut WorkedDesk,
    confirmed: bool,
    addr: u32,
    counter: u32,
) -> Result<Answer, Fail> {
    let frame = uplink(alloc, confirmed, addr, counter)?;
    Ok(Answer::Heard(heard(desk, &frame, COPY, 0)))
}

/// Gateway 1 hears a confirmed uplink with this counter whose last byte is turned.
fn hear_turned(alloc: Global, desk: &mut WorkedDesk, counter: u32) -> Result<Answer, Fail> {
    let mut frame = uplink(alloc, true, ADDR, counter)?;
    if let Some(last) = frame.last_mut() {
        *last ^= 1;
    }
    Ok(Answer::Heard(heard(desk, &frame, COPY, 0)))
}

/// A ticket is taken, which is given up and not settled.
fn take(desk: &mut WorkedDesk, number: u64) -> Answer {
    match taken(desk, number) {
        Ok(ticket) => {
            let (answer, stub) = given(ticket);
            let _ = stub.end();
            answer
        }
        Err(fault) => Answer::NotGiven(fault),
    }
}

/// A ticket is taken, which is given up and settled.
fn take_and_settle(desk: &mut WorkedDesk, number: u64) -> Answer {
    match taken(desk, number) {
        Ok(ticket) => {
            let (answer, stub) = given(ticket);
            settle(desk, stub, answer)
        }
        Err(fault) => Answer::NotGiven(fault),
    }
}

/// A ticket is taken for the second number while one for the first is out, which is settled then.
fn take_beside(desk: &mut WorkedDesk, first: u64, second: u64) -> Answer {
    match taken(desk, first) {
        Ok(ticket) => {
            let answer = take(desk, second);
            settle(desk, given_up(ticket), answer)
        }
        Err(_) => Answer::Stray,
    }
}

/// A stub is settled; the answer that was given before stands where it isn't handed back.
fn settle(desk: &mut WorkedDesk, stub: Stub, answer: Answer) -> Answer {
    match settled(desk, stub) {
        Some(_) => answer,
        None => Answer::Stray,
    }
}

/// What a ticket shows, and what is left of it when it is given up.
fn given(ticket: Ticket<Global>) -> (Answer, Stub) {
    let answer = Answer::Given(ticket.number(), ticket.gateway(), ticket.counter());
    (answer, given_up(ticket))
}

/// The answer to an uplink is booked, and settled.
fn book_and_settle(
    desk: &mut WorkedDesk,
    book: &mut WorkedBook,
    number: u64,
) -> Result<Answer, Fail> {
    let (stub, receipt) = booked(tried_on(taken(desk, number)?, book)).ok_or("it is booked")?;
    let before = answered(desk, 1);
    let outcome = settled(desk, stub);
    Ok(Answer::Booked(shown(&receipt), before, outcome))
}

fn shown(receipt: &Receipt<Global>) -> Booked {
    let made = &receipt.reservation;
    (
        made.start,
        made.len,
        made.airtime(),
        receipt.frame.as_slice().get(5).copied(),
    )
}

/// What a desk makes of a stub of another desk.
fn settle_stray(alloc: Global, desk: &mut WorkedDesk) -> Result<Answer, Fail> {
    let stub = stub_of_another(alloc)?;
    Ok(match settled(desk, stub) {
        Some(outcome) => Answer::Settled(outcome),
        None => Answer::Stray,
    })
}

/// What is left of a ticket for number 1 of a desk that has heard nothing.
fn first_stub(alloc: Global, desk: &mut WorkedDesk) -> Result<Stub, Fail> {
    hear(alloc, desk, true, ADDR, 0)?;
    passed(desk, 200_001);
    Ok(given_up(taken(desk, 1)?))
}

/// The same of another desk.
fn stub_of_another(alloc: Global) -> Result<Stub, Fail> {
    first_stub(alloc, &mut desk_of(alloc, AMPLE, DEVICE)?)
}
