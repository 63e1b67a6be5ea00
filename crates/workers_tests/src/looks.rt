// What is seen of a station that is finished.

use crate::plans::Plan;
use gateway_book::Totals;
use server_core::{Book, DataRate, DeskFault, DeskHeard, Heard1, QueueFault, TakeFault};
use server_workers::Closing;
use std::alloc::Global;
use std::test::Fail;
use test_asserts::{equal_at, holds};
use worked_inputs::{
    COPY, WorkedBook, WorkedDesk, WorkedHasher, answered, book_of, booked, copy_at, passed, queued,
    settled, taken, tried_on, uplink,
};

/// Where one looks, and what is seen there.
#[derive(Clone, Copy)]
pub(crate) enum Look {
    /// What was booked by the tills.
    Booked(u64),
    /// At the desk.
    Desk(AtDesk),
    /// The reservation of the book at the one place that is at the other place, by start.
    Kept(usize, usize, Option<Member>),
    /// The totals of the book at this place.
    Totals(usize, Totals),
}

/// What a desk is asked, and what it answers.
#[derive(Clone, Copy)]
pub(crate) enum AtDesk {
    /// What was sent for this number.
    Sent(u64, Option<OnAir>),
    /// How long this gateway was on air for settled answers.
    Answered(u16, Option<u64>),
    /// Why this number isn't taken, if it isn't; it is given up.
    Take(u64, Option<TakeFault>),
    /// Where the first uplink of the device with this address goes, as gateway 2 heard it until 5,000,000 us.
    Hear(u32, u64, Result<DeskHeard, DeskFault>),
    /// Which number one more pass closes.
    Pass(u64, Option<u64>),
    /// How many payloads wait for the device with this address when this one is queued.
    Queue(u32, &'static [u8], Result<usize, QueueFault>),
    /// What becomes of an uplink of the device with this address and this counter that is heard late, when one more payload is
    /// queued and the uplink answered on an empty book.
    Probe(u32, u32, Late),
}

/// A reservation that a book keeps.
#[derive(Clone, Copy, Debug, PartialEq)]
pub(crate) struct Member {
    pub(crate) number: u64,
    pub(crate) start: u64,
    pub(crate) freq_hz: u32,
    pub(crate) rate: DataRate,
    pub(crate) len: u8,
}

/// By which gateway something was sent, from when on and for how long, both in microseconds.
pub(crate) type OnAir = (u16, u64, u64);

/// What becomes of an uplink that is heard late: how many payloads waited before; whether its device's last uplink had its
/// counter; and its answer, or why no ticket is given.
pub(crate) type Late = (usize, bool, Result<Shown, TakeFault>);

/// What is shown of an answer: its counter, the length of its frame, and its FCtrl.
pub(crate) type Shown = (u32, usize, u8);

/// Compares what is seen of a station, if there is to be something.
pub(crate) fn see_all(
    alloc: Global,
    closing: Option<Closing<WorkedHasher>>,
    plan: &Plan,
) -> Result<(), Fail> {
    match closing {
        Some(mut closing) => see_each(alloc, &mut closing, plan),
        None => holds(plan.sights.is_empty()),
    }
}

/// Compares what is seen of a station.
fn see_each(alloc: Global, closing: &mut Closing<WorkedHasher>, plan: &Plan) -> Result<(), Fail> {
    for (place, look) in plan.sights.iter().enumerate() {
        see(
            alloc,
            closing,
            place,
            changed(plan.changes, place).unwrap_or(*look),
        )?;
    }
    Ok(())
}

/// Where one looks in place of the look at this place, if elsewhere.
fn changed(changes: &[(usize, Look)], place: usize) -> Option<Look> {
    for (other, look) in changes {
        if *other == place {
            return Some(*look);
        }
    }
    None
}

/// Compares what is seen at the look at this place.
fn see(
    alloc: Global,
    closing: &mut Closing<WorkedHasher>,
    place: usize,
    look: Look,
) -> Result<(), Fail> {
    match look {
        Look::Booked(wanted) => equal_at(&place, &closing.booked, &wanted),
        Look::Desk(asked) => ask(alloc, &mut closing.desk, place, asked),
        Look::Kept(book, member, wanted) => {
            equal_at(&place, &kept(alloc, &closing.books, book, member)?, &wanted)
        }
        Look::Totals(book, wanted) => equal_at(&place, &totals(&closing.books, book)?, &wanted),
    }
}

/// Compares what a desk tells at the look at this place.
fn ask(alloc: Global, desk: &mut WorkedDesk, place: usize, asked: AtDesk) -> Result<(), Fail> {
    match asked {
        AtDesk::Sent(number, wanted) => equal_at(&place, &sent(desk, number), &wanted),
        AtDesk::Answered(gateway, wanted) => equal_at(&place, &answered(desk, gateway), &wanted),
        AtDesk::Take(number, wanted) => equal_at(&place, &not_taken(desk, number), &wanted),
        AtDesk::Hear(addr, arrived, wanted) => {
            equal_at(&place, &heard(alloc, desk, addr, arrived)?, &wanted)
        }
        AtDesk::Pass(now, wanted) => equal_at(&place, &passed(desk, now), &wanted),
        AtDesk::Queue(addr, payload, wanted) => {
            equal_at(&place, &queued(desk, addr, 9, payload), &wanted)
        }
        AtDesk::Probe(addr, counter, wanted) => {
            equal_at(&place, &probed(alloc, desk, addr, counter)?, &wanted)
        }
    }
}

/// What was sent for a number.
fn sent(desk: &WorkedDesk, number: u64) -> Option<OnAir> {
    let sent = desk.sent(number)?;
    Some((sent.gateway, sent.start, sent.airtime))
}

/// Why a number isn't taken, if it isn't; else it is given up and settled.
fn not_taken(desk: &mut WorkedDesk, number: u64) -> Option<TakeFault> {
    match taken(desk, number) {
        Ok(ticket) => {
            settled(desk, ticket.give_up());
            None
        }
        Err(fault) => Some(fault),
    }
}

/// Where a device's first uplink goes, as gateway 2 heard it.
fn heard(
    alloc: Global,
    desk: &mut WorkedDesk,
    addr: u32,
    arrived: u64,
) -> Result<Result<DeskHeard, DeskFault>, Fail> {
    let bytes = uplink(alloc, true, addr, 0)?;
    Ok(desk.hear(bytes.as_slice(), copy_at(2), arrived))
}

/// What becomes of an uplink that is heard late.
fn probed(alloc: Global, desk: &mut WorkedDesk, addr: u32, counter: u32) -> Result<Late, Fail> {
    let (number, repeat) = opened_late(alloc, desk, addr, counter)?;
    desk.pass(6_000_000);
    let waiting = desk.queue(addr, 9, &[0; 9])?.saturating_sub(1);
    let mut book = book_of(alloc, 1)?;
    Ok((waiting, repeat, booked_on(desk, &mut book, number)?))
}

/// The number of the gathering that an uplink opens late, and whether its device's last had its counter.
fn opened_late(
    alloc: Global,
    desk: &mut WorkedDesk,
    addr: u32,
    counter: u32,
) -> Result<(u64, bool), Fail> {
    let bytes = uplink(alloc, true, addr, counter)?;
    let late = Heard1 {
        at: 50_000_000,
        ..COPY
    };
    match desk.hear(bytes.as_slice(), late, 5_000_000)? {
        DeskHeard::Opened { n, repeat } => Ok((n, repeat)),
        _ => Err(Fail::from("it opens a gathering")),
    }
}

/// What is shown of an answer that is booked on this book, or why no ticket is given.
fn booked_on(
    desk: &mut WorkedDesk,
    book: &mut WorkedBook,
    number: u64,
) -> Result<Result<Shown, TakeFault>, Fail> {
    let ticket = match taken(desk, number) {
        Ok(ticket) => ticket,
        Err(fault) => return Ok(Err(fault)),
    };
    let counter = ticket.counter();
    let (stub, receipt) = booked(tried_on(ticket, book)).ok_or("it is booked")?;
    settled(desk, stub);
    let frame = receipt.frame.as_slice();
    let control = *frame.get(5).ok_or("it has an FCtrl")?;
    Ok(Ok((counter, frame.len(), control)))
}

/// A reservation of a book.
fn kept(
    alloc: Global,
    books: &[Book<Global>],
    book: usize,
    place: usize,
) -> Result<Option<Member>, Fail> {
    let list = books.get(book).ok_or("there is a book")?.list(alloc)?;
    Ok(
        list.get(place).map(|kept| Member {
            number: kept.number,
            start: kept.start,
            freq_hz: kept.freq_hz,
            rate: kept.rate,
            len: kept.len,
        }),
    )
}

/// The totals of a book.
fn totals(books: &[Book<Global>], book: usize) -> Result<Totals, Fail> {
    Ok(books.get(book).ok_or("there is a book")?.totals())
}
