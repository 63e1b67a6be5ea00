// Books at the end of a run beside a desk: what is amiss is told, the first of it where there is more.

use answer_ticket::Receipt;
use book_audit::{FinishCause, compare};
use gateway_book::Ask;
use radio_airtime::DataRate;
use server_desk::Heard1;
use std::alloc::Global;
use std::test::Fail;
use test_asserts::equal_at;
use worked_inputs::{
    ADDR, AMPLE, COPY, DEVICE, WorkedBook, WorkedDesk, book_of, booked, desk_of, heard, passed,
    settled, taken, tried_on, uplink,
};

/// This gateway hears an uplink, the counter tells how many seconds after the first, and answers it on an empty book.
fn answer(
    alloc: Global,
    desk: &mut WorkedDesk,
    gateway: u16,
    counter: u32,
) -> Result<Receipt<Global>, Fail> {
    let copy = Heard1 {
        gateway,
        at: COPY.at.saturating_add(1_000_000 * counter as u64),
        ..COPY
    };
    heard(desk, &uplink(alloc, true, ADDR, counter)?, copy, 0)?;
    let number = passed(desk, 200_001).ok_or("it is due")?;
    let mut book = book_of(alloc, gateway)?;
    let (stub, receipt) = booked(tried_on(taken(desk, number)?, &mut book)).ok_or("it is booked")?;
    settled(desk, stub).ok_or("it is settled")?;
    Ok(receipt)
}

/// A desk whose gateways answered an uplink each, one after another, with 41,216 microseconds, and the receipts.
fn desk_that_answered(
    alloc: Global,
    gateways: &[u16],
) -> Result<(WorkedDesk, Vec<Receipt<Global>>), Fail> {
    let mut desk = desk_of(alloc, AMPLE, DEVICE)?;
    let mut receipts = Vec::new(alloc);
    let mut counter = 0u32;
    for gateway in gateways {
        receipts.push(answer(alloc, &mut desk, *gateway, counter)?)?;
        counter = counter.saturating_add(1);
    }
    Ok((desk, receipts))
}

/// A gateway's book that keeps these numbers, from moment 0 on a second apart, each with as much airtime.
fn book_keeping(alloc: Global, gateway: u16, numbers: &[u64]) -> Result<WorkedBook, Fail> {
    let mut book = book_of(alloc, gateway)?;
    let mut start = 0u64;
    for number in numbers {
        book.book(Ask {
            number: *number,
            start,
            freq_hz: 868_100_000,
            rate: DataRate::Dr5,
            len: 12,
        })?;
        start = start.saturating_add(1_000_000);
    }
    Ok(book)
}

/// What each gateway's book keeps, by the numbers.
type Kept = &'static [(u16, &'static [u64])];

/// The books that keep this.
fn shelf_of(alloc: Global, kept: Kept) -> Result<Vec<(u16, WorkedBook)>, Fail> {
    let mut shelf = Vec::new(alloc);
    for (gateway, numbers) in kept {
        shelf.push((*gateway, book_keeping(alloc, *gateway, *numbers)?))?;
    }
    Ok(shelf)
}

/// The gateways that answered, what the books keep, whether the receipts are shown, and what is told.
type Row = (&'static [u16], Kept, bool, Result<(), FinishCause>);

/// A number that one book keeps twice, and one that two books keep.
const TWICE: FinishCause = FinishCause::Doubled {
    number: 1,
    gateway: 1,
    other: 1,
};

const ON_BOTH: FinishCause = FinishCause::Doubled {
    number: 1,
    gateway: 1,
    other: 2,
};

/// More was booked than answered.
const APART: FinishCause = FinishCause::Apart {
    gateway: 1,
    booked: 82_432,
    answered: 41_216,
};

/// Gateway 2 answered, and its book has nothing, or it has none.
const UNBOOKED: FinishCause = FinishCause::Apart {
    gateway: 2,
    booked: 0,
    answered: 41_216,
};

/// Gateway 1 answered nothing.
const UNANSWERED: FinishCause = FinishCause::Apart {
    gateway: 1,
    booked: 41_216,
    answered: 0,
};

/// The receipts are of other starts than what is kept.
const LOST: FinishCause = FinishCause::Lost { number: 1 };

/// Of two numbers that stand twice the least is named. The books come before gateways without one, in their order.
static ROWS: [Row; 10] = [
    (&[1, 1], &[(1, &[1, 2])], false, Ok(())),
    (&[1, 1], &[(1, &[1, 1])], false, Err(TWICE)),
    (&[1, 1, 1, 1], &[(1, &[2, 1, 2, 1])], false, Err(TWICE)),
    (&[1, 2], &[(1, &[1])], false, Err(UNBOOKED)),
    (&[1, 2], &[(2, &[]), (1, &[])], false, Err(UNBOOKED)),
    (&[2], &[(1, &[1])], false, Err(UNANSWERED)),
    (&[1, 2], &[(1, &[1]), (2, &[1])], false, Err(ON_BOTH)),
    (&[1], &[(1, &[1, 1])], true, Err(APART)),
    (&[1, 1], &[(1, &[1, 1])], true, Err(TWICE)),
    (&[1, 1], &[(1, &[1, 2])], true, Err(LOST)),
];

/// What a comparison of a row's books with its desk tells.
fn compared(alloc: Global, row: &Row) -> Result<Result<(), FinishCause>, Fail> {
    let (gateways, kept, are_shown, _) = row;
    let (desk, receipts) = desk_that_answered(alloc, *gateways)?;
    let shelf = shelf_of(alloc, *kept)?;
    let shown = if *are_shown { receipts.len() } else { 0 };
    Ok(compare(alloc, &desk, &shelf, &receipts[..shown]))
}

#[test]
fn what_is_amiss_with_books_is_told(rt: HostRuntime) -> Result<(), Fail> {
    for (place, row) in ROWS.iter().enumerate() {
        equal_at(&place, &compared(rt.alloc(), row)?, &row.3)?;
    }
    Ok(())
}
