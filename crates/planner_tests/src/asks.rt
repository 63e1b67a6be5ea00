// What is asked for in trials, and how it is to be answered.

use gateway_book::{Ask, Refusal};
use radio_airtime::DataRate;
use resv_list::Reservation;
use std::alloc::Global;
use std::test::Fail;

/// What an ask is answered with.
pub(crate) type Answer = Result<Reservation, Refusal>;

/// An ask's number and start, and how it is refused, if it is.
pub(crate) type Row = (u64, u64, Option<Refusal>);

/// Twelve bytes on 863.5 MHz at DR0: 991,232 microseconds on air, of which three fill an hour of the sub-band.
pub(crate) fn ask_in_k(number: u64, start: u64) -> Ask {
    Ask {
        number,
        start,
        freq_hz: 863_500_000,
        rate: DataRate::Dr0,
        len: 12,
    }
}

/// Twelve bytes on 868.1 MHz at DR5: 41,216 microseconds on air.
pub(crate) fn ask_in_m(number: u64, start: u64) -> Ask {
    Ask {
        number,
        start,
        freq_hz: 868_100_000,
        rate: DataRate::Dr5,
        len: 12,
    }
}

/// The asks of such rows.
pub(crate) fn asks_in_m(alloc: Global, rows: &[Row]) -> Result<Vec<Ask, Global>, Fail> {
    let mut asks = Vec::new(alloc);
    for (number, start, _) in rows {
        asks.push(ask_in_m(*number, *start))?;
    }
    Ok(asks)
}

/// The answer to such an ask, which is like this one but for its number and its start.
fn answer_to(row: &Row, like: &Ask) -> Result<Answer, Fail> {
    let (number, start, refusal) = *row;
    match refusal {
        Some(refusal) => Ok(Err(refusal)),
        None => {
            let made = Reservation::new(number, start, like.freq_hz, like.rate, like.len);
            Ok(Ok(made.ok_or("the ask is fit")?))
        }
    }
}

/// The answers to asks like this one.
pub(crate) fn answers_like(
    alloc: Global,
    rows: &[Row],
    like: &Ask,
) -> Result<Vec<Answer, Global>, Fail> {
    let mut answers = Vec::new(alloc);
    for row in rows {
        answers.push(answer_to(row, like)?)?;
    }
    Ok(answers)
}

/// The answers to asks on 868.1 MHz at DR5.
pub(crate) fn answers_in_m(alloc: Global, rows: &[Row]) -> Result<Vec<Answer, Global>, Fail> {
    answers_like(alloc, rows, &ask_in_m(0, 0))
}
