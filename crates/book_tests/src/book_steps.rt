// The calls of a book, each with what it is to answer.

use crate::asks::{ask_in_k, ask_in_m, slow_ask};
use gateway_book::{Ask, CancelFault, GatewayBook, Refusal};
use radio_bands::Band;
use resv_list::Roster;

/// A call, and what it is to answer; an ask answers when its reservation ends.
pub(crate) enum Step {
    /// An ask in sub-band M: its number and its start.
    InM(u64, u64, Result<u64, Refusal>),
    /// An ask in sub-band K, where three fill an hour: its start.
    InK(u64, Result<u64, Refusal>),
    /// An ask in sub-band P: its start.
    InP(u64, Result<u64, Refusal>),
    /// So many asks in sub-band P that touch, from 0 on, each of which is taken.
    ManyInP(u64),
    /// So many asks in sub-band M, an hour and a microsecond apart from 0 on, each of which is taken after a tick to its start.
    HoursInM(u64),
    Cancel(u64, u64, Result<u64, CancelFault>),
    Tick(u64),
    Busiest(Band, Option<(u64, u64)>),
    /// The earliest start of an ask in sub-band M: its own start, and the first and the last that are allowed.
    EarliestInM(u64, u64, u64, Option<u64>),
    /// The same in sub-band K.
    EarliestInK(u64, u64, u64, Option<u64>),
    /// The airtime that was booked, that was cancelled, that was retired and that is kept, how many are kept, and the floor.
    Totals([u64; 6]),
}

fn end_of<R: Roster>(book: &mut GatewayBook<R>, ask: Ask) -> Result<u64, Refusal> {
    Ok(book.book(ask)?.end())
}

fn in_p(start: u64) -> Ask {
    slow_ask(start, 869_525_000)
}

fn takes_many_in_p<R: Roster>(book: &mut GatewayBook<R>, count: u64) -> bool {
    for place in 0..count {
        if book.book(in_p(place.wrapping_mul(991_232))).is_err() {
            return false;
        }
    }
    true
}

fn takes_hours_in_m<R: Roster>(book: &mut GatewayBook<R>, count: u64) -> bool {
    for number in 0..count {
        let start = number.wrapping_mul(3_600_000_001);
        book.tick(start);
        if end_of(book, ask_in_m(number, start)) != Ok(start.wrapping_add(41_216)) {
            return false;
        }
    }
    true
}

fn totals_of<R: Roster>(book: &GatewayBook<R>) -> [u64; 6] {
    let all = book.totals();
    [
        all.booked,
        all.cancelled,
        all.retired,
        all.kept_airtime,
        all.kept as u64,
        all.floor,
    ]
}

/// Whether the call answers as it is to.
pub(crate) fn is_answered<R: Roster>(book: &mut GatewayBook<R>, step: &Step) -> bool {
    match step {
        Step::InM(number, start, wanted) => end_of(book, ask_in_m(*number, *start)) == *wanted,
        Step::InK(start, wanted) => end_of(book, ask_in_k(*start)) == *wanted,
        Step::InP(start, wanted) => end_of(book, in_p(*start)) == *wanted,
        Step::ManyInP(count) => takes_many_in_p(book, *count),
        Step::HoursInM(count) => takes_hours_in_m(book, *count),
        Step::Cancel(number, start, wanted) => book.cancel(*number, *start) == *wanted,
        Step::Tick(now) => {
            book.tick(*now);
            true
        }
        Step::Busiest(band, wanted) => book.busiest(*band) == *wanted,
        Step::EarliestInM(start, from, last, wanted) => {
            book.earliest(ask_in_m(3, *start), *from, *last) == *wanted
        }
        Step::EarliestInK(start, from, last, wanted) => {
            book.earliest(ask_in_k(*start), *from, *last) == *wanted
        }
        Step::Totals(wanted) => totals_of(book) == *wanted,
    }
}
