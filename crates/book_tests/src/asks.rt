// What books are asked for, and numbers that look random.

use gateway_book::{Ask, GatewayBook};
use radio_airtime::DataRate;
use resv_list::Roster;
use std::test::Fail;
use test_asserts::holds_at;

/// Twelve bytes on 868.1 MHz at DR5, in sub-band M: 41,216 microseconds on air.
pub(crate) fn ask_in_m(number: u64, start: u64) -> Ask {
    Ask {
        number,
        start,
        freq_hz: 868_100_000,
        rate: DataRate::Dr5,
        len: 12,
    }
}

/// Twelve bytes at DR0, with its start as its number: 991,232 microseconds on air.
pub(crate) fn slow_ask(start: u64, freq_hz: u32) -> Ask {
    Ask {
        number: start,
        start,
        freq_hz,
        rate: DataRate::Dr0,
        len: 12,
    }
}

/// The same in sub-band K, where three fill an hour.
pub(crate) fn ask_in_k(start: u64) -> Ask {
    slow_ask(start, 863_500_000)
}

/// Books so many in sub-band M, 100 seconds apart, each of which is accepted.
pub(crate) fn book_spaced<R: Roster>(book: &mut GatewayBook<R>, count: u64) -> Result<(), Fail> {
    for number in 0..count {
        let answer = book.book(ask_in_m(number, number.saturating_mul(100_000_000)));
        holds_at(&number, answer.is_ok())?;
    }
    Ok(())
}

/// The next of some numbers that look random (Knuth's MMIX).
pub(crate) fn drawn_after(number: u64) -> u64 {
    number
        .wrapping_mul(6_364_136_223_846_793_005)
        .wrapping_add(1_442_695_040_888_963_407)
}
