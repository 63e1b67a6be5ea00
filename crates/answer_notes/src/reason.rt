// Why a line was refused, in words.
use crate::asked::Asked;
use std::str;
use text_lines::number_u64;
use thiserror::Error;

/// An hour in microseconds.
const HOUR_US: u64 = 3_600_000_000;

/// Why a line was refused.
#[derive(Clone, Copy, Debug, Error)]
pub(crate) enum Reason {
    #[error("booking {number} lies in no sub-band: {freq_hz} Hz at DR{rate}")]
    NoBand {
        number: u64,
        freq_hz: u32,
        rate: u8,
    },
    #[error("booking {number} is too long: {len} bytes are above the greatest PHYPayload at DR{rate}")]
    TooLong {
        number: u64,
        rate: u8,
        len: u8,
    },
    #[error("booking {number} starts at {start}, so it would end after 2305843009213693952, the last moment there is")]
    PastEnd {
        number: u64,
        start: u64,
    },
    #[error("booking {number} starts at {start}, before the floor, which `tick 0` tells")]
    Passed {
        number: u64,
        start: u64,
    },
    #[error("booking {number} overlaps the transmission that starts at {start}, or its gap; `earliest` finds a free start")]
    Taken {
        number: u64,
        start: u64,
    },
    #[error("booking {number} finds the hour of sub-band {band} from {from} to {end} full: {spent} us of airtime begin in it without this one; `earliest` finds a later start")]
    DutyFull {
        number: u64,
        band: char,
        from: u64,
        end: u64,
        spent: u64,
    },
    #[error("booking {number} is one more than the book may keep: `tick` retires old transmissions, and --cap allows more")]
    Full {
        number: u64,
    },
    #[error("booking {number} would make the airtime ever booked more than 4611686018427387904 us: begin a new book")]
    TotalsFull {
        number: u64,
    },
    #[error("booking {number} finds no memory for one more transmission")]
    NoMemory {
        number: u64,
    },
    #[error("transmission {number} can't be cancelled: its start {start} is not above the floor")]
    Begun {
        number: u64,
        start: u64,
    },
    #[error("no transmission {number} starts at {start}, so none is cancelled")]
    NotHere {
        number: u64,
        start: u64,
    },
    #[error("booking {number} has no start from {not_before} to {last} at which it would be accepted")]
    NoStart {
        number: u64,
        not_before: u64,
        last: u64,
    },
    #[error("{0}")]
    Plain(&'static str),
    #[error("uplink {number}: {why}")]
    Uplink {
        number: u64,
        why: &'static str,
    },
    #[error("uplinks that were never closed: {open}; `pass` closes an uplink more than 200000 us after its first copy")]
    StillOpen {
        open: u64,
    },
}

/// Why a line of a book was refused, by what it asks for and the words of its answer behind `no`.
pub(crate) fn refusal_of_book(asked: Asked, words: &[&[u8]]) -> Option<Reason> {
    let [number, name, numbers @ ..] = words else {
        return None;
    };
    let number = number_u64(number)?;
    let name = str::from_utf8(*name).ok()?;
    match asked {
        Asked::Booking {
            start,
            freq_hz,
            rate,
            len,
        } => match name {
            "NoBand" => Some(Reason::NoBand {
                number,
                freq_hz,
                rate,
            }),
            "TooLong" => Some(Reason::TooLong { number, rate, len }),
            "PastEnd" => Some(Reason::PastEnd { number, start }),
            "Passed" => Some(Reason::Passed { number, start }),
            _ => refusal_by_book(number, name, numbers),
        },
        Asked::TakeOut { start } => match name {
            "Begun" => Some(Reason::Begun { number, start }),
            _ => Some(Reason::NotHere { number, start }),
        },
        Asked::Start { not_before, last } => Some(Reason::NoStart {
            number,
            not_before,
            last,
        }),
        _ => None,
    }
}

/// Why a booking was refused that what the book keeps stands against.
fn refusal_by_book(number: u64, name: &str, numbers: &[&[u8]]) -> Option<Reason> {
    match name {
        "Taken" => Some(Reason::Taken {
            number,
            start: number_u64(*numbers.first()?)?,
        }),
        "DutyFull" => full_hour(number, numbers),
        "Full" => Some(Reason::Full { number }),
        "TotalsFull" => Some(Reason::TotalsFull { number }),
        "NoMemory" => Some(Reason::NoMemory { number }),
        _ => None,
    }
}

/// The hour that is full, by the words BAND FROM SPENT.
fn full_hour(number: u64, words: &[&[u8]]) -> Option<Reason> {
    let [[band], from, spent] = words else {
        return None;
    };
    let from = number_u64(from)?;
    Some(Reason::DutyFull {
        number,
        band: char::from(*band),
        from,
        end: from.saturating_add(HOUR_US),
        spent: number_u64(spent)?,
    })
}
