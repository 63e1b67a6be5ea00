// A plain list of asks that forgets nothing, and answers as a book does by looking at all of it.

use gateway_book::{Ask, CancelFault, HOUR, Refusal};
use radio_airtime::{DataRate, airtime};
use radio_bands::{Band, limit_us};
use std::alloc::Global;
use std::test::Fail;

/// How many transmissions are kept here: few enough that a book is full now and then.
pub(crate) const CAP: u32 = 12;

/// All that was ever booked and not cancelled.
#[derive(Drop)]
pub(crate) struct Plain {
    pub(crate) asks: Vec<Ask, Global>,
    pub(crate) floor: u64,
    pub(crate) booked: u64,
    pub(crate) cancelled: u64,
}

/// Twelve bytes at DR0, in the sub-band of the least limit or in another.
pub(crate) fn drawn_ask(number: u64, start: u64) -> Ask {
    let freq_hz = if number % 4 == 0 {
        868_100_000
    } else {
        863_500_000
    };
    Ask {
        number,
        start,
        freq_hz,
        rate: DataRate::Dr0,
        len: 12,
    }
}

fn airtime_of(ask: &Ask) -> u64 {
    airtime(ask.rate, ask.len)
}

fn end_of(ask: &Ask) -> u64 {
    ask.start.saturating_add(airtime_of(ask))
}

/// The lesser of two moments, of which the first may be none.
fn least_of(least: Option<u64>, start: u64) -> Option<u64> {
    match least {
        Some(least) => Some(least.min(start)),
        None => Some(start),
    }
}

/// The airtime of what begins in the hour that opens at `from`, on this channel.
fn spent(asks: &[Ask], freq_hz: u32, from: u64) -> u64 {
    let mut sum: u64 = 0;
    for ask in asks {
        if ask.freq_hz == freq_hz && ask.start >= from && ask.start - from < HOUR {
            sum = sum.saturating_add(airtime_of(ask));
        }
    }
    sum
}

/// Whether the hour that opens at `from` holds what is asked for, and would pass the limit with it.
fn is_overfull(asks: &[Ask], band: Band, ask: &Ask, from: u64) -> bool {
    if from > ask.start || ask.start - from >= HOUR {
        return false;
    }
    spent(asks, ask.freq_hz, from).saturating_add(airtime_of(ask)) > limit_us(band)
}

/// The least start of what overlaps.
fn taken(asks: &[Ask], ask: &Ask) -> Option<u64> {
    let mut least = None;
    for other in asks {
        if end_of(other) > ask.start && end_of(ask) > other.start {
            least = least_of(least, other.start);
        }
    }
    least
}

/// The least opening of an hour that is full.
fn full_from(asks: &[Ask], band: Band, ask: &Ask) -> Option<u64> {
    let mut least = if is_overfull(asks, band, ask, ask.start) {
        Some(ask.start)
    } else {
        None
    };
    for other in asks {
        if other.freq_hz == ask.freq_hz && is_overfull(asks, band, ask, other.start) {
            least = least_of(least, other.start);
        }
    }
    least
}

fn duty_full(asks: &[Ask], ask: &Ask) -> Option<Refusal> {
    let band = Band::of(ask.freq_hz, ask.rate)?;
    let from = full_from(asks, band, ask)?;
    let spent = spent(asks, ask.freq_hz, from);
    Some(Refusal::DutyFull { band, from, spent })
}

/// How many began at most an hour before the floor, so that they are kept, and their airtime.
fn kept_of(asks: &[Ask], floor: u64) -> (usize, u64) {
    let mut kept: (usize, u64) = (0, 0);
    for ask in asks {
        if ask.start.saturating_add(HOUR) >= floor {
            kept = (
                kept.0.saturating_add(1),
                kept.1.saturating_add(airtime_of(ask)),
            );
        }
    }
    kept
}

impl Plain {
    /// How many are kept, and their airtime.
    pub(crate) fn kept(&self) -> (usize, u64) {
        kept_of(self.asks.as_slice(), self.floor)
    }

    fn refusal(&self, ask: &Ask) -> Option<Refusal> {
        if ask.start < self.floor {
            return Some(Refusal::Passed);
        }
        if let Some(start) = taken(self.asks.as_slice(), ask) {
            return Some(Refusal::Taken { start });
        }
        if let Some(refusal) = duty_full(self.asks.as_slice(), ask) {
            return Some(refusal);
        }
        if self.kept().0 == CAP as usize {
            return Some(Refusal::Full);
        }
        None
    }

    /// Takes an ask in where nothing refuses it, and tells what does.
    pub(crate) fn book(&mut self, ask: Ask) -> Result<Option<Refusal>, Fail> {
        let refusal = self.refusal(&ask);
        if refusal.is_none() {
            self.asks.push(ask)?;
            self.booked = self.booked.saturating_add(airtime_of(&ask));
        }
        Ok(refusal)
    }

    /// Takes out what has this number and this start, if it is there.
    fn taken_out(&mut self, number: u64, start: u64) -> Option<Ask> {
        let place = self
            .asks
            .iter()
            .position(|ask| ask.number == number && ask.start == start)?;
        Some(self.asks.remove(place))
    }

    /// Takes out what has not begun, and tells how long it would have been on air, in microseconds.
    pub(crate) fn cancel(&mut self, number: u64, start: u64) -> Result<u64, CancelFault> {
        if start <= self.floor {
            return Err(CancelFault::Begun);
        }
        match self.taken_out(number, start) {
            Some(ask) => {
                self.cancelled = self.cancelled.saturating_add(airtime_of(&ask));
                Ok(airtime_of(&ask))
            }
            None => Err(CancelFault::NotHere),
        }
    }
}
