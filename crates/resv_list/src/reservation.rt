ghost use Rattle.std.specs.Prelude.{◌≡◌, ◌↔◌, IsSome, IfSome, Some, ◌<◌};
ghost use Rattle.radio_airtime.specs.TimeOnAir.{airtime_of};
ghost use Rattle.radio_bands.specs.Band.{band_of};
ghost use Rattle.resv_list.specs.Fit.{IsFit, end_at};

use radio_airtime::{DataRate, airtime};
use radio_bands::Band;

/// A transmission that a gateway has reserved: it begins at `start` and lasts as long as its time on
/// air (Semtech SX1276 datasheet, section 4.1.1.7). Its type keeps that its channel lies in a
/// sub-band, that its length is one of its data rate, and that it ends by 2^61.
#[derive(Clone, Copy, Debug, PartialEq, Eq)]
pub struct Reservation {
    /// The caller's number for it.
    pub number: u64,
    /// When it begins, in microseconds of the gateway's clock.
    pub start: u64,
    /// The centre of its channel, in Hz.
    pub freq_hz: u32,
    /// Its data rate.
    pub rate: DataRate,
    /// The length of its PHYPayload, in bytes.
    pub len: u8,
    ghost fit: { IsFit start freq_hz rate len },
}

/// The end of time: no reservation ends above it, in microseconds.
pub const LAST_END: u64 = 1 << 61;

impl Reservation {
    ghost use Rattle.resv_list.specs.Reservations.{airtime_in, is_in};

    /// The reservation with these fields, or `None` where they are not fit.
    pub fn new(number: u64, start: u64, freq_hz: u32, rate: DataRate, len: u8) -> Option<Self>
        ensures fit { IsSome result ↔ IsFit start freq_hz rate len }
        ensures number { IfSome result (λ r. r.number ≡ number) }
        ensures start { IfSome result (λ r. r.start ≡ start) }
        ensures freq_hz { IfSome result (λ r. r.freq_hz ≡ freq_hz) }
        ensures rate { IfSome result (λ r. r.rate ≡ rate) }
        ensures len { IfSome result (λ r. r.len ≡ len) }
    {
        let is_banded = Band::of(freq_hz, rate).is_some();
        let is_timely = start <= LAST_END - airtime(rate, len);
        if is_banded && len <= rate.max_phy() && is_timely {
            Some(Reservation {
                number,
                start,
                freq_hz,
                rate,
                len,
            })
        } else {
            None
        }
    }

    /// Its time on air, in microseconds.
    pub fn airtime(&self) -> u64
        ensures value { result ≡ airtime_of self.now.rate self.now.len }
        ensures positive { 0 < result }
        ensures short { result < 10000000 }
    {
        airtime(self.rate, self.len)
    }

    /// Whether its channel lies in the sub-band.
    pub fn is_in(&self, band: Band) -> bool
        ensures { result ≡ is_in band self.now }
    {
        band.holds(self.freq_hz, self.rate)
    }

    /// Its time on air, in microseconds, where its channel lies in the sub-band, and 0 where it doesn't.
    pub fn airtime_in(&self, band: Band) -> u64
        ensures value { result ≡ airtime_in band self.now }
        ensures short { result < 10000000 }
    {
        if self.is_in(band) { self.airtime() } else { 0 }
    }

    /// When it ends, in microseconds of the gateway's clock.
    pub fn end(&self) -> u64
        ensures { result ≡ end_at self.now.start self.now.rate self.now.len }
    {
        self.start + self.airtime()
    }

    /// The sub-band that its channel lies in.
    pub fn band(&self) -> Band
        ensures { band_of self.now.freq_hz self.now.rate ≡ Some result }
    {
        Band::of(self.freq_hz, self.rate).unwrap()
    }
}
