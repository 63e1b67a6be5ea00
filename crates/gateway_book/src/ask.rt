ghost use Rattle.std.specs.Prelude.{◌≡◌, [], ◌∷◌, MatchOption, IsOkAnd};
ghost use Rattle.gateway_book.specs.Answer.{IsAsked, first_some, no_band, too_long, past_end};

use crate::Refusal;
use radio_airtime::DataRate;
use radio_bands::Band;
use resv_list::Reservation;

/// A transmission that is asked for: the fields of a reservation, unchecked.
#[derive(Clone, Copy, Debug, PartialEq, Eq)]
pub struct Ask {
    /// The caller's number for it.
    pub number: u64,
    /// When it is to begin, in microseconds of the gateway's clock.
    pub start: u64,
    /// The centre of its channel, in Hz.
    pub freq_hz: u32,
    /// The data rate.
    pub rate: DataRate,
    /// The length of its PHYPayload, in bytes.
    pub len: u8,
}

/// The reservation with the asked fields, or why they are not fit for one.
pub(crate) fn fitted(ask: Ask) -> Result<Reservation, Refusal>
    ensures { MatchOption (first_some (no_band ask ∷ too_long ask ∷ past_end ask ∷ [])) (IsOkAnd result (IsAsked ask))
        (λ refusal. result ≡ Err refusal) }
{
    if Band::of(ask.freq_hz, ask.rate).is_none() {
        return Err(Refusal::NoBand);
    }
    if ask.len > ask.rate.max_phy() {
        return Err(Refusal::TooLong);
    }
    Reservation::new(ask.number, ask.start, ask.freq_hz, ask.rate, ask.len).ok_or(Refusal::PastEnd)
}
