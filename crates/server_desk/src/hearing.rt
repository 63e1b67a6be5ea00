// What is looked at in a copy of an uplink beside what the desk keeps, and what is told of it.

ghost use Rattle.std.specs.Prelude.{◌≡◌, ◌==◌, false};
ghost use Rattle.server_desk.specs.Register.{is_among};
ghost use Rattle.std.specs.Option.{option_map_or};
ghost use Rattle.rx_windows.specs.Windows.{rate_numbered};
ghost use Rattle.server_desk.specs.Hearing.{copy_fault, copy_of, named_fault};
ghost use Rattle.server_desk.specs.Invariant.{desk_answer};

use crate::{DeskFault, DeskHeard, Heard1};
use radio_airtime::DataRate;
use radio_bands::Band;
use uplink_gather::{HearFault, Heard, HeardCopy};

/// The last moment that is accepted, in microseconds.
const LAST_MOMENT: u64 = 1 << 60;

/// What is wrong with a copy's own numbers, where the gateways have these numbers.
pub(crate) fn copy_fault(gateways: &[u16], heard: &Heard1, arrived: u64) -> Option<DeskFault>
    ensures { result ≡ copy_fault gateways.now heard.now arrived }
{
    if !has_gateway(gateways, heard.gateway) {
        return Some(DeskFault::UnknownGateway);
    }
    let Some(rate) = DataRate::from_number(heard.rate) else {
        return Some(DeskFault::NoRate);
    };
    if Band::of(heard.freq_hz, rate).is_none() {
        return Some(DeskFault::NoBand);
    }
    if heard.at > LAST_MOMENT || arrived > LAST_MOMENT {
        return Some(DeskFault::Moment);
    }
    None
}

/// Whether a gateway has this number.
pub(crate) fn has_gateway(gateways: &[u16], id: u16) -> bool
    ensures { result ≡ is_among gateways.now id }
{
    gateways.iter().any(|gateway| *gateway == id)
}

/// The data rate with this number; DR6 where there is none.
fn rate_numbered(number: u8) -> DataRate
    ensures { result ≡ rate_numbered number }
{
    DataRate::from_number(number).unwrap_or(DataRate::Dr6)
}

/// The copy as it is gathered.
pub(crate) fn copy_of(heard: &Heard1) -> HeardCopy
    ensures { result ≡ copy_of heard.now }
{
    HeardCopy {
        gateway: heard.gateway,
        at: heard.at,
        freq_hz: heard.freq_hz,
        rate: rate_numbered(heard.rate),
        snr: heard.snr,
        rssi: heard.rssi,
    }
}

/// The gathering's fault, as the desk names it.
pub(crate) fn named_fault(fault: HearFault) -> DeskFault
    ensures { result ≡ named_fault fault }
{
    match fault {
        HearFault::SameGateway => DeskFault::SameGateway,
        HearFault::TooManyCopies => DeskFault::TooManyCopies,
        HearFault::Late => DeskFault::Late,
        HearFault::Crowded => DeskFault::Crowded,
        HearFault::NoMemory => DeskFault::NoMemory,
    }
}

/// Whether a device's last counter, where there is one, is this one.
pub(crate) fn is_last(last: Option<u32>, counter: u32) -> bool
    ensures { result ≡ option_map_or (λ x. x == counter) last false }
{
    last.is_some_and(|last| last == counter)
}

/// The gathering's answer, as the desk gives it.
pub(crate) fn desk_answer(
    answer: Result<Heard, HearFault>,
    repeat: bool,
) -> Result<DeskHeard, DeskFault>
    ensures { result ≡ desk_answer repeat answer }
{
    match answer {
        Ok(Heard::Opened { n }) => Ok(DeskHeard::Opened { n, repeat }),
        Ok(Heard::Joined { n, copies }) => Ok(DeskHeard::Joined { n, copies }),
        Err(fault) => Err(named_fault(fault)),
    }
}
