// Why a server doesn't open.
ghost use Rattle.std.specs.Prelude.{◌≡◌};
ghost use Rattle.std.specs.List.{list_any};
ghost use Rattle.serve_opening.specs.Faults.{is_late, is_overspent, opening_fault};

use serve_journal::{JournalDevice, JournalGateway, JournalState};
use std::alloc::Allocator;
use thiserror::Error;

/// The greatest moment of a gateway's clock that a server opens with, in microseconds.
const MOST_HIGH: u64 = 1 << 60;

/// The greatest next downlink counter: all are spent.
const COUNTERS: u64 = 1 << 32;

/// Why a server doesn't open. Where several hold, the first in this order is answered.
#[derive(Clone, Copy, Debug, PartialEq, Eq, Error)]
pub enum OpeningFault {
    /// By the journal the clock of a gateway shows more than 2^60 microseconds.
    #[error("by the journal the clock of a gateway shows more than 2^60 microseconds")]
    Clock,
    /// By the journal the next downlink counter of a device is above 2^32.
    #[error("by the journal the next downlink counter of a device is above 4294967296")]
    Counter,
    /// A growth was refused.
    #[error("there was no memory to open with")]
    NoMemory,
}

/// Why no server opens with what this journal says, if there is a reason.
pub(crate) fn fault_of<A: Allocator + Clone>(state: &JournalState<A>) -> Option<OpeningFault>
    ensures { result ≡ opening_fault state.now }
{
    if is_late(&state.gateways) {
        return Some(OpeningFault::Clock);
    }
    if is_overspent(&state.devices) {
        return Some(OpeningFault::Counter);
    }
    None
}

/// Whether the clock of one of these gateways shows more than it may.
fn is_late<A: Allocator + Clone>(gateways: &[JournalGateway<A>]) -> bool
    ensures { result ≡ list_any is_late gateways.now }
{
    gateways.iter().any(|gateway| gateway.high > MOST_HIGH)
}

/// Whether the next downlink counter of one of these devices is above the greatest.
fn is_overspent<A: Allocator>(devices: &[JournalDevice<A>]) -> bool
    ensures { result ≡ list_any is_overspent devices.now }
{
    devices.iter().any(|device| device.down > COUNTERS)
}
