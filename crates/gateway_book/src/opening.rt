// What a book may be opened with.
ghost use Rattle.std.specs.Prelude.{◌≡◌};
ghost use Rattle.gateway_book.specs.Opening.{open_fault};

use resv_list::MAX_MEMBERS;
use thiserror::Error;

/// The greatest number of transmissions that a book may keep: as many as a roster may have.
pub const MAX_CAP: u32 = MAX_MEMBERS as u32;

/// The greatest gap between two transmissions, in microseconds.
pub const MAX_GAP: u32 = 100_000;

/// Why no book was opened. Where both hold, the first in this order is answered.
#[derive(Clone, Copy, Debug, PartialEq, Eq, Error)]
pub enum OpenFault {
    /// The cap is 0 or above 65,536 members.
    #[error("the cap of a book is 1 to 65,536 transmissions")]
    BadCap,
    /// The gap is above 100,000 us.
    #[error("the gap between two transmissions is 0 to 100,000 microseconds")]
    BadGap,
}

impl OpenFault {
    ghost use Rattle.gateway_book.specs.Opening.{name_of};

    /// The fault's own name, as a program prints it.
    pub fn name(self) -> &'static str
        ensures { result.now ≡ name_of self }
    {
        match self {
            OpenFault::BadCap => "BadCap",
            OpenFault::BadGap => "BadGap",
        }
    }
}

/// Why no book is opened with this cap, 1 to 65,536 transmissions, and this gap, 0 to 100,000 microseconds, if there is a reason.
/// The cap is looked at first.
pub fn open_fault(cap: u32, gap: u32) -> Option<OpenFault>
    ensures { result ≡ open_fault (record { cap = cap; gap = gap }) }
{
    if cap == 0 || cap > MAX_CAP {
        return Some(OpenFault::BadCap);
    }
    if gap > MAX_GAP {
        return Some(OpenFault::BadGap);
    }
    None
}
