// What several tables want: where uplinks go, how answers end, and what books have counted.

use answer_ticket::Ending;
use gateway_book::Totals;
use rx_windows::Window;
use server_core::{DeskFault, DeskHeard};

/// What is answered to the copies that open the gatherings 1 to 5.
pub(crate) const OPENED_1: Result<DeskHeard, DeskFault> = Ok(DeskHeard::Opened {
    n: 1,
    repeat: false,
});

pub(crate) const OPENED_2: Result<DeskHeard, DeskFault> = Ok(DeskHeard::Opened {
    n: 2,
    repeat: false,
});

pub(crate) const OPENED_3: Result<DeskHeard, DeskFault> = Ok(DeskHeard::Opened {
    n: 3,
    repeat: false,
});

pub(crate) const OPENED_4: Result<DeskHeard, DeskFault> = Ok(DeskHeard::Opened {
    n: 4,
    repeat: false,
});

pub(crate) const OPENED_5: Result<DeskHeard, DeskFault> = Ok(DeskHeard::Opened {
    n: 5,
    repeat: false,
});

/// An uplink that was heard until 5,000,000 us is answered in RX1, on gateway 1 and on gateway 2.
pub(crate) const RX1_ON_1: Ending = Ending::Answered {
    gateway: 1,
    window: Window::Rx1,
    start: 6_000_000,
    airtime: 41_216,
    carried: false,
};

pub(crate) const RX1_ON_2: Ending = Ending::Answered {
    gateway: 2,
    window: Window::Rx1,
    start: 6_000_000,
    airtime: 41_216,
    carried: false,
};

/// It is answered in RX2, where RX1 is taken.
pub(crate) const RX2_ON_1: Ending = Ending::Answered {
    gateway: 1,
    window: Window::Rx2,
    start: 7_000_000,
    airtime: 991_232,
    carried: false,
};

pub(crate) const RX2_ON_2: Ending = Ending::Answered {
    gateway: 2,
    window: Window::Rx2,
    start: 7_000_000,
    airtime: 991_232,
    carried: false,
};

/// What a book has counted that booked one answer in RX1, two, and 250.
pub(crate) const ONE_BOOKED: Totals = Totals {
    booked: 41_216,
    cancelled: 0,
    retired: 0,
    kept_airtime: 41_216,
    kept: 1,
    floor: 0,
};

pub(crate) const TWO_BOOKED: Totals = Totals {
    booked: 82_432,
    kept_airtime: 82_432,
    kept: 2,
    ..ONE_BOOKED
};

pub(crate) const MANY_BOOKED: Totals = Totals {
    booked: 10_304_000,
    kept_airtime: 10_304_000,
    kept: 250,
    ..ONE_BOOKED
};
