use gateway_book::Refusal;
use rx_windows::Window;

/// How the answer to an uplink ended.
#[derive(Clone, Copy, Debug, PartialEq, Eq)]
pub enum Ending {
    /// A transmission was booked: on this gateway, in this window of the device, from `start` of the gateway's clock on,
    /// for `airtime`, both in microseconds; `carried` tells whether it carries the payload at the head of the device's queue.
    Answered {
        gateway: u16,
        window: Window,
        start: u64,
        airtime: u64,
        carried: bool,
    },
    /// Every candidate was refused; this is why the last one was.
    Unanswered(Refusal),
    /// The ticket was given up.
    GivenUp,
}

/// What became of the answer to the uplink with this number.
#[derive(Clone, Copy, Debug, PartialEq, Eq)]
pub struct Outcome {
    /// The number of the uplink's gathering.
    pub number: u64,
    /// How its answer ended.
    pub result: Ending,
}
