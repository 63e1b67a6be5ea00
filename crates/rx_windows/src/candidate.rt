ghost use Rattle.std.specs.Prelude.{Some};

use radio_airtime::DataRate;
use std::fmt;

/// A receive window of a Class A device (LoRaWAN L2 1.0.4, section 3.3).
#[derive(Clone, Copy, Debug, PartialEq, Eq)]
pub enum Window {
    /// The first window: on the uplink's channel.
    Rx1,
    /// The second window, one second after the first: on a channel of its own.
    Rx2,
}

impl Window {
    ghost use Rattle.std.specs.Prelude.{◌≡◌, length};
    ghost use Rattle.rx_windows.specs.Window.{window_text};

    /// The window's name as it is written, "RX1" or "RX2" (LoRaWAN L2 1.0.4, section 3.3).
    pub fn name(self) -> &'static str
        ensures name { result.now ≡ window_text self }
        ensures len { length result.now ≡ 3 }
    {
        match self {
            Window::Rx1 => "RX1",
            Window::Rx2 => "RX2",
        }
    }
}

impl fmt::Display for Window {
    ghost use Rattle.rx_windows.specs.Window.{window_text};

    ghost output = { λ window. Some (window_text window) };

    fn fmt<W: fmt::Write>(&self, f: &mut fmt::Formatter<W>) -> fmt::Result {
        f.write_str(self.name())
    }
}

/// A downlink that one gateway could send in one window.
#[derive(Clone, Copy, Debug, PartialEq, Eq)]
pub struct Candidate {
    /// The gateway's number: it heard the uplink.
    pub gateway: u16,
    /// The window that the device listens in.
    pub window: Window,
    /// When the window opens and the downlink begins, in microseconds of the gateway's clock.
    pub start: u64,
    /// The centre of the downlink's channel, in Hz.
    pub freq_hz: u32,
    /// The downlink's data rate.
    pub rate: DataRate,
    /// The length of its PHYPayload, in bytes.
    pub len: u8,
    /// Whether it carries the payload at the head of the device's queue.
    pub carries: bool,
}
