/// A copy of an uplink as it is handed in, its data rate unchecked.
#[derive(Clone, Copy, Debug, PartialEq, Eq)]
pub struct Heard1 {
    /// The gateway's number.
    pub gateway: u16,
    /// When the uplink ended, in microseconds of the gateway's clock; up to 2^60 it is taken in.
    pub at: u64,
    /// The centre of the uplink's channel, in Hz.
    pub freq_hz: u32,
    /// The number of the uplink's data rate; 0 to 6 are taken in.
    pub rate: u8,
    /// The signal-to-noise ratio, in tenths of a dB.
    pub snr: i16,
    /// The received signal's strength, in dBm.
    pub rssi: i16,
}

/// Where a copy of an uplink went.
#[derive(Clone, Copy, Debug, PartialEq, Eq)]
pub enum DeskHeard {
    /// It opened the gathering with the number `n`; `repeat` tells whether its counter is the device's last.
    Opened { n: u64, repeat: bool },
    /// It joined the gathering with the number `n`, which now has `copies` copies.
    Joined { n: u64, copies: usize },
}
