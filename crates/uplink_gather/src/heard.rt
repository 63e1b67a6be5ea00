use radio_airtime::DataRate;

/// A copy of an uplink, as one gateway heard it.
#[derive(Clone, Copy, Debug, PartialEq, Eq)]
pub struct HeardCopy {
    /// The gateway's number.
    pub gateway: u16,
    /// When the uplink ended, in microseconds of the gateway's clock.
    pub at: u64,
    /// The centre of the uplink's channel, in Hz.
    pub freq_hz: u32,
    /// The uplink's data rate.
    pub rate: DataRate,
    /// The signal-to-noise ratio, in tenths of a dB.
    pub snr: i16,
    /// The received signal's strength, in dBm.
    pub rssi: i16,
}
