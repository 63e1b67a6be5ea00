use radio_airtime::DataRate;

/// How a device listens after an uplink, and what waits for it.
#[derive(Clone, Copy, Debug, PartialEq, Eq)]
pub struct Plan {
    /// RECEIVE_DELAY1: how long after the end of the uplink RX1 opens, 1 to 15 seconds (LoRaWAN L2 1.0.4, section 3.3.1).
    pub delay: u8,
    /// RX1DROffset: by how many rates RX1 lies below the uplink, 0 to 5 (RP002, EU863-870, receive windows).
    pub offset: u8,
    /// The centre of RX2's channel, in Hz.
    pub rx2_freq: u32,
    /// The data rate of RX2.
    pub rx2_rate: DataRate,
    /// The length in bytes of the payload at the head of the device's queue, at most 242; `None` where the
    /// queue is empty.
    pub payload: Option<u8>,
}
