// What a line of a journal says.
use crate::Payload;
use radio_airtime::DataRate;

/// What a line of a journal says.
#[derive(Debug, Drop)]
pub enum Entry {
    /// `gateway ID EUI CAP GAP`: there is a gateway, and its book is empty.
    Gateway {
        /// The gateway's number in the settings.
        id: u16,
        /// Its EUI, the most significant byte first.
        eui: [u8; 8],
        /// How many transmissions its book may keep.
        cap: u32,
        /// The gap between two of them, in microseconds.
        gap: u32,
    },
    /// `device ADDR SESSION UP DOWN`: these are a device's counters.
    Device {
        /// DevAddr.
        addr: u32,
        /// What tells the device's session from others of the same address (`session_of`).
        session: [u8; 4],
        /// The last uplink counter, if there was an uplink.
        up: Option<u32>,
        /// The next downlink counter, 2^32 where all were given.
        down: u64,
    },
    /// `queue ADDR PORT HEX`: a payload waits for the device.
    Queue {
        /// DevAddr.
        addr: u32,
        /// What waits.
        payload: Payload,
    },
    /// `taken ADDR`: the payload at the head of the device's queue went along.
    Taken {
        /// DevAddr.
        addr: u32,
    },
    /// `clock ID HIGH FLOOR`: what the gateway's clock shows at least, and the floor of its book.
    Clock {
        /// The gateway's number.
        id: u16,
        /// What its clock shows at least, in microseconds.
        high: u64,
        /// The floor of its book, in microseconds of the same clock.
        floor: u64,
    },
    /// `sent ID START FREQ DR LEN`: a transmission was booked.
    Sent {
        /// The gateway's number.
        id: u16,
        /// When it begins, in microseconds of the gateway's clock.
        start: u64,
        /// The centre of its channel, in Hz.
        freq_hz: u32,
        /// Its data rate.
        rate: DataRate,
        /// The length of its PHYPayload, in bytes.
        len: u8,
    },
}
