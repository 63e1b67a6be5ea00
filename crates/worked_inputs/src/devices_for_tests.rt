// Devices as they are set.

use server_desk::{DataRate, DeviceSetting};

/// The key of the network session.
pub const NWK: [u8; 16] = [
    0x2b, 0x7e, 0x15, 0x16, 0x28, 0xae, 0xd2, 0xa6, 0xab, 0xf7, 0x15, 0x88, 0x09, 0xcf, 0x4f, 0x3c,
];

/// The key of the application session.
pub const APP: [u8; 16] = [
    0x00, 0x01, 0x02, 0x03, 0x04, 0x05, 0x06, 0x07, 0x08, 0x09, 0x0a, 0x0b, 0x0c, 0x0d, 0x0e, 0x0f,
];

/// The address of the first device.
pub const ADDR: u32 = 0x2601_1bda;

/// A device that listens as LoRaWAN's EU868 has it, and of which nothing was heard yet.
pub const DEVICE: DeviceSetting = DeviceSetting {
    addr: ADDR,
    nwk: NWK,
    app: APP,
    delay: 1,
    offset: 0,
    rx2_freq: 869_525_000,
    rx2_rate: DataRate::Dr0,
    up: None,
    down: 0,
};

/// Such a device with this address.
pub fn device(addr: u32) -> DeviceSetting {
    DeviceSetting { addr, ..DEVICE }
}
