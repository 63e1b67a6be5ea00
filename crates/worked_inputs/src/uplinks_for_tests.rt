// Uplinks, and how gateways heard them.

use crate::{APP, NWK};
use lora_frame::{Key, Keys, Up, uplink_bytes};
use server_desk::Heard1;
use std::alloc::Global;
use std::test::Fail;

/// An uplink without a payload, of the device with this address and the session keys of all.
pub fn uplink(alloc: Global, confirmed: bool, addr: u32, counter: u32) -> Result<Vec<u8>, Fail> {
    let up = Up {
        confirmed,
        addr,
        counter,
        adr: false,
        adr_ack_req: false,
        ack: false,
        options: &[],
        body: None,
    };
    let keys = Keys {
        nwk: Key::new(NWK),
        app: Key::new(APP),
    };
    Ok(uplink_bytes(alloc, &up, &keys)?)
}

/// A copy that gateway 1 heard until 5,000,000 us.
pub const COPY: Heard1 = Heard1 {
    gateway: 1,
    at: 5_000_000,
    freq_hz: 868_100_000,
    rate: 5,
    snr: 0,
    rssi: -100,
};

/// Such a copy that this gateway heard.
pub fn copy_at(gateway: u16) -> Heard1 {
    Heard1 { gateway, ..COPY }
}
