// A device as the desk keeps it.
ghost use Rattle.std.specs.Prelude.{◌≡◌};
ghost use Rattle.server_desk.specs.Taking.{keys_of};

use crate::DeviceSetting;
use answer_ticket::Bytes;
use lora_frame::Keys;
use std::alloc::Allocator;

/// The counters of a device (LoRaWAN L2 1.0.4, section 4.3.1.5).
#[derive(Clone, Copy, Debug, PartialEq, Eq)]
pub struct Counters {
    /// The last uplink counter, FCntUp, where there is one.
    pub up: Option<u32>,
    /// The next downlink counter, FCntDown, 2^32 where all were given.
    pub down: u64,
}

/// A device as the desk keeps it.
#[derive(Drop)]
pub(crate) struct KnownDevice<A: Allocator> {
    pub(crate) setting: DeviceSetting,
    /// Its session keys, expanded.
    pub(crate) keys: Keys,
    /// FPort and FRMPayload of each payload that waits, in the order in which they came.
    pub(crate) queue: Vec<(u8, Bytes<A>), A>,
    /// The last uplink counter, where there is one.
    pub(crate) up: Option<u32>,
    /// The next downlink counter, 2^32 where all were given.
    pub(crate) down: u64,
    /// Whether a ticket or stub of this device is out.
    pub(crate) out: bool,
    ghost expanded: { keys ≡ keys_of setting },
}
