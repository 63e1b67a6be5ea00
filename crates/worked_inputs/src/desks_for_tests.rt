// Settings, desks of them, and a desk's calls.

use server_desk::{
    Desk, DeskFault, DeskHeard, DeviceSetting, GatewaySetting, Heard1, Limits, QueueFault, Settings,
};
use std::alloc::Global;
use std::hash::{BuildHasherDefault, FoldHasher};
use std::test::Fail;

/// The hasher by which devices and uplinks are looked up.
pub type WorkedHasher = BuildHasherDefault<FoldHasher>;

pub type WorkedDesk = Desk<WorkedHasher>;

/// More than a worked run comes to.
pub const AMPLE: Limits = Limits {
    max_open: 16,
    max_ever: 16,
    max_copies: 16,
};

/// That hasher.
pub fn hasher() -> WorkedHasher {
    BuildHasherDefault::new()
}

/// The settings of the gateways 1 and 2, and of these devices.
pub fn settings_of(alloc: Global, devices: &[DeviceSetting]) -> Result<Settings<Global>, Fail> {
    let gateways = [
        GatewaySetting {
            id: 1,
            cap: 4_096,
            gap: 0,
        },
        GatewaySetting {
            id: 2,
            cap: 4_096,
            gap: 0,
        },
    ];
    Ok(Settings::new(gateways.to_vec(alloc)?, devices.to_vec(alloc)?)?)
}

/// A desk of the gateways 1 and 2 and of this device.
pub fn desk_of(alloc: Global, limits: Limits, device: DeviceSetting) -> Result<WorkedDesk, Fail> {
    let settings = settings_of(alloc, &[device])?;
    Ok(Desk::new(alloc, hasher(), &settings, limits)?)
}

/// What a desk answers to a payload that is queued.
pub fn queued(
    desk: &mut WorkedDesk,
    addr: u32,
    port: u8,
    payload: &[u8],
) -> Result<usize, QueueFault> {
    desk.queue(addr, port, payload)
}

/// What a desk answers to a copy of an uplink.
pub fn heard(
    desk: &mut WorkedDesk,
    bytes: &[u8],
    copy: Heard1,
    arrived: u64,
) -> Result<DeskHeard, DeskFault> {
    desk.hear(bytes, copy, arrived)
}

/// The number of the gathering that a desk closes, if one is due.
pub fn passed(desk: &mut WorkedDesk, now: u64) -> Option<u64> {
    desk.pass(now)
}

/// How long a gateway was on air for the answers that were settled, in microseconds.
pub fn answered(desk: &WorkedDesk, gateway: u16) -> Option<u64> {
    desk.answered(gateway)
}
