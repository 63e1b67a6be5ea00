// The session keys of the devices, each expanded once.
ghost use Rattle.std.specs.Prelude.{◌≡◌, IfOk};
ghost use Rattle.std.specs.Option.{ForSome};
ghost use Rattle.run_lines.specs.RunWords.{keys_for, bare_uplink};
ghost use Rattle.run_lines.specs.KeyRing.{KeepsKeys};

use crate::run_words::{UplinkKind, bare_uplink};
use answer_ticket::Bytes;
use indexmap::IndexMap;
use lora_frame::Keys;
use server_core::{DeviceSetting, NoMemory, keys_of};
use std::alloc::Global;
use std::hash::{BuildHasherDefault, FoldHasher};

/// The session keys of some devices by their addresses, which are the settings' own: so no sender can choose them.
type ByAddress = IndexMap<u32, Keys, BuildHasherDefault<FoldHasher>>;

/// The devices of the settings, with the session keys of each.
#[derive(Drop)]
pub(crate) struct KeyRing<'a> {
    devices: &'a [DeviceSetting],
    /// The keys, expanded; None where they are expanded as they are asked for.
    keys: Option<ByAddress>,
    ghost kept: { ForSome keys (KeepsKeys devices.now) },
}

impl<'a> KeyRing<'a> {
    /// The keys of these devices, each expanded once.
    pub(crate) fn new(alloc: Global, devices: &'a [DeviceSetting]) -> Result<Self, NoMemory>
        ensures { IfOk result (λ ring. ring.devices.now ≡ devices.now) }
    {
        let keys = expanded(alloc, devices)?;
        Ok(KeyRing {
            devices,
            keys: Some(keys),
        })
    }

    /// The keys of these devices, each expanded as it is asked for, by a walk over the devices. Takes no memory.
    pub(crate) fn unexpanded(devices: &'a [DeviceSetting]) -> Self
        ensures { result.devices.now ≡ devices.now }
    {
        KeyRing {
            devices,
            keys: None,
        }
    }

    /// A bare uplink, made with the session keys of the device with this address.
    pub(crate) fn bare_uplink(
        &self,
        alloc: Global,
        kind: UplinkKind,
        addr: u32,
        counter: u32,
    ) -> Result<Bytes<Global>, NoMemory>
        ensures { IfOk result (λ bytes. bytes ≡ bare_uplink (keys_for addr self.now.devices.now)
            (kind.confirmed, kind.adr_ack_req) addr counter) }
    {
        match &self.keys {
            Some(keys) => bare_uplink(alloc, keys.get(&addr), kind, addr, counter),
            None => {
                let keys = keys_for(addr, self.devices);
                bare_uplink(alloc, keys.as_ref(), kind, addr, counter)
            }
        }
    }
}

/// The session keys of each device; of two devices with one address, the first's.
fn expanded(alloc: Global, devices: &[DeviceSetting]) -> Result<ByAddress, NoMemory>
    ensures { IfOk result (KeepsKeys devices.now) }
{
    let mut keys = IndexMap::with_hasher(alloc, BuildHasherDefault::new());
    for device in devices {
        if keys.get(&device.addr).is_none() {
            keys.insert(device.addr, keys_of(device))?;
        }
    }
    Ok(keys)
}

/// The session keys of the device with this address, of at most 1,024 devices.
fn keys_for(addr: u32, devices: &[DeviceSetting]) -> Option<Keys>
    ensures { result ≡ keys_for addr devices.now }
{
    let device = devices.iter().find(|device| device.addr == addr)?;
    Some(keys_of(device))
}
