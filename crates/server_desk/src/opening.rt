// What a desk keeps of its settings before anything was heard.

ghost use Rattle.std.specs.Prelude.{◌≡◌, ◌≢◌, ◌<◌, false, map, IfOk, All, AllPairs};
ghost use Rattle.server_desk.specs.Invariant.{shown};
ghost use Rattle.server_desk.specs.Register.{opened_device};

use crate::device::KnownDevice;
use crate::{DeviceSetting, GatewaySetting};
use indexmap::IndexSet;
use std::alloc::{AllocError, Allocator};
use std::hash::BuildHasher;

/// The numbers of the gateways, in their order.
pub(crate) fn ids_of<A: Allocator + Drop>(
    alloc: A,
    gateways: &[GatewaySetting],
) -> Result<Vec<u16, A>, AllocError>
    ensures { IfOk result (λ ids. ids.items ≡ map (λ g. g.id) gateways.now) }
{
    gateways.iter().map(|gateway| gateway.id).collect(alloc)
}

/// An airtime of 0 for each of the gateways.
pub(crate) fn airtimes_of<A: Allocator + Drop>(
    alloc: A,
    gateways: &[GatewaySetting],
) -> Result<Vec<u64, A>, AllocError>
    ensures { IfOk result (λ airtimes. airtimes.items ≡ map (λ _. 0) gateways.now) }
{
    gateways.iter().map(|_| 0).collect(alloc)
}

/// The devices as they are kept, in their order.
pub(crate) fn devices_of<A: Allocator + Copy>(
    alloc: A,
    devices: &[DeviceSetting],
) -> Result<Vec<KnownDevice<A>, A>, AllocError>
    ensures shown { IfOk result (λ kepts. map shown kepts.items ≡ map opened_device devices.now) }
    ensures none_out { IfOk result (λ kepts. All (λ k. k.out ≡ false) kepts.items) }
{
    let mut kepts = Vec::with_capacity(alloc, devices.len())?;
    for device in devices {
        kepts.push(KnownDevice::new(alloc, device))?;
    }
    Ok(kepts)
}

/// The devices' addresses, in their order.
pub(crate) fn addrs_of<S: BuildHasher + Drop, A: Allocator + Copy>(
    alloc: A,
    hasher: S,
    devices: &[DeviceSetting],
) -> Result<IndexSet<u32, S, A>, AllocError>
    requires { AllPairs (λ d e. d.addr ≢ e.addr) devices.now }
    ensures { IfOk result (λ addrs. addrs.keys ≡ map (λ d. d.addr) devices.now) }
{
    let mut addrs = IndexSet::with_hasher(alloc, hasher);
    for device in devices {
        addrs.insert(device.addr)?;
    }
    Ok(addrs)
}
