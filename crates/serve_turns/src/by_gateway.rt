// The packet forwarders of a server's gateways, by the gateways' numbers.
ghost use Rattle.std.specs.Prelude.{◌≡◌, ◌≤◌, ◌^◌, ◌++◌, slice_get, zip, All, IfOk, OnOk};
ghost use Rattle.serve_turns.specs.Forwarders.{AreByGateway, AreResumed, forwarder_of, forwarders_of, one_of, with_high};

use forwarder_sessions::{Forwarder, NoMemory};
use server_core::GatewaySetting;
use std::alloc::Allocator;

/// The packet forwarders of these gateways, each gateway with what is set of its packet forwarder at the same place, by rising
/// gateway. Err(NoMemory) where a growth was refused.
pub fn forwarders_of<A: Allocator + Copy>(
    alloc: A,
    gateways: &[GatewaySetting],
    set: &[serve_settings::Forwarder],
) -> Result<Vec<Forwarder, A>, NoMemory>
    ensures { IfOk result (λ forwarders. AreByGateway gateways.now set.now forwarders.items) }
{
    let mut forwarders = forwarders_in_order(alloc, gateways, set)?;
    forwarders.sort_unstable_by_key(|forwarder| forwarder.gateway);
    Ok(forwarders)
}

/// The same, each with what its gateway's clock shows at least, which stands at its gateway's place in `highs`, in microseconds and at
/// most 2^60.
pub fn resumed_forwarders<A: Allocator + Copy>(
    alloc: A,
    gateways: &[GatewaySetting],
    set: &[serve_settings::Forwarder],
    highs: &[u64],
) -> Result<Vec<(Forwarder, u64), A>, NoMemory>
    requires { All (λ high. high ≤ 2 ^ 60) highs.now }
    ensures all { IfOk result (λ forwarders. AreResumed gateways.now set.now highs.now forwarders.items) }
    ensures early { IfOk result (λ forwarders. All (λ f. f.1 ≤ 2 ^ 60) forwarders.items) }
{
    let forwarders = forwarders_in_order(alloc, gateways, set)?;
    let mut resumed = with_highs(alloc, &forwarders, highs)?;
    resumed.sort_unstable_by_key(|resumed| resumed.0.gateway);
    Ok(resumed)
}

/// Each packet forwarder with the number at its place, if there is one.
fn with_highs<A: Allocator>(
    alloc: A,
    forwarders: &[Forwarder],
    highs: &[u64],
) -> Result<Vec<(Forwarder, u64), A>, NoMemory>
    ensures { IfOk result (λ resumed. resumed.items ≡ zip forwarders.now highs.now) }
{
    let mut resumed = Vec::with_capacity(alloc, forwarders.len())?;
    for (place, forwarder) in forwarders.iter().enumerate() {
        add_high(&mut resumed, forwarder, highs, place)?;
    }
    Ok(resumed)
}

/// Adds a packet forwarder with the number at this place, if there is one.
fn add_high<A: Allocator>(
    resumed: &mut Vec<(Forwarder, u64), A>,
    forwarder: &Forwarder,
    highs: &[u64],
    place: usize,
) -> Result<(), NoMemory>
    ensures { OnOk result (resumed.new.items ≡ resumed.old.items ++ with_high forwarder.now (slice_get highs.now place)) }
{
    match highs.get(place) {
        Some(high) => Ok(resumed.push((*forwarder, *high))?),
        None => Ok(()),
    }
}

/// The same in the gateways' order.
fn forwarders_in_order<A: Allocator + Copy>(
    alloc: A,
    gateways: &[GatewaySetting],
    set: &[serve_settings::Forwarder],
) -> Result<Vec<Forwarder, A>, NoMemory>
    ensures { IfOk result (λ forwarders. forwarders.items ≡ forwarders_of gateways.now set.now) }
{
    let mut forwarders = Vec::with_capacity(alloc, gateways.len())?;
    for (place, gateway) in gateways.iter().enumerate() {
        add(&mut forwarders, gateway, set, place)?;
    }
    Ok(forwarders)
}

/// Adds a gateway's packet forwarder, if one is set at this place.
fn add<A: Allocator>(
    forwarders: &mut Vec<Forwarder, A>,
    gateway: &GatewaySetting,
    set: &[serve_settings::Forwarder],
    place: usize,
) -> Result<(), NoMemory>
    ensures { OnOk result (forwarders.new.items
        ≡ forwarders.old.items ++ one_of gateway.now (slice_get set.now place)) }
{
    match set.get(place) {
        Some(set) => Ok(forwarders.push(forwarder_of(gateway, set))?),
        None => Ok(()),
    }
}

/// A gateway's packet forwarder, as it is set.
fn forwarder_of(gateway: &GatewaySetting, set: &serve_settings::Forwarder) -> Forwarder
    ensures { result ≡ forwarder_of gateway.now set.now }
{
    Forwarder {
        gateway: gateway.id,
        eui: set.eui,
        from: set.from,
        lead: set.lead_us,
        power_dbm: set.power_dbm,
    }
}
