// The settings as a whole: which are accepted.
ghost use Rattle.std.specs.Prelude.{◌≡◌, ◌==◌, ◌↔◌, List, [], Option, MatchOption, IsOk, IsOkAnd};
ghost use Rattle.server_desk.specs.declared.settings_fault.SettingsFault.{SettingsFault};
ghost use Rattle.std.specs.List.{list_any};
ghost use Rattle.server_desk.specs.Settings.{SettingLists, AreSettings, are_counts_in_range, gateway_fault, device_fault};
ghost use Rattle.server_desk.specs.Settings.{first_fault, settings_fault, is_gateway_in_range, is_device_in_range};

use crate::device_calls::COUNTERS;
use crate::{DeviceSetting, GatewaySetting, SettingsFault};
use gateway_book::open_fault;
use radio_bands::Band;
use std::alloc::Allocator;
use std::marker::Model;

/// The greatest number of gateways.
pub const MAX_GATEWAYS: usize = 64;

/// The greatest number of devices.
pub const MAX_DEVICES: usize = 1_024;

/// The greatest RECEIVE_DELAY1, in seconds (RP002, EU863-870: RXTimingSetupReq's Delay).
const MAX_DELAY: u8 = 15;

/// The greatest RX1DROffset (RP002, EU863-870, receive windows).
const MAX_OFFSET: u8 = 5;

/// The gateways and devices that a server serves. Its type keeps that they are 1 to 64 gateways of
/// different ids and at most 1,024 devices of different addresses, that each number is in its range, and
/// that the channel of each device's RX2 lies in a sub-band.
#[derive(Drop)]
pub struct Settings<A: Allocator> {
    gateways: Vec<GatewaySetting, A>,
    devices: Vec<DeviceSetting, A>,
}

impl<A: Allocator> Model for Settings<A> {
    ghost Value = { SettingLists };

    ghost view = { λ s. record { gateways = s.gateways.items; devices = s.devices.items } };

    ghost invariant = { λ s. AreSettings s.gateways.items s.devices.items };
}

impl<A: Allocator> Settings<A> {
    /// The settings of these lists, or the first fault: that of the counts, then those of the gateways in
    /// order, then those of the devices in order, each in the order of `SettingsFault`. Where there is
    /// one, the lists are dropped. Needs no memory.
    #[tactic(auto, using(crate::proofs::SettingsLemmas::are_settings, crate::proofs::SettingsLemmas::no_fault))]
    pub fn new(
        gateways: Vec<GatewaySetting, A>,
        devices: Vec<DeviceSetting, A>,
    ) -> Result<Self, SettingsFault>
        ensures fault { MatchOption (settings_fault gateways.items devices.items)
            (IsOkAnd result (λ s. s ≡ record { gateways = gateways.items; devices = devices.items }))
            (λ fault. result ≡ Err fault) }
        ensures accepted { IsOk result ↔ AreSettings gateways.items devices.items }
    {
        match fault_of(&gateways, &devices) {
            Some(fault) => Err(fault),
            None => Ok(Settings { gateways, devices }),
        }
    }

    /// The gateways, as they were given. Needs no memory.
    pub fn gateways(&self) -> &[GatewaySetting]
        ensures list { result.now ≡ self.now.gateways }
        ensures kept { AreSettings self.now.gateways self.now.devices }
    {
        &self.gateways
    }

    /// The devices, as they were given. Needs no memory.
    pub fn devices(&self) -> &[DeviceSetting]
        ensures list { result.now ≡ self.now.devices }
        ensures kept { AreSettings self.now.gateways self.now.devices }
    {
        &self.devices
    }
}

/// The first fault of these lists.
#[tactic(auto, unfolding(crate::specs::Settings::settings_fault))]
fn fault_of(gateways: &[GatewaySetting], devices: &[DeviceSetting]) -> Option<SettingsFault>
    ensures { result ≡ settings_fault gateways.now devices.now }
{
    if !are_counts_in_range(gateways.len(), devices.len()) {
        return Some(SettingsFault::Count);
    }
    if let Some(fault) = first_fault(gateways) {
        return Some(fault);
    }
    first_fault(devices)
}

/// Whether the gateways are 1 to 64 and the devices at most 1,024.
fn are_counts_in_range(gateways: usize, devices: usize) -> bool
    ensures { result ≡ are_counts_in_range gateways devices }
{
    1 <= gateways && gateways <= MAX_GATEWAYS && devices <= MAX_DEVICES
}

/// A setting that is looked at beside those before it.
trait Setting: Sized {
    ghost fault_of: { List Self → Self → Option SettingsFault };

    /// The first fault of this setting, `earlier` being those before it.
    fn fault(&self, earlier: &[Self]) -> Option<SettingsFault>
        ensures { result ≡ fault_of earlier.now self.now };
}

/// The first fault of some settings, in order. Each is compared with all before it, so 1,024 devices take
/// half a million comparisons, once, as a server starts.
fn first_fault<S: Setting>(settings: &[S]) -> Option<SettingsFault>
    ensures { result ≡ first_fault S.fault_of [] settings.now }
{
    for (place, setting) in settings.iter().enumerate() {
        if let Some(fault) = setting.fault(&settings[..place]) {
            return Some(fault);
        }
    }
    None
}

impl Setting for GatewaySetting {
    ghost fault_of = { gateway_fault };

    fn fault(&self, earlier: &[Self]) -> Option<SettingsFault> {
        if !is_gateway_in_range(self) {
            return Some(SettingsFault::Range);
        }
        if has_id(earlier, self.id) {
            return Some(SettingsFault::DoubleGateway);
        }
        None
    }
}

impl Setting for DeviceSetting {
    ghost fault_of = { device_fault };

    fn fault(&self, earlier: &[Self]) -> Option<SettingsFault> {
        if !is_device_in_range(self) {
            return Some(SettingsFault::Range);
        }
        if Band::of(self.rx2_freq, self.rx2_rate).is_none() {
            return Some(SettingsFault::NoBand);
        }
        if has_addr(earlier, self.addr) {
            return Some(SettingsFault::DoubleDevice);
        }
        None
    }
}

/// Whether a gateway has this number.
fn has_id(gateways: &[GatewaySetting], id: u16) -> bool
    ensures { result ≡ list_any (λ g. g.id == id) gateways.now }
{
    gateways.iter().any(|gateway| gateway.id == id)
}

/// Whether a device has this address.
fn has_addr(devices: &[DeviceSetting], addr: u32) -> bool
    ensures { result ≡ list_any (λ d. d.addr == addr) devices.now }
{
    devices.iter().any(|device| device.addr == addr)
}

/// Whether the gateway's number is 1 to 65,535, and a book may be opened with its cap and its gap.
fn is_gateway_in_range(gateway: &GatewaySetting) -> bool
    ensures { result ≡ is_gateway_in_range gateway.now }
{
    1 <= gateway.id && open_fault(gateway.cap, gateway.gap).is_none()
}

/// Whether the device's delay is 1 to 15, its offset 0 to 5 and its next downlink counter 0 to 2^32.
fn is_device_in_range(device: &DeviceSetting) -> bool
    ensures { result ≡ is_device_in_range device.now }
{
    1 <= device.delay
        && device.delay <= MAX_DELAY
        && device.offset <= MAX_OFFSET
        && device.down <= COUNTERS
}
