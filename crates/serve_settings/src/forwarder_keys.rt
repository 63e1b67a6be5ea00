// What the keys of a gateway say of its packet forwarder.
ghost use Rattle.std.specs.Prelude.{◌≡◌, ◌^◌};
ghost use Rattle.std.specs.Option.{option_map};
ghost use Rattle.std.specs.Net.Reader.{whole_value, read_ipv4};
ghost use Rattle.toml.specs.Data.{get_member};
ghost use Rattle.toml.specs.View.{view, table_view};
ghost use Rattle.serve_settings.specs.ForwarderKeys as keys;

use crate::ServeFault;
use crate::forwarder::{Forwarder, MOST_LEAD_US, MOST_POWER_DBM};
use hex::FromHex;
use std::net::Ipv4Addr;
use toml::{Table, Value};

/// The power where the settings don't say it, in dBm.
const DEFAULT_POWER_DBM: u8 = 14;

/// The lead where the settings don't say it, in microseconds.
const DEFAULT_LEAD_US: u32 = 400_000;

/// What a gateway's table says of its packet forwarder.
pub(crate) fn forwarder_of(gateway: &Table) -> Result<Forwarder, ServeFault>
    ensures { result ≡ keys.forwarder_of (table_view gateway.now) }
{
    Ok(Forwarder {
        eui: eui_of(gateway)?,
        from: from_of(gateway)?,
        power_dbm: power_of(gateway)?,
        lead_us: lead_of(gateway)?,
    })
}

/// What a key holds.
pub(crate) fn value_at<'a>(table: &'a Table, key: &str) -> Option<&'a Value>
    ensures { option_map (λ value. view value.now) result ≡ get_member key.now (table_view table.now) }
{
    table.get(key)
}

/// A gateway's EUI.
fn eui_of(gateway: &Table) -> Result<[u8; 8], ServeFault>
    ensures { result ≡ keys.eui_of (table_view gateway.now) }
{
    match value_at(gateway, "eui") {
        Some(value) => eui_in(value),
        None => Err(ServeFault::Missing),
    }
}

/// The EUI that a value is: a text of 16 hexadecimal digits, in either case.
fn eui_in(value: &Value) -> Result<[u8; 8], ServeFault>
    ensures { result ≡ keys.eui_in (view value.now) }
{
    let text = value.as_str().ok_or(ServeFault::Kind)?;
    <[u8; 8] as FromHex>::from_hex(text).map_err(|_| ServeFault::Kind)
}

/// Where its datagrams have to come from.
fn from_of(gateway: &Table) -> Result<Option<[u8; 4]>, ServeFault>
    ensures { result ≡ keys.from_of (table_view gateway.now) }
{
    match value_at(gateway, "from") {
        Some(value) => Ok(Some(address_in(value)?)),
        None => Ok(None),
    }
}

/// The IPv4 address that a value is: a text of four numbers with dots between them.
fn address_in(value: &Value) -> Result<[u8; 4], ServeFault>
    ensures { result ≡ keys.address_in (view value.now) }
{
    let text = value.as_str().ok_or(ServeFault::Kind)?;
    octets_of(text).ok_or(ServeFault::Kind)
}

/// The octets of the IPv4 address that a text is.
fn octets_of(text: &str) -> Option<[u8; 4]>
    ensures { result ≡ whole_value (read_ipv4 text.now) }
{
    match Ipv4Addr::parse_ascii(text.as_bytes()) {
        Ok(address) => Some(address.octets()),
        Err(_) => None,
    }
}

/// The power of its transmissions in dBm.
fn power_of(gateway: &Table) -> Result<u8, ServeFault>
    ensures { result ≡ keys.power_of (table_view gateway.now) }
{
    match value_at(gateway, "power") {
        Some(value) => power_in(value),
        None => Ok(DEFAULT_POWER_DBM),
    }
}

/// The power that a value is.
fn power_in(value: &Value) -> Result<u8, ServeFault>
    ensures { result ≡ keys.number_in (2 ^ 8) 27 (view value.now) }
{
    let number = value.as_integer().ok_or(ServeFault::Kind)?;
    let power_dbm = u8::try_from(number).map_err(|_| ServeFault::Kind)?;
    if power_dbm > MOST_POWER_DBM {
        return Err(ServeFault::Range);
    }
    Ok(power_dbm)
}

/// The lead in microseconds.
fn lead_of(gateway: &Table) -> Result<u32, ServeFault>
    ensures { result ≡ keys.lead_of (table_view gateway.now) }
{
    match value_at(gateway, "lead") {
        Some(value) => lead_in(value),
        None => Ok(DEFAULT_LEAD_US),
    }
}

/// The lead that a value is.
fn lead_in(value: &Value) -> Result<u32, ServeFault>
    ensures { result ≡ keys.number_in (2 ^ 32) 700000 (view value.now) }
{
    let number = value.as_integer().ok_or(ServeFault::Kind)?;
    let lead_us = u32::try_from(number).map_err(|_| ServeFault::Kind)?;
    if lead_us > MOST_LEAD_US {
        return Err(ServeFault::Range);
    }
    Ok(lead_us)
}
