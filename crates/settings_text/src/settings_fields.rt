// What the keys of a gateway and of a device say in the settings.
ghost use Rattle.std.specs.Prelude.{◌≡◌, ◌^◌, Result};
ghost use Rattle.std.specs.Option.{option_map, ok_or};
ghost use Rattle.toml.specs.Data.{Data, as_integer, get_member};
ghost use Rattle.toml.specs.View.{view, table_view};
ghost use Rattle.settings_text.specs.declared.settings_fault.ReadFault.{ReadFault};
ghost use Rattle.settings_text.specs.SettingsFields as fields;

use crate::ReadFault;
use hex::FromHex;
use server_desk::DataRate;
use toml::{Table, Value};

/// How many transmissions a gateway's book may keep where the settings don't say it.
const DEFAULT_CAP: u32 = 4_096;

// The receive windows of a device whose settings don't name its own, as the regional parameters have them (LoRaWAN RP002,
// EU863-870, receive windows).

/// How many seconds after an uplink's end RX1 opens.
const DEFAULT_DELAY_S: u8 = 1;

/// By how many steps RX1 is slower than the uplink.
const DEFAULT_OFFSET: u8 = 0;

/// The frequency of RX2 in Hz.
const DEFAULT_RX2_FREQ_HZ: u32 = 869_525_000;

/// The data rate of RX2.
const DEFAULT_RX2_RATE: DataRate = DataRate::Dr0;

/// What a value may say.
trait FromValue: Copy {
    ghost of: { Data → Result Self ReadFault };

    /// What this value says, or that it is of another kind.
    fn from_value(value: &Value) -> Result<Self, ReadFault>
        ensures { result ≡ of (view value.now) };
}

/// The whole number that a value is.
fn integer_in(value: &Value) -> Result<i64, ReadFault>
    ensures { result ≡ ok_or (as_integer (view value.now)) ReadFault.Kind }
{
    value.as_integer().ok_or(ReadFault::Kind)
}

impl FromValue for u8 {
    ghost of = { fields.whole_below (2 ^ 8) };

    fn from_value(value: &Value) -> Result<Self, ReadFault> {
        u8::try_from(integer_in(value)?).map_err(|_| ReadFault::Kind)
    }
}

impl FromValue for u16 {
    ghost of = { fields.whole_below (2 ^ 16) };

    fn from_value(value: &Value) -> Result<Self, ReadFault> {
        u16::try_from(integer_in(value)?).map_err(|_| ReadFault::Kind)
    }
}

impl FromValue for u32 {
    ghost of = { fields.whole_below (2 ^ 32) };

    fn from_value(value: &Value) -> Result<Self, ReadFault> {
        u32::try_from(integer_in(value)?).map_err(|_| ReadFault::Kind)
    }
}

// TOML's whole numbers reach 2^63 - 1.
impl FromValue for u64 {
    ghost of = { fields.whole_below (2 ^ 64) };

    fn from_value(value: &Value) -> Result<Self, ReadFault> {
        u64::try_from(integer_in(value)?).map_err(|_| ReadFault::Kind)
    }
}

// A counter that may be there.
impl FromValue for Option<u32> {
    ghost of = { fields.counter_in };

    fn from_value(value: &Value) -> Result<Self, ReadFault> {
        Ok(Some(u32::from_value(value)?))
    }
}

// A text of two hexadecimal digits for each byte, in either case.
impl<const N: usize> FromValue for [u8; N] {
    ghost of = { fields.bytes_in N };

    fn from_value(value: &Value) -> Result<Self, ReadFault> {
        let text = value.as_str().ok_or(ReadFault::Kind)?;
        <[u8; N] as FromHex>::from_hex(text).map_err(|_| ReadFault::Kind)
    }
}

// A data rate's number.
impl FromValue for DataRate {
    ghost of = { fields.rate_in };

    fn from_value(value: &Value) -> Result<Self, ReadFault> {
        DataRate::from_number(u8::from_value(value)?).ok_or(ReadFault::Kind)
    }
}

/// What a key holds.
pub(crate) fn value_at<'a>(table: &'a Table, key: &str) -> Option<&'a Value>
    ensures { option_map (λ value. view value.now) result ≡ get_member key.now (table_view table.now) }
{
    table.get(key)
}

/// What a key says that has to be there.
fn required<T: FromValue>(table: &Table, key: &str) -> Result<T, ReadFault>
    ensures { result ≡ fields.required key.now T.of (table_view table.now) }
{
    match value_at(table, key) {
        Some(value) => T::from_value(value),
        None => Err(ReadFault::Missing),
    }
}

/// What a key says that may be left out.
fn optional<T: FromValue>(table: &Table, key: &str, default: T) -> Result<T, ReadFault>
    ensures { result ≡ fields.optional key.now default T.of (table_view table.now) }
{
    match value_at(table, key) {
        Some(value) => T::from_value(value),
        None => Ok(default),
    }
}

/// A gateway's number.
pub(crate) fn id_of(gateway: &Table) -> Result<u16, ReadFault>
    ensures { result ≡ fields.id_of (table_view gateway.now) }
{
    required(gateway, "id")
}

/// How many transmissions a gateway's book may keep.
pub(crate) fn cap_of(gateway: &Table) -> Result<u32, ReadFault>
    ensures { result ≡ fields.cap_of (table_view gateway.now) }
{
    optional(gateway, "cap", DEFAULT_CAP)
}

/// How long a gateway needs between two transmissions, in microseconds.
pub(crate) fn gap_of(gateway: &Table) -> Result<u32, ReadFault>
    ensures { result ≡ fields.gap_of (table_view gateway.now) }
{
    optional(gateway, "gap", 0)
}

/// A device's DevAddr, written with the most significant digit first.
pub(crate) fn addr_of(device: &Table) -> Result<u32, ReadFault>
    ensures { result ≡ fields.addr_of (table_view device.now) }
{
    let bytes = required(device, "addr")?;
    Ok(u32::from_be_bytes(bytes))
}

/// A device's NwkSKey.
pub(crate) fn nwk_of(device: &Table) -> Result<[u8; 16], ReadFault>
    ensures { result ≡ fields.nwk_of (table_view device.now) }
{
    required(device, "nwkskey")
}

/// A device's AppSKey.
pub(crate) fn app_of(device: &Table) -> Result<[u8; 16], ReadFault>
    ensures { result ≡ fields.app_of (table_view device.now) }
{
    required(device, "appskey")
}

/// RX1Delay in seconds.
pub(crate) fn delay_of(device: &Table) -> Result<u8, ReadFault>
    ensures { result ≡ fields.delay_of (table_view device.now) }
{
    optional(device, "delay", DEFAULT_DELAY_S)
}

/// RX1DROffset.
pub(crate) fn offset_of(device: &Table) -> Result<u8, ReadFault>
    ensures { result ≡ fields.offset_of (table_view device.now) }
{
    optional(device, "offset", DEFAULT_OFFSET)
}

/// The frequency of RX2 in Hz.
pub(crate) fn rx2_freq_of(device: &Table) -> Result<u32, ReadFault>
    ensures { result ≡ fields.rx2_freq_of (table_view device.now) }
{
    optional(device, "rx2_freq", DEFAULT_RX2_FREQ_HZ)
}

/// The data rate of RX2.
pub(crate) fn rx2_rate_of(device: &Table) -> Result<DataRate, ReadFault>
    ensures { result ≡ fields.rx2_rate_of (table_view device.now) }
{
    optional(device, "rx2_dr", DEFAULT_RX2_RATE)
}

/// The last uplink counter, if there is one.
pub(crate) fn up_of(device: &Table) -> Result<Option<u32>, ReadFault>
    ensures { result ≡ fields.up_of (table_view device.now) }
{
    optional(device, "up", None)
}

/// The next downlink counter.
pub(crate) fn down_of(device: &Table) -> Result<u64, ReadFault>
    ensures { result ≡ fields.down_of (table_view device.now) }
{
    optional(device, "down", 0)
}
