// Settings are read from TOML.
ghost use Rattle.std.specs.Prelude.{◌≡◌, ◌≢◌, Some, None, Result, Ok, Err, IfOk, IfErr};
ghost use Rattle.toml.specs.Data.{Members};
ghost use Rattle.toml.specs.Parse.{parse_document};
ghost use Rattle.toml.specs.View.{view, table_view, items_view};
ghost use Rattle.settings_text.specs.declared.settings_fault.ReadFault.{ReadFault};
ghost use Rattle.settings_text.specs.SettingsOfTable.{gateway_setting, device_setting, setting_in, each_in, list_at, settings_of};
ghost use Rattle.settings_text.specs.SettingsOfTable.{settings_of_document};

use crate::ReadFault;
use crate::settings_fields::{
    addr_of, app_of, cap_of, delay_of, down_of, gap_of, id_of, nwk_of, offset_of, rx2_freq_of,
    rx2_rate_of, up_of, value_at,
};
use server_desk::{DeviceSetting, GatewaySetting, Settings};
use std::alloc::Global;
use toml::{Table, Value};

/// A setting that a table gives.
trait FromTable: Copy {
    ghost of: { Members → Result Self ReadFault };

    /// The setting of this table, or its first fault.
    fn from_table(table: &Table) -> Result<Self, ReadFault>
        ensures { result ≡ of (table_view table.now) };
}

impl FromTable for GatewaySetting {
    ghost of = { gateway_setting };

    fn from_table(table: &Table) -> Result<Self, ReadFault> {
        Ok(GatewaySetting {
            id: id_of(table)?,
            cap: cap_of(table)?,
            gap: gap_of(table)?,
        })
    }
}

impl FromTable for DeviceSetting {
    ghost of = { device_setting };

    fn from_table(table: &Table) -> Result<Self, ReadFault> {
        Ok(DeviceSetting {
            addr: addr_of(table)?,
            nwk: nwk_of(table)?,
            app: app_of(table)?,
            delay: delay_of(table)?,
            offset: offset_of(table)?,
            rx2_freq: rx2_freq_of(table)?,
            rx2_rate: rx2_rate_of(table)?,
            up: up_of(table)?,
            down: down_of(table)?,
        })
    }
}

/// The setting of a value, which has to be a table.
fn setting_in<S: FromTable>(value: &Value) -> Result<S, ReadFault>
    ensures { result ≡ setting_in S.of (view value.now) }
{
    match value {
        Value::Table(table) => S::from_table(table),
        _ => Err(ReadFault::Kind),
    }
}

/// The settings of an array's tables, in order.
fn each_in<S: FromTable>(alloc: Global, values: &[Value]) -> Result<Vec<S>, ReadFault>
    ensures given { IfOk result (λ settings. each_in S.of (items_view values.now) ≡ Ok settings.items) }
    ensures fault { IfErr result (λ fault. fault ≢ ReadFault.NoMemory → each_in S.of (items_view values.now) ≡ Err fault) }
{
    let mut settings = Vec::new(alloc);
    for value in values {
        let setting = setting_in(value)?;
        settings.push(setting).map_err(|_| ReadFault::NoMemory)?;
    }
    Ok(settings)
}

/// The settings of the array of tables at a key; none where the key is not there.
fn list_at<S: FromTable>(alloc: Global, table: &Table, key: &str) -> Result<Vec<S>, ReadFault>
    ensures given { IfOk result (λ settings. list_at S.of key.now (table_view table.now) ≡ Ok settings.items) }
    ensures fault { IfErr result (λ fault. fault ≢ ReadFault.NoMemory → list_at S.of key.now (table_view table.now) ≡ Err fault) }
{
    match value_at(table, key) {
        None => Ok(Vec::new(alloc)),
        Some(Value::Array(values)) => each_in(alloc, values),
        Some(_) => Err(ReadFault::Kind),
    }
}

/// Reads a text as TOML.
fn document_of(alloc: Global, text: &str) -> Result<Table, ReadFault>
    ensures given { IfOk result (λ table. parse_document text.now ≡ Some (table_view table)) }
    ensures fault { IfErr result (λ fault. fault ≢ ReadFault.NoMemory
        → (fault ≡ ReadFault.NotToml) × (parse_document text.now ≡ None)) }
{
    match toml::table_from_str(alloc, text) {
        Ok(table) => Ok(table),
        Err(fault) if fault.is_memory() => Err(ReadFault::NoMemory),
        Err(_) => Err(ReadFault::NotToml),
    }
}

/// Reads settings from a text of TOML with arrays of tables `gateway` and `device` (docs/FORMATS.md,
/// "Settings"). Keys that are not known are passed over, and an array that is not there is empty. Of a
/// text with several faults the first is named: first whether it is TOML, then the gateways' tables and
/// the devices', each key by key, and at last the settings as a whole. `NoMemory` may come earlier.
#[tactic(auto, unfolding(crate::specs::SettingsOfTable::settings_of))]
pub fn read_settings(alloc: Global, text: &str) -> Result<Settings<Global>, ReadFault>
    ensures given { IfOk result (λ settings. settings_of text.now ≡ Ok settings) }
    ensures fault { IfErr result (λ fault. fault ≢ ReadFault.NoMemory → settings_of text.now ≡ Err fault) }
{
    let document = document_of(alloc, text)?;
    document_settings(alloc, &document)
}

/// The settings of a document that was parsed already, as `read_settings` gives them for its text: never `NotToml`.
pub fn document_settings(alloc: Global, document: &Table) -> Result<Settings<Global>, ReadFault>
    ensures given { IfOk result (λ settings. settings_of_document (table_view document.now) ≡ Ok settings) }
    ensures fault { IfErr result (λ fault. fault ≢ ReadFault.NoMemory
        → settings_of_document (table_view document.now) ≡ Err fault) }
{
    let gateways = list_at(alloc, document, "gateway")?;
    let devices = list_at(alloc, document, "device")?;
    Settings::new(gateways, devices).map_err(ReadFault::Checked)
}
