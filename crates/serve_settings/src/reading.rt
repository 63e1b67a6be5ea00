// Settings of a server that packet forwarders are pointed at are read from TOML.
ghost use Rattle.std.specs.Prelude.{◌≡◌, ◌≢◌, [], Some, None, Ok, Err, IfOk, IfErr};
ghost use Rattle.std.specs.List.{list_any};
ghost use Rattle.std.specs.Str.{bytes_eq};
ghost use Rattle.toml.specs.Parse.{parse_document};
ghost use Rattle.toml.specs.View.{view, table_view, items_view};
ghost use Rattle.settings_text.specs.SettingsOfTable.{settings_of_document};
ghost use Rattle.serve_settings.specs.ServeSettings.{no_memory, as_read, forwarder_in, each_in, forwarders_of, is_low_gap, has_double};
ghost use Rattle.serve_settings.specs.ServeSettings.{serve_settings_of_document, serve_settings_of, given};

use crate::ServeFault;
use crate::forwarder::{Forwarder, LEAST_GAP_US};
use crate::forwarder_keys::{forwarder_of, value_at};
use server_desk::{GatewaySetting, Settings};
use settings_text::{ReadFault, document_settings};
use std::alloc::Global;
use toml::{Table, Value};

/// The fault that an allocation was refused.
const NO_MEMORY: ServeFault = ServeFault::Read(ReadFault::NoMemory);

/// The settings of a server that packet forwarders are pointed at.
#[derive(Drop)]
pub struct ServeSettings {
    /// Those of a run.
    pub settings: Settings<Global>,
    /// The packet forwarder of each gateway, in the gateways' order.
    pub forwarders: Vec<Forwarder>,
}

/// Reads settings from a text of TOML as `read_settings` does (docs/FORMATS.md, "Settings"), and of each gateway its `eui`, `from`,
/// `power` and `lead`. Of a text with several faults the first is named: first those of `read_settings` in its order; then Missing,
/// Kind or Range of these keys, gateway by gateway and key by key; then Gap, and then DoubleEui. `NoMemory` may come earlier.
#[tactic(auto, unfolding(crate::specs::ServeSettings::serve_settings_of))]
pub fn read_serve_settings(alloc: Global, text: &str) -> Result<ServeSettings, ServeFault>
    ensures given { IfOk result (λ settings. serve_settings_of text.now ≡ Ok (given settings)) }
    ensures fault { IfErr result (λ fault. fault ≢ no_memory → serve_settings_of text.now ≡ Err fault) }
{
    let document = document_of(alloc, text)?;
    serve_settings_in(alloc, &document)
}

/// Reads a text as TOML.
fn document_of(alloc: Global, text: &str) -> Result<Table, ServeFault>
    ensures given { IfOk result (λ table. parse_document text.now ≡ Some (table_view table)) }
    ensures fault { IfErr result (λ fault. fault ≢ no_memory
        → (fault ≡ ServeFault.Read ReadFault.NotToml) × (parse_document text.now ≡ None)) }
{
    match toml::table_from_str(alloc, text) {
        Ok(table) => Ok(table),
        Err(fault) if fault.is_memory() => Err(NO_MEMORY),
        Err(_) => Err(ServeFault::Read(ReadFault::NotToml)),
    }
}

/// The settings of a document.
fn serve_settings_in(alloc: Global, document: &Table) -> Result<ServeSettings, ServeFault>
    ensures given { IfOk result (λ settings. serve_settings_of_document (table_view document.now) ≡ Ok (given settings)) }
    ensures fault { IfErr result (λ fault. fault ≢ no_memory → serve_settings_of_document (table_view document.now) ≡ Err fault) }
{
    let settings = settings_in(alloc, document)?;
    let forwarders = forwarders_of(alloc, document)?;
    if has_low_gap(settings.gateways()) {
        return Err(ServeFault::Gap);
    }
    if has_double(&forwarders) {
        return Err(ServeFault::DoubleEui);
    }
    Ok(ServeSettings {
        settings,
        forwarders,
    })
}

/// The settings of a run that a document gives.
fn settings_in(alloc: Global, document: &Table) -> Result<Settings<Global>, ServeFault>
    ensures given { IfOk result (λ settings. as_read (settings_of_document (table_view document.now)) ≡ Ok settings) }
    ensures fault { IfErr result (λ fault. fault ≢ no_memory → as_read (settings_of_document (table_view document.now)) ≡ Err fault) }
{
    match document_settings(alloc, document) {
        Ok(settings) => Ok(settings),
        Err(fault) => Err(ServeFault::Read(fault)),
    }
}

/// The packet forwarders of a document's gateways, in order.
fn forwarders_of(alloc: Global, document: &Table) -> Result<Vec<Forwarder>, ServeFault>
    ensures given { IfOk result (λ forwarders. forwarders_of (table_view document.now) ≡ Ok forwarders.items) }
    ensures fault { IfErr result (λ fault. fault ≢ no_memory → forwarders_of (table_view document.now) ≡ Err fault) }
{
    match value_at(document, "gateway") {
        None => Ok(Vec::new(alloc)),
        Some(Value::Array(values)) => each_in(alloc, values),
        Some(_) => Err(ServeFault::Kind),
    }
}

/// The packet forwarders of an array's tables, in order.
fn each_in(alloc: Global, values: &[Value]) -> Result<Vec<Forwarder>, ServeFault>
    ensures given { IfOk result (λ forwarders. each_in (items_view values.now) ≡ Ok forwarders.items) }
    ensures fault { IfErr result (λ fault. fault ≢ no_memory → each_in (items_view values.now) ≡ Err fault) }
{
    let mut forwarders = Vec::new(alloc);
    for value in values {
        let forwarder = forwarder_in(value)?;
        forwarders.push(forwarder).map_err(|_| NO_MEMORY)?;
    }
    Ok(forwarders)
}

/// The packet forwarder of a value, which has to be a table.
fn forwarder_in(value: &Value) -> Result<Forwarder, ServeFault>
    ensures { result ≡ forwarder_in (view value.now) }
{
    match value {
        Value::Table(table) => forwarder_of(table),
        _ => Err(ServeFault::Kind),
    }
}

/// Whether a gateway's gap is below what packet forwarders need.
fn has_low_gap(gateways: &[GatewaySetting]) -> bool
    ensures { result ≡ list_any is_low_gap gateways.now }
{
    gateways.iter().any(|gateway| gateway.gap < LEAST_GAP_US)
}

/// Whether two of these have the same EUI. Each is compared with all before it, and there are at most 64.
fn has_double(forwarders: &[Forwarder]) -> bool
    ensures { result ≡ has_double [] forwarders.now }
{
    for (place, forwarder) in forwarders.iter().enumerate() {
        if has_eui(&forwarders[..place], &forwarder.eui) {
            return true;
        }
    }
    false
}

/// Whether one of these has this EUI.
fn has_eui(forwarders: &[Forwarder], eui: &[u8]) -> bool
    ensures { result ≡ list_any (λ f. bytes_eq f.eui eui.now) forwarders.now }
{
    forwarders
        .iter()
        .any(|forwarder| forwarder.eui.as_slice() == eui)
}
