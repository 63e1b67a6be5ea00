// What the settings say as a whole.

use crate::finding::Finding;
use crate::search::members_of;
use crate::setting_key::KEYS;
use crate::walk::TableList;
use server_desk::DataRate;
use std::alloc::{AllocError, Global};
use toml::{Table, Value};

/// A downlink that carries a payload has so many bytes beside it: MHDR, FHDR, FPort and MIC (LoRaWAN L2 1.0.4, section 4).
const FRAME_BYTES: u8 = 13;

/// How many errors and warnings there are.
pub(crate) fn counts_line(alloc: Global, findings: &[Finding]) -> Result<String, AllocError> {
    let errors = findings.iter().filter(|f| f.severity.is_error()).count();
    let warnings = findings.len().saturating_sub(errors);
    format!(in alloc; "found errors {errors} warnings {warnings}\n")
}

/// How many gateways and devices a document has, the greatest payload in bytes at each data rate, and the keys that tables leave
/// out, each with its default and in how many tables.
pub(crate) fn add_document(
    alloc: Global,
    document: &Table,
    lines: &mut String,
) -> Result<(), AllocError> {
    let gateways = members_of(document, TableList::Gateways).len();
    let devices = members_of(document, TableList::Devices).len();
    let counts = format!(in alloc; "gateways {gateways} devices {devices}\npayload")?;
    lines.push_str(counts.as_str())?;
    for number in 0..7u8 {
        if let Some(rate) = DataRate::from_number(number) {
            let most = rate.max_phy().saturating_sub(FRAME_BYTES);
            let words = format!(in alloc; " DR{number} {most}")?;
            lines.push_str(words.as_str())?;
        }
    }
    lines.push_str("\n")?;
    add_defaults(alloc, document, TableList::Gateways, lines)?;
    add_defaults(alloc, document, TableList::Devices, lines)
}

/// A line for each key that tables of a list leave out and need not have.
fn add_defaults(
    alloc: Global,
    document: &Table,
    list: TableList,
    lines: &mut String,
) -> Result<(), AllocError> {
    let members = members_of(document, list);
    let table = list.name();
    for key in KEYS {
        let name = key.name();
        let Some(default) = key.default() else {
            continue;
        };
        if key.list() != list {
            continue;
        }
        let count = members
            .iter()
            .filter(|member| leaves_out(member, name))
            .count();
        if count > 0 {
            let line = format!(in alloc; "default {table} {name} {default} of {count}\n")?;
            lines.push_str(line.as_str())?;
        }
    }
    Ok(())
}

/// Whether a table leaves a key out.
fn leaves_out(member: &Value, key: &str) -> bool {
    match member {
        Value::Table(table) => table.get(key).is_none(),
        _ => false,
    }
}
