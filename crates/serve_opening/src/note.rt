// What an operator is told of an opening.
ghost use Rattle.std.specs.Prelude.{◌≡◌, ◌==◌, find, map, IfOk};
ghost use Rattle.std.specs.List.{filter_map, list_any};
ghost use Rattle.std.specs.Option.{option_copied};
ghost use Rattle.serve_opening.specs.Notes.{stay_of, gateway_forgotten, device_note, notes_of};

use crate::device::{DeviceSession, is_kept};
use serve_journal::{JournalDevice, JournalGateway};
use server_core::{GatewaySetting, NoMemory};
use std::alloc::Allocator;
use std::fmt;

/// What an operator is told of an opening.
#[derive(Clone, Copy, Debug, PartialEq, Eq)]
pub enum Note {
    /// The book of a gateway can't have the cap and the gap, in microseconds, of the settings, and keeps these of the journal.
    RulesStay { id: u16, cap: u32, gap: u32 },
    /// A gateway of the journal, with its number there, isn't in the settings.
    GatewayForgotten { id: u16, eui: [u8; 8] },
    /// A device of the journal is in the settings in another session: its counters are the settings', and nothing waits for it.
    SessionChanged { addr: u32 },
    /// A device of the journal isn't in the settings.
    DeviceForgotten { addr: u32 },
}

/// One line of plain English.
impl fmt::Display for Note {
    fn fmt<W: fmt::Write>(&self, f: &mut fmt::Formatter<W>) -> fmt::Result {
        match *self {
            Note::RulesStay { id, cap, gap } => write!(
                f,
                "gateway {id} keeps cap {cap} and gap {gap}: what it has sent doesn't fit those of the settings"
            ),
            Note::GatewayForgotten { id, eui } => {
                let eui = u64::from_be_bytes(eui);
                write!(
                    f,
                    "gateway {id}, eui {eui:016x}, isn't in the settings and is forgotten"
                )
            }
            Note::SessionChanged { addr } => write!(
                f,
                "device {addr:08x} has a new session: its counters are the settings', and nothing waits for it"
            ),
            Note::DeviceForgotten { addr } => {
                write!(
                    f,
                    "device {addr:08x} isn't in the settings and is forgotten"
                )
            }
        }
    }
}

/// What an operator is told of an opening: first of the gateways that are set, beside what they open as; then of the journal's
/// gateways that none of these is; then of the journal's devices, beside the sessions of the devices that are set. Err(NoMemory)
/// where a growth was refused.
pub(crate) fn notes_of<A: Allocator + Copy>(
    alloc: A,
    gateways: &[GatewaySetting],
    opened: &[GatewaySetting],
    forgotten: &[JournalGateway<A>],
    sessions: &[DeviceSession],
    devices: &[JournalDevice<A>],
) -> Result<Vec<Note, A>, NoMemory>
    ensures { IfOk result (λ notes. notes.items ≡ notes_of gateways.now opened.now forgotten.now sessions.now devices.now) }
{
    let mut notes = stays_of(alloc, gateways, opened)?;
    notes.extend_from_slice(&forgotten_of(alloc, forgotten)?)?;
    notes.extend_from_slice(&device_notes(alloc, sessions, devices)?)?;
    Ok(notes)
}

/// The notes on gateways that don't open with the cap and the gap that are set.
fn stays_of<A: Allocator + Copy>(
    alloc: A,
    gateways: &[GatewaySetting],
    opened: &[GatewaySetting],
) -> Result<Vec<Note, A>, NoMemory>
    ensures { IfOk result (λ notes. notes.items ≡ filter_map (stay_of opened.now) gateways.now) }
{
    gateways
        .iter()
        .filter_map(|gateway| stay_of(gateway, opened))
        .collect(alloc)
}

/// The note on a gateway, if it doesn't open with the cap and the gap that are set.
fn stay_of(gateway: &GatewaySetting, opened: &[GatewaySetting]) -> Option<Note>
    ensures { result ≡ stay_of opened.now gateway.now }
{
    let kept = opened_as(gateway.id, opened)?;
    if kept.cap == gateway.cap && kept.gap == gateway.gap {
        return None;
    }
    Some(Note::RulesStay {
        id: gateway.id,
        cap: kept.cap,
        gap: kept.gap,
    })
}

/// How the gateway with this number opens.
fn opened_as(id: u16, opened: &[GatewaySetting]) -> Option<&GatewaySetting>
    ensures { option_copied result ≡ find (λ o. o.id == id) opened.now }
{
    opened.iter().find(|kept| kept.id == id)
}

/// The notes on these gateways of the journal, which aren't in the settings.
fn forgotten_of<A: Allocator + Copy>(
    alloc: A,
    forgotten: &[JournalGateway<A>],
) -> Result<Vec<Note, A>, NoMemory>
    ensures { IfOk result (λ notes. notes.items ≡ map gateway_forgotten forgotten.now) }
{
    forgotten.iter().map(gateway_forgotten).collect(alloc)
}

/// The note on a gateway of the journal that isn't in the settings.
fn gateway_forgotten<A: Allocator + Clone>(gateway: &JournalGateway<A>) -> Note
    ensures { result ≡ gateway_forgotten gateway.now }
{
    Note::GatewayForgotten {
        id: gateway.id,
        eui: gateway.eui,
    }
}

/// The notes on these devices of the journal.
fn device_notes<A: Allocator + Copy>(
    alloc: A,
    sessions: &[DeviceSession],
    devices: &[JournalDevice<A>],
) -> Result<Vec<Note, A>, NoMemory>
    ensures { IfOk result (λ notes. notes.items ≡ filter_map (device_note sessions.now) devices.now) }
{
    devices
        .iter()
        .filter_map(|device| device_note(device, sessions))
        .collect(alloc)
}

/// The note on a device of the journal, if it isn't in the settings, or in another session.
fn device_note<A: Allocator>(device: &JournalDevice<A>, sessions: &[DeviceSession]) -> Option<Note>
    ensures { result ≡ device_note sessions.now device.now }
{
    if is_kept(sessions, device) {
        return None;
    }
    let addr = device.addr;
    if is_set(sessions, addr) {
        return Some(Note::SessionChanged { addr });
    }
    Some(Note::DeviceForgotten { addr })
}

/// Whether one of these devices has this address.
fn is_set(sessions: &[DeviceSession], addr: u32) -> bool
    ensures { result ≡ list_any (λ s. s.0 == addr) sessions.now }
{
    sessions.iter().any(|session| session.0 == addr)
}
