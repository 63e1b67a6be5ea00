// What the devices of a server open with.
ghost use Rattle.std.specs.Prelude.{◌≡◌, map, find, IfOk};
ghost use Rattle.std.specs.Option.{option_copied};
ghost use Rattle.serve_opening.specs.Devices.{session_at, is_same, is_kept, greater, raised, raised_by};

use aes_cmac::Key;
use serve_journal::{JournalDevice, session_of};
use server_core::{DeviceSetting, NoMemory};
use std::alloc::Allocator;

/// A device's address (DevAddr), and what tells its session from others of the same address.
pub(crate) type DeviceSession = (u32, [u8; 4]);

/// What the devices of a server open with, in the order of the settings.
#[derive(Drop)]
pub(crate) struct Devices<A: Allocator> {
    pub(crate) settings: Vec<DeviceSetting, A>,
    pub(crate) sessions: Vec<DeviceSession, A>,
}

/// The devices as they are set, each with the greater of both counters where the journal has it in its session, and their sessions.
/// Err(NoMemory) where a growth was refused.
pub(crate) fn devices_of<A: Allocator + Copy>(
    alloc: A,
    devices: &[DeviceSetting],
    known: &[JournalDevice<A>],
) -> Result<Devices<A>, NoMemory>
    ensures settings { IfOk result (λ opened. opened.settings.items ≡ map (raised known.now) devices.now) }
    ensures sessions { IfOk result (λ opened. opened.sessions.items ≡ map session_at devices.now) }
{
    let mut settings = Vec::with_capacity(alloc, devices.len())?;
    let mut sessions = Vec::with_capacity(alloc, devices.len())?;
    for device in devices {
        let session = session_at(device);
        settings.push(raised(device, &session, known))?;
        sessions.push(session)?;
    }
    Ok(Devices { settings, sessions })
}

/// A device's address and session.
fn session_at(device: &DeviceSetting) -> DeviceSession
    ensures { result ≡ session_at device.now }
{
    let nwkskey = Key::new(device.nwk);
    (device.addr, session_of(&nwkskey, &device.app))
}

/// A device with the greater of both counters where the journal has it in this session.
fn raised<A: Allocator>(
    device: &DeviceSetting,
    session: &DeviceSession,
    known: &[JournalDevice<A>],
) -> DeviceSetting
    ensures { result ≡ raised_by device.now (find (is_same session.now) known.now) }
{
    match known_as(session, known) {
        Some(known) => DeviceSetting {
            up: greater(device.up, known.up),
            down: device.down.max(known.down),
            ..*device
        },
        None => *device,
    }
}

/// The journal's device that this one is, in this session.
fn known_as<'a, A: Allocator>(
    session: &DeviceSession,
    known: &'a [JournalDevice<A>],
) -> Option<&'a JournalDevice<A>>
    ensures { option_copied result ≡ find (is_same session.now) known.now }
{
    known.iter().find(|known| is_same(session, known))
}

/// The greater of two uplink counters: none is below any.
fn greater(first: Option<u32>, second: Option<u32>) -> Option<u32>
    ensures { result ≡ greater first second }
{
    match (first, second) {
        (Some(first), Some(second)) => Some(first.max(second)),
        (Some(first), None) => Some(first),
        (None, second) => second,
    }
}

/// Whether one of these devices is the journal's, in its session.
pub(crate) fn is_kept<A: Allocator>(sessions: &[DeviceSession], known: &JournalDevice<A>) -> bool
    ensures { result ≡ is_kept sessions.now known.now }
{
    sessions.iter().any(|session| is_same(session, known))
}

/// Whether the journal's device is this one, in this session.
fn is_same<A: Allocator>(session: &DeviceSession, known: &JournalDevice<A>) -> bool
    ensures { result ≡ is_same session.now known.now }
{
    known.addr == session.0 && known.session.as_slice() == session.1.as_slice()
}
