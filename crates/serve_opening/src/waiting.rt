// What waits for devices when a server opens.
ghost use Rattle.std.specs.Prelude.{◌≡◌, ◌++◌, map, IfOk, OnOk};
ghost use Rattle.serve_opening.specs.Devices.{waits, all_waits};

use crate::device::{DeviceSession, is_kept};
use serve_journal::{JournalDevice, Payload};
use server_core::NoMemory;
use std::alloc::Allocator;

/// What waits for those of the journal's devices that are among these in the same session: each payload with its device's address.
/// Err(NoMemory) where a growth was refused.
pub(crate) fn waiting_of<A: Allocator + Copy>(
    alloc: A,
    sessions: &[DeviceSession],
    devices: Vec<JournalDevice<A>, A>,
) -> Result<Vec<(u32, Payload), A>, NoMemory>
    ensures { IfOk result (λ waiting. waiting.items ≡ all_waits sessions.now devices.items) }
{
    let mut waiting = Vec::new(alloc);
    for device in devices {
        add_queue(&mut waiting, sessions, device)?;
    }
    Ok(waiting)
}

/// Adds what waits for a device, where it is among these in the same session.
fn add_queue<A: Allocator>(
    waiting: &mut Vec<(u32, Payload), A>,
    sessions: &[DeviceSession],
    device: JournalDevice<A>,
) -> Result<(), NoMemory>
    ensures { OnOk result (waiting.new.items ≡ waiting.old.items ++ waits sessions.now device) }
{
    if is_kept(sessions, &device) {
        return add_all(waiting, device.addr, device.queue);
    }
    Ok(())
}

/// Adds these payloads for the device with this address.
fn add_all<A: Allocator>(
    waiting: &mut Vec<(u32, Payload), A>,
    addr: u32,
    queue: Vec<Payload, A>,
) -> Result<(), NoMemory>
    ensures { OnOk result (waiting.new.items ≡ waiting.old.items ++ map (λ payload. (addr, payload)) queue.items) }
{
    for payload in queue {
        waiting.push((addr, payload))?;
    }
    Ok(())
}
