// What is said of the devices.
ghost use Rattle.std.specs.Prelude.{◌≡◌, ◌++◌, OnOk};
ghost use Rattle.std.specs.List.{flat_map};
ghost use Rattle.server_core.specs.Server.{seen};
ghost use Rattle.serve_downlinks.specs.Batch.{entries_text};
ghost use Rattle.serve_renewal.specs.State.{device_entries, queue_entries, payload_entries};

use answer_ticket::Bytes;
use forwarder_sessions::NoMemory;
use serve_downlinks::add_entry;
use serve_journal::{Entry, Payload};
use server_core::Server;
use std::alloc::Allocator;
use std::hash::BuildHasher;

/// Adds `device ADDR SESSION UP DOWN` for each device that the server has.
pub(crate) fn add_devices<S: BuildHasher, A: Allocator + Copy>(
    text: &mut Vec<u8, A>,
    server: &Server<S, A>,
    device_sessions: &[(u32, [u8; 4])],
) -> Result<(), NoMemory>
    ensures { OnOk result (text.new.items ≡ text.old.items
        ++ entries_text (flat_map (device_entries (seen server.now).desk.reg.devices) device_sessions.now)) }
{
    for known in device_sessions {
        add_device(text, server, known)?;
    }
    Ok(())
}

/// Adds that of one device, if the server has it.
fn add_device<S: BuildHasher, A: Allocator + Copy>(
    text: &mut Vec<u8, A>,
    server: &Server<S, A>,
    known: &(u32, [u8; 4]),
) -> Result<(), NoMemory>
    ensures { OnOk result (text.new.items ≡ text.old.items
        ++ entries_text (device_entries (seen server.now).desk.reg.devices known.now)) }
{
    match server.device(known.0) {
        None => Ok(()),
        Some(counters) => add_entry(
            text,
            &Entry::Device {
                addr: known.0,
                session: known.1,
                up: counters.up,
                down: counters.down,
            },
        ),
    }
}

/// Adds `queue ADDR PORT HEX` for each payload that waits for one of these devices.
pub(crate) fn add_queues<S: BuildHasher, A: Allocator + Copy>(
    text: &mut Vec<u8, A>,
    server: &Server<S, A>,
    device_sessions: &[(u32, [u8; 4])],
) -> Result<(), NoMemory>
    ensures { OnOk result (text.new.items ≡ text.old.items
        ++ entries_text (flat_map (queue_entries (seen server.now).desk.reg.devices) device_sessions.now)) }
{
    for known in device_sessions {
        add_queue(text, known.0, server.waiting(known.0))?;
    }
    Ok(())
}

/// Adds those of the device with this address.
fn add_queue<A: Allocator>(
    text: &mut Vec<u8, A>,
    addr: u32,
    waiting: &[(u8, Bytes<A>)],
) -> Result<(), NoMemory>
    ensures { OnOk result (text.new.items ≡ text.old.items
        ++ entries_text (flat_map (payload_entries addr) waiting.now)) }
{
    for payload in waiting {
        add_payload(text, addr, payload)?;
    }
    Ok(())
}

/// Adds that of one payload. A desk keeps none that `Payload` can't be.
fn add_payload<A: Allocator>(
    text: &mut Vec<u8, A>,
    addr: u32,
    payload: &(u8, Bytes<A>),
) -> Result<(), NoMemory>
    ensures { OnOk result (text.new.items ≡ text.old.items ++ entries_text (payload_entries addr payload.now)) }
{
    match Payload::new(payload.0, payload.1.as_slice()) {
        None => Ok(()),
        Some(payload) => add_entry(text, &Entry::Queue { addr, payload }),
    }
}
