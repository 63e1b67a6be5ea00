// The journal that says what a server knows.
ghost use Rattle.std.specs.Prelude.{◌≡◌, ◌≤◌, ◌^◌, IfOk};
ghost use Rattle.server_core.specs.Server.{seen};
ghost use Rattle.serve_journal.specs.Renewal.{renewal_text};
ghost use Rattle.serve_downlinks.specs.Batch.{knows};
ghost use Rattle.serve_renewal.specs.State.{state_of};

use crate::devices::{add_devices, add_queues};
use crate::gateways::{add_books, add_clocks, add_gateways};
use forwarder_sessions::{NoMemory, Session};
use serve_journal::BATCH_END;
use server_core::Server;
use std::alloc::Allocator;
use std::hash::BuildHasher;

/// The first line of a journal, with its end.
const HEAD: &[u8] = b"airbook journal 1\n";

/// A whole journal that says what a server knows when its clock shows `now`, in microseconds and at most 2^60: of each gateway
/// with a packet forwarder its book, and what its clock shows at least; of each device that stands in `device_sessions`, which tells
/// its session from others of the same address, its counters and what waits for it. What the books have forgotten is not in it.
/// Err(NoMemory) where an allocation was refused.
pub fn renewal_of<S: BuildHasher, A: Allocator + Copy>(
    alloc: A,
    server: &Server<S, A>,
    sessions: &[Session],
    device_sessions: &[(u32, [u8; 4])],
    now: u64,
) -> Result<Vec<u8, A>, NoMemory>
    requires { now ≤ 2 ^ 60 }
    ensures { IfOk result (λ text. text.items
        ≡ renewal_text (state_of (knows (seen server.now) sessions.now device_sessions.now now))) }
{
    let mut text = Vec::from_slice(alloc, HEAD)?;
    add_gateways(&mut text, server.books(), sessions)?;
    add_devices(&mut text, server, device_sessions)?;
    add_queues(&mut text, server, device_sessions)?;
    add_books(&mut text, server.books(), sessions)?;
    add_clocks(&mut text, server.books(), sessions, now)?;
    text.extend_from_slice(BATCH_END)?;
    Ok(text)
}
