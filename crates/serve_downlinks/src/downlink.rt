// The downlinks among the lines that answer a pass.
ghost use Rattle.std.specs.Prelude.{◌≡◌, [], ◌++◌, map, IfOk, OnOk};
ghost use Rattle.std.specs.Option.{option_map};
ghost use Rattle.serve_downlinks.specs.Downlinks.{to_send, downlink_at, with_first, downlinks, line_of};

use forwarder_sessions::NoMemory;
use rx_windows::Candidate;
use server_core::{Entry, Line};
use std::alloc::Allocator;

/// A downlink that was booked: it answers an uplink in a receive window of its device (LoRaWAN L2 1.0.4, section 3.3).
#[derive(Clone, Copy, Debug)]
pub struct Downlink<'a> {
    /// The number of the uplink that it answers.
    pub number: u64,
    /// What was booked for it: the gateway, the start on that gateway's clock in microseconds, the channel and the rate.
    pub candidate: Candidate,
    /// Its PHYPayload.
    pub frame: &'a [u8],
}

/// The downlinks among the lines that answer a pass, in their order: each `Line::Send` that has a `Line::Frame` right behind it.
/// Err(NoMemory) where an allocation was refused.
pub fn downlinks_of<A: Allocator, B: Allocator>(
    alloc: A,
    entries: &[Entry<B>],
) -> Result<Vec<Downlink<'_>, A>, NoMemory>
    ensures { IfOk result (λ found. map to_send found.items ≡ downlinks (map line_of entries.now)) }
{
    let mut found = Vec::new(alloc);
    for place in 0..entries.len() {
        add_first(&mut found, &entries[place..])?;
    }
    Ok(found)
}

/// Adds the downlink of the first two lines, if they are one's.
fn add_first<'a, A: Allocator, B: Allocator>(
    found: &mut Vec<Downlink<'a>, A>,
    entries: &'a [Entry<B>],
) -> Result<(), NoMemory>
    ensures { OnOk result (map to_send found.new.items
        ≡ map to_send found.old.items ++ with_first (downlink_at (map line_of entries.now)) []) }
{
    match downlink_at(entries) {
        Some(downlink) => Ok(found.push(downlink)?),
        None => Ok(()),
    }
}

/// The downlink of the first two lines, if they are one's.
fn downlink_at<B: Allocator>(entries: &[Entry<B>]) -> Option<Downlink<'_>>
    ensures { option_map to_send result ≡ downlink_at (map line_of entries.now) }
{
    let [first, second, ..] = entries else {
        return None;
    };
    match (&first.line, &second.line) {
        (Line::Send { number, candidate }, Line::Frame { bytes, .. }) => Some(Downlink {
            number: *number,
            candidate: *candidate,
            frame: bytes.as_slice(),
        }),
        _ => None,
    }
}
