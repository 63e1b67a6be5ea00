// The lines of a run are made into events, all at once or in two parts.
ghost use Rattle.std.specs.Prelude.{◌≡◌, ◌+◌, ◌^◌, ◌<◌, ◌≤◌, ◌++◌, length, IfOk, IfSome};
ghost use Rattle.std.specs.Str.Lines.{lines};
ghost use Rattle.run_lines.specs.RunEvents.{events_from};

use crate::key_ring::KeyRing;
use crate::run_events::append_event;
use crate::run_input::{feed_at, next_line};
use memchr::memchr_iter;
use server_core::{DeviceSetting, Event, NoMemory};
use std::alloc::Global;

/// Fewer bytes than these are not worth a second part: some 1,000 lines or less.
const BYTES_IN_PARTS: usize = 65_536;

/// The events that the lines of a text ask for, by the devices of the settings; its first line has this number.
/// Err(NoMemory) where a growth was refused.
pub fn events_from(
    alloc: Global,
    devices: &[DeviceSetting],
    number: u64,
    text: &[u8],
) -> Result<Vec<Event<Global>>, NoMemory>
    requires { number + length text.now < 2 ^ 64 }
    ensures { IfOk result (λ events. events.items ≡ events_from devices.now number (lines text.now)) }
{
    let ring = KeyRing::new(alloc, devices)?;
    events_with(alloc, &ring, number, text)
}

/// The same, by the devices of these keys.
fn events_with(
    alloc: Global,
    ring: &KeyRing<'_>,
    number: u64,
    text: &[u8],
) -> Result<Vec<Event<Global>>, NoMemory>
    requires { number + length text.now < 2 ^ 64 }
    ensures { IfOk result (λ events. events.items ≡ events_from ring.now.devices.now number (lines text.now)) }
{
    let mut events = Vec::new(alloc);
    let (mut at, mut left) = (number, text);
    while let Some((line, rest)) = next_line(left) {
        append_event(&mut events, alloc, ring, at, line)?;
        at += 1;
        left = rest;
    }
    Ok(events)
}

/// The first quarter of a text's lines, by their bytes: the lines up to the first line feed from there on, how many they are,
/// and those behind them. None where the text has fewer than 65,536 bytes, or no line feed stands there.
pub fn first_quarter(text: &[u8]) -> Option<(&[u8], usize, &[u8])>
    ensures lines { IfSome result (λ parts. lines text.now ≡ lines parts.0.now ++ lines parts.2.now) }
    ensures count { IfSome result (λ parts. parts.1 ≡ length (lines parts.0.now)) }
    ensures whole { IfSome result (λ parts. length text.now ≡ length parts.0.now + length parts.2.now) }
    ensures few { IfSome result (λ parts. parts.1 ≤ length parts.0.now) }
{
    if text.len() < BYTES_IN_PARTS {
        return None;
    }
    let quarter = text.len() / 4;
    let end = quarter + feed_at(&text[quarter..])?;
    let (front, back) = text.split_at(end + 1);
    Some((front, memchr_iter(b'\n', front).count(), back))
}
