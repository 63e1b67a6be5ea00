// What a datagram asks for.
ghost use Rattle.std.specs.Prelude.{◌≡◌, IfOk, IfErr, IsSome};
ghost use Rattle.std.specs.Global.{Global};
ghost use Rattle.std.specs.List.{list_any};
ghost use Rattle.text_lines.specs.Words.{words_of};
ghost use Rattle.run_lines.specs.Datagram.{asks_for_uplink, sent_event, datagram_event};

use crate::key_ring::KeyRing;
use crate::run_events::line_event;
use crate::run_input::next_line;
use server_core::{DeviceSetting, Event, NoMemory};
use std::alloc::Global;
use text_lines::{LINE_LIMIT, first_word, is_passed_over};

/// The room for a datagram in bytes: one byte more than the longest line has, with a carriage return and a line feed.
pub const DATAGRAM_ROOM: usize = LINE_LIMIT + 3;

/// What the datagram of turn `number` asks for, by the devices of the settings; None where it is passed over. One that
/// fills the room may have been cut off, and is malformed. Err(NoMemory) where a growth was refused, which comes only for
/// one that asks for something.
pub fn datagram_event(
    alloc: Global,
    devices: &[DeviceSetting],
    number: u64,
    datagram: &[u8],
) -> Result<Option<Event<Global>>, NoMemory>
    ensures event { IfOk result (λ event. event ≡ datagram_event devices.now number datagram.now) }
    ensures asked { IfErr result (λ _. IsSome (datagram_event {A = Global} devices.now number datagram.now)) }
{
    if datagram.len() >= DATAGRAM_ROOM {
        return Ok(Some(Event::Bad { line: number }));
    }
    let Some((line, rest)) = next_line(datagram) else {
        return Ok(None);
    };
    match next_line(rest) {
        Some(_) => Ok(Some(Event::Bad { line: number })),
        None => sent_event(alloc, devices, number, line),
    }
}

/// What the one line of a datagram asks for.
fn sent_event(
    alloc: Global,
    devices: &[DeviceSetting],
    number: u64,
    line: &[u8],
) -> Result<Option<Event<Global>>, NoMemory>
    ensures event { IfOk result (λ event. event ≡ sent_event devices.now number line.now) }
    ensures asked { IfErr result (λ _. IsSome (sent_event {A = Global} devices.now number line.now)) }
{
    if is_passed_over(line) {
        return Ok(None);
    }
    if asks_for_uplink(line) {
        return Ok(Some(Event::Bad { line: number }));
    }
    // No word asks for an uplink to be made, so no key is asked for.
    line_event(alloc, &KeyRing::unexpanded(devices), number, line)
}

/// Whether a word of the line begins with `@`.
fn asks_for_uplink(line: &[u8]) -> bool
    ensures { result ≡ list_any asks_for_uplink (words_of line.now) }
{
    let mut rest = line;
    while let Some((word, after)) = first_word(rest) {
        if let [b'@', ..] = word {
            return true;
        }
        rest = after;
    }
    false
}
