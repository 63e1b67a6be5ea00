// What the lines of `airbook run` ask for.
ghost use Rattle.std.specs.Prelude.{◌≡◌, ◌++◌, map, Some, IfOk, OnOk};
ghost use Rattle.std.specs.Option.{option_to_list};
ghost use Rattle.text_lines.specs.Number.{number_signed};
ghost use Rattle.run_lines.specs.RunWords.{uplink_word};
ghost use Rattle.run_lines.specs.RunEvents.{queue_event, heard_with, number_of, hear_with, hear_event, pass_event, tick_event};
ghost use Rattle.run_lines.specs.RunEvents.{cancel_event, worded_event, line_event};

use crate::key_ring::KeyRing;
use crate::run_words::{addr_word, hex_word, uplink_word};
use server_core::{Event, Heard1, NoMemory};
use std::alloc::Global;
use text_lines::{
    Words, is_passed_over, is_too_long, is_word, number_i16, number_u8, number_u16, number_u32,
    number_u64,
};

/// What line number `number` asks for, its end left out, by the devices of the settings and their keys; None where it is
/// passed over.
pub(crate) fn line_event(
    alloc: Global,
    ring: &KeyRing<'_>,
    number: u64,
    line: &[u8],
) -> Result<Option<Event<Global>>, NoMemory>
    ensures { IfOk result (λ event. event ≡ line_event ring.now.devices.now number line.now) }
{
    if is_passed_over(line) {
        return Ok(None);
    }
    if is_too_long(line) {
        return Ok(Some(Event::Bad { line: number }));
    }
    match worded_event(alloc, ring, Words::of(line).as_slice())? {
        Some(event) => Ok(Some(event)),
        None => Ok(Some(Event::Bad { line: number })),
    }
}

/// The event that the words are, if they are one.
fn worded_event(
    alloc: Global,
    ring: &KeyRing<'_>,
    words: &[&[u8]],
) -> Result<Option<Event<Global>>, NoMemory>
    ensures { IfOk result (λ event. event ≡ worded_event ring.now.devices.now (map (λ word. word.now) words.now)) }
{
    match words {
        [name, rest @ ..] if is_word(name, b"queue") => queue_event(alloc, rest),
        [name, rest @ ..] if is_word(name, b"hear") => hear_event(alloc, ring, rest),
        [name, rest @ ..] if is_word(name, b"pass") => Ok(pass_event(rest)),
        [name, rest @ ..] if is_word(name, b"tick") => Ok(tick_event(rest)),
        [name, rest @ ..] if is_word(name, b"cancel") => Ok(cancel_event(rest)),
        _ => Ok(None),
    }
}

/// The payload to be queued whose words follow `queue`.
fn queue_event(alloc: Global, words: &[&[u8]]) -> Result<Option<Event<Global>>, NoMemory>
    ensures { IfOk result (λ event. event ≡ queue_event (map (λ word. word.now) words.now)) }
{
    let [addr, port, payload] = words else {
        return Ok(None);
    };
    let (Some(addr), Some(port)) = (addr_word(addr), number_u8(port)) else {
        return Ok(None);
    };
    match hex_word(alloc, payload)? {
        Some(payload) => Ok(Some(Event::Queue {
            addr,
            port,
            payload,
        })),
        None => Ok(None),
    }
}

/// The copy of an uplink whose words follow `hear`.
fn hear_event(
    alloc: Global,
    ring: &KeyRing<'_>,
    words: &[&[u8]],
) -> Result<Option<Event<Global>>, NoMemory>
    ensures { IfOk result (λ event. event ≡ hear_event ring.now.devices.now (map (λ word. word.now) words.now)) }
{
    let [gateway, at, freq_hz, rate, snr, rssi, arrived, uplink] = words else {
        return Ok(None);
    };
    let heard = heard_with(gateway, at, freq_hz, rate, snr, rssi);
    hear_with(alloc, ring, heard, number_u64(arrived), uplink)
}

/// The copy with these numbers, and with the uplink that a word says.
fn hear_with(
    alloc: Global,
    ring: &KeyRing<'_>,
    heard: Option<Heard1>,
    arrived: Option<u64>,
    uplink: &[u8],
) -> Result<Option<Event<Global>>, NoMemory>
    ensures { IfOk result (λ event. event ≡ hear_with heard arrived (uplink_word ring.now.devices.now uplink.now)) }
{
    let (Some(heard), Some(arrived)) = (heard, arrived) else {
        return Ok(None);
    };
    match uplink_word(alloc, ring, uplink)? {
        Some(bytes) => Ok(Some(Event::Hear {
            bytes,
            heard,
            arrived,
        })),
        None => Ok(None),
    }
}

/// A copy by the words of its numbers.
fn heard_with(
    gateway: &[u8],
    at: &[u8],
    freq_hz: &[u8],
    rate: &[u8],
    snr: &[u8],
    rssi: &[u8],
) -> Option<Heard1>
    ensures { result ≡ heard_with (number_of 16 gateway.now) (number_of 64 at.now) (number_of 32 freq_hz.now)
        (number_of 8 rate.now) (number_signed snr.now) (number_signed rssi.now) }
{
    Some(Heard1 {
        gateway: number_u16(gateway)?,
        at: number_u64(at)?,
        freq_hz: number_u32(freq_hz)?,
        rate: number_u8(rate)?,
        snr: number_i16(snr)?,
        rssi: number_i16(rssi)?,
    })
}

/// The moment whose word follows `pass`.
fn pass_event(words: &[&[u8]]) -> Option<Event<Global>>
    ensures { result ≡ pass_event (map (λ word. word.now) words.now) }
{
    let [now] = words else {
        return None;
    };
    Some(Event::Pass {
        now: number_u64(now)?,
    })
}

/// The gateway and the moment whose words follow `tick`.
fn tick_event(words: &[&[u8]]) -> Option<Event<Global>>
    ensures { result ≡ tick_event (map (λ word. word.now) words.now) }
{
    let [gateway, now] = words else {
        return None;
    };
    Some(Event::Tick {
        gateway: number_u16(gateway)?,
        now: number_u64(now)?,
    })
}

/// The number whose word follows `cancel`.
fn cancel_event(words: &[&[u8]]) -> Option<Event<Global>>
    ensures { result ≡ cancel_event (map (λ word. word.now) words.now) }
{
    let [number] = words else {
        return None;
    };
    Some(Event::Cancel {
        number: number_u64(number)?,
    })
}

/// Puts what a line asks for behind the events, if it asks for something.
pub(crate) fn append_event(
    events: &mut Vec<Event<Global>>,
    alloc: Global,
    ring: &KeyRing<'_>,
    number: u64,
    line: &[u8],
) -> Result<(), NoMemory>
    ensures { OnOk result
        (events.new.items ≡ events.old.items ++ option_to_list (line_event ring.now.devices.now number line.now)) }
{
    let Some(event) = line_event(alloc, ring, number, line)? else {
        return Ok(());
    };
    events.push(event)?;
    Ok(())
}
