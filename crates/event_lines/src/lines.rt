// The line of an event.
ghost use Rattle.std.specs.Prelude.{◌≡◌, IfOk, string_bytes};
ghost use Rattle.run_lines.specs.EntryLine.{addr_digits, hex_digits};
ghost use Rattle.event_lines.specs.EventText.{event_text, hear_text, gateway_text, radio_text};

use server_core::{Event, Heard1};
use std::alloc::{AllocError, Allocator};

/// An allocation was refused.
pub type NoMemory = AllocError;

/// The line of a run (docs/FORMATS.md, "airbook run") that asks for an event, without its end; an empty one for a line that can't
/// be read. Err(NoMemory) where an allocation was refused.
pub fn event_line<A: Allocator, B: Allocator + Copy>(
    alloc: B,
    event: &Event<A>,
) -> Result<String<B>, NoMemory>
    ensures { IfOk result (λ line. string_bytes line ≡ event_text event.now) }
{
    match event {
        Event::Queue {
            addr,
            port,
            payload,
        } => {
            let addr = addr_of(alloc, *addr)?;
            let payload = hex_of(alloc, payload.as_slice())?;
            format!(in alloc; "queue {addr} {port} {payload}")
        }
        Event::Hear {
            bytes,
            heard,
            arrived,
        } => hear_line(alloc, bytes.as_slice(), heard, *arrived),
        Event::Pass { now } => format!(in alloc; "pass {now}"),
        Event::Tick { gateway, now } => format!(in alloc; "tick {gateway} {now}"),
        Event::Cancel { number } => format!(in alloc; "cancel {number}"),
        Event::Bad { .. } => Ok(String::new(alloc)),
    }
}

/// The line of a copy of an uplink.
fn hear_line<B: Allocator + Copy>(
    alloc: B,
    bytes: &[u8],
    heard: &Heard1,
    arrived: u64,
) -> Result<String<B>, NoMemory>
    ensures { IfOk result (λ line. string_bytes line ≡ hear_text bytes.now heard.now arrived) }
{
    let gateway = gateway_of(alloc, heard)?;
    let radio = radio_of(alloc, heard)?;
    let uplink = hex_of(alloc, bytes)?;
    format!(in alloc; "hear {gateway} {radio} {arrived} {uplink}")
}

/// Which gateway heard the copy, and when, in microseconds of its clock.
fn gateway_of<B: Allocator>(alloc: B, heard: &Heard1) -> Result<String<B>, NoMemory>
    ensures { IfOk result (λ text. string_bytes text ≡ gateway_text heard.now) }
{
    let Heard1 { gateway, at, .. } = *heard;
    format!(in alloc; "{gateway} {at}")
}

/// On which channel, at which rate and how well the copy was heard: Hz, DR, tenths of a dB and dBm.
fn radio_of<B: Allocator>(alloc: B, heard: &Heard1) -> Result<String<B>, NoMemory>
    ensures { IfOk result (λ text. string_bytes text ≡ radio_text heard.now) }
{
    let Heard1 {
        freq_hz,
        rate,
        snr,
        rssi,
        ..
    } = *heard;
    format!(in alloc; "{freq_hz} {rate} {snr} {rssi}")
}

/// A device's address in hexadecimal digits, the most significant first.
fn addr_of<B: Allocator>(alloc: B, addr: u32) -> Result<String<B>, NoMemory>
    ensures { IfOk result (λ text. string_bytes text ≡ addr_digits addr) }
{
    hex::encode(alloc, addr.to_be_bytes())
}

/// Bytes in hexadecimal digits, or a dash for none.
fn hex_of<B: Allocator>(alloc: B, bytes: &[u8]) -> Result<String<B>, NoMemory>
    ensures { IfOk result (λ text. string_bytes text ≡ hex_digits bytes.now) }
{
    if bytes.is_empty() {
        return String::from_str(alloc, "-");
    }
    hex::encode(alloc, bytes)
}
