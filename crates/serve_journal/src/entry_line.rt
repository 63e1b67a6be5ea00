// The line of an entry.
ghost use Rattle.std.specs.Prelude.{◌≡◌, ◌+◌, ◌*◌, ◌≤◌, ◌<◌, [], ◌∷◌, ◌++◌, length};
ghost use Rattle.hex.specs.Hex.{encode_lower};
ghost use Rattle.serve_journal.specs.EntryText.{addr_digits, up_word, bytes_word, entry_text};

use crate::{Entry, Payload};
use hex::encode_to_slice;
use lora_frame::MAX_PAYLOAD;
use radio_airtime::DataRate;
use text_lines::{TextLine, add_number, add_word};

impl Entry {
    /// Makes `text` the line of this entry, with its end: what `read_entry` reads as it.
    pub fn write(&self, text: &mut TextLine)
        ensures { text.new ≡ entry_text self.now ++ 10 ∷ [] }
    {
        text.clear();
        self.add_to(text);
        text.text(b"\n");
    }

    /// Makes an empty `text` the line of this entry, without its end.
    fn add_to(&self, text: &mut TextLine)
        requires { text.old ≡ [] }
        ensures text { text.new ≡ entry_text self.now }
        ensures short { length text.new ≤ 600 }
    {
        match self {
            Entry::Gateway { id, eui, cap, gap } => add_gateway(text, *id, eui, *cap, *gap),
            Entry::Device {
                addr,
                session,
                up,
                down,
            } => add_device(text, *addr, session, *up, *down),
            Entry::Queue { addr, payload } => add_queue(text, *addr, payload),
            Entry::Taken { addr } => add_named_addr(text, b"taken", *addr),
            Entry::Clock { id, high, floor } => add_clock(text, *id, *high, *floor),
            Entry::Sent {
                id,
                start,
                freq_hz,
                rate,
                len,
            } => add_sent(text, *id, *start, *freq_hz, *rate, *len),
        }
    }
}

/// Adds `gateway ID EUI CAP GAP`.
fn add_gateway(text: &mut TextLine, id: u16, eui: &[u8; 8], cap: u32, gap: u32)
    requires { text.old ≡ [] }
    ensures text { text.new ≡ entry_text (Entry.Gateway id eui.now cap gap) }
    ensures short { length text.new ≤ 600 }
{
    text.text(b"gateway");
    add_number(text, u64::from(id));
    add_hex(text, eui);
    add_number(text, u64::from(cap));
    add_number(text, u64::from(gap));
}

/// Adds `device ADDR SESSION UP DOWN`.
fn add_device(text: &mut TextLine, addr: u32, session: &[u8; 4], up: Option<u32>, down: u64)
    requires { text.old ≡ [] }
    ensures text { text.new ≡ entry_text (Entry.Device addr session.now up down) }
    ensures short { length text.new ≤ 600 }
{
    add_named_addr(text, b"device", addr);
    add_hex(text, session);
    add_up(text, up);
    add_number(text, down);
}

/// Adds `queue ADDR PORT HEX`.
fn add_queue(text: &mut TextLine, addr: u32, payload: &Payload)
    requires { text.old ≡ [] }
    ensures text { text.new ≡ entry_text (Entry.Queue addr payload.now) }
    ensures short { length text.new ≤ 600 }
{
    add_named_addr(text, b"queue", addr);
    add_number(text, u64::from(payload.port()));
    add_bytes(text, payload.as_slice());
}

/// Makes `text` the line of a payload that waits for a device, with its end.
pub(crate) fn write_queue(text: &mut TextLine, addr: u32, payload: &Payload)
    ensures { text.new ≡ entry_text (Entry.Queue addr payload.now) ++ 10 ∷ [] }
{
    text.clear();
    add_queue(text, addr, payload);
    text.text(b"\n");
}

/// Adds `clock ID HIGH FLOOR`.
fn add_clock(text: &mut TextLine, id: u16, high: u64, floor: u64)
    requires { text.old ≡ [] }
    ensures text { text.new ≡ entry_text (Entry.Clock id high floor) }
    ensures short { length text.new ≤ 600 }
{
    text.text(b"clock");
    add_number(text, u64::from(id));
    add_number(text, high);
    add_number(text, floor);
}

/// Adds `sent ID START FREQ DR LEN`.
fn add_sent(text: &mut TextLine, id: u16, start: u64, freq_hz: u32, rate: DataRate, len: u8)
    requires { text.old ≡ [] }
    ensures text { text.new ≡ entry_text (Entry.Sent id start freq_hz rate len) }
    ensures short { length text.new ≤ 600 }
{
    text.text(b"sent");
    add_number(text, u64::from(id));
    add_number(text, start);
    add_number(text, u64::from(freq_hz));
    add_number(text, u64::from(rate.number()));
    add_number(text, u64::from(len));
}

/// Adds a name and an address.
fn add_named_addr(text: &mut TextLine, name: &[u8], addr: u32)
    requires empty { text.old ≡ [] }
    requires short { length name.now ≤ 10 }
    ensures text { text.new ≡ name.now ++ 32 ∷ addr_digits addr }
    ensures len { length text.new ≡ length name.now + 9 }
{
    text.text(name);
    add_hex(text, &addr.to_be_bytes());
}

/// Adds a space, and two digits for each of at most 242 bytes.
fn add_hex(text: &mut TextLine, bytes: &[u8])
    requires few { length bytes.now ≤ 242 }
    requires room { length text.old ≤ 100 }
    ensures text { text.new ≡ text.old ++ 32 ∷ encode_lower bytes.now }
    ensures len { length text.new ≡ length text.old + 1 + 2 * length bytes.now }
{
    let mut room = [0; 2 * MAX_PAYLOAD];
    let digits = &mut room[..2 * bytes.len()];
    // There is just the room for them.
    let _ = encode_to_slice(bytes, digits);
    add_word(text, digits);
}

/// Adds a space and the bytes of a payload.
fn add_bytes(text: &mut TextLine, bytes: &[u8])
    requires few { length bytes.now ≤ 242 }
    requires room { length text.old ≤ 100 }
    ensures text { text.new ≡ text.old ++ 32 ∷ bytes_word bytes.now }
    ensures len { length text.new ≤ length text.old + 2 + 2 * length bytes.now }
{
    if bytes.is_empty() {
        add_word(text, b"-");
        return;
    }
    add_hex(text, bytes);
}

/// Adds a space and the last uplink counter, or a dash.
fn add_up(text: &mut TextLine, up: Option<u32>)
    requires { length text.old ≤ 100 }
    ensures text { text.new ≡ text.old ++ 32 ∷ up_word up }
    ensures len { length text.new ≤ length text.old + 21 }
{
    match up {
        None => add_word(text, b"-"),
        Some(counter) => add_number(text, u64::from(counter)),
    }
}
