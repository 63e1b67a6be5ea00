// The lines that put rows into the tables.
ghost use Rattle.std.specs.Prelude.{◌≡◌, ◌+◌, ◌*◌, ◌≤◌, [], ◌∷◌, ◌++◌, length, codes, decimal};
ghost use Rattle.hex.specs.Hex.{encode_lower};
ghost use Rattle.journal_sql.specs.Rows.{digits_value, bytes_value, up_value, gateway_row, device_row, queued_row, sent_row};

use hex::encode_to_slice;
use resv_list::Reservation;
use serve_journal::{JournalDevice, JournalGateway, Payload};
use std::alloc::Allocator;
use text_lines::TextLine;

/// The most bytes that a payload has.
const MOST_BYTES: usize = 242;

/// Makes `text` the line of a gateway's row, with its end.
pub(crate) fn write_gateway<A: Allocator + Clone>(text: &mut TextLine, gateway: &JournalGateway<A>)
    ensures { text.new ≡ gateway_row gateway.now ++ 10 ∷ [] }
{
    begin(text, b"gateway", u64::from(gateway.id));
    add_digits(text, &gateway.eui);
    add_number(text, u64::from(gateway.book.cap()));
    add_number(text, u64::from(gateway.book.gap()));
    add_number(text, gateway.high);
    add_number(text, gateway.book.totals().floor);
    end(text);
}

/// Makes `text` the line of a device's row, with its end.
pub(crate) fn write_device<A: Allocator>(text: &mut TextLine, device: &JournalDevice<A>)
    ensures { text.new ≡ device_row device.now ++ 10 ∷ [] }
{
    begin(text, b"device", u64::from(device.addr));
    add_number(text, u64::from(u32::from_be_bytes(device.session)));
    add_up(text, device.up);
    add_number(text, device.down);
    end(text);
}

/// Makes `text` the line of the row of a payload that waits, with its end.
pub(crate) fn write_queued(text: &mut TextLine, addr: u32, number: u64, payload: &Payload)
    ensures { text.new ≡ queued_row addr number payload.now ++ 10 ∷ [] }
{
    begin(text, b"queued", number);
    add_number(text, u64::from(addr));
    add_number(text, u64::from(payload.port()));
    add_bytes(text, payload.as_slice());
    end(text);
}

/// Makes `text` the line of the row of a transmission, with its end.
pub(crate) fn write_sent(text: &mut TextLine, id: u16, number: u64, member: Reservation)
    ensures { text.new ≡ sent_row id number member ++ 10 ∷ [] }
{
    begin(text, b"sent", number);
    add_number(text, u64::from(id));
    add_number(text, member.start);
    add_number(text, u64::from(member.freq_hz));
    add_number(text, u64::from(member.rate.number()));
    add_number(text, u64::from(member.len));
    end(text);
}

/// Makes `text` the begin of a row of this table, with its first number.
fn begin(text: &mut TextLine, table: &[u8], number: u64)
    requires { length table.now ≤ 10 }
    ensures text { text.new ≡ codes "INSERT INTO " ++ table.now ++ codes " VALUES(" ++ decimal number }
    ensures len { length text.new ≤ 50 }
{
    text.clear();
    text.text(b"INSERT INTO ");
    text.text(table);
    text.text(b" VALUES(");
    text.number(number);
}

/// Adds the end of a row and of its line.
fn end(text: &mut TextLine)
    requires { length text.old ≤ 1000 }
    ensures { text.new ≡ text.old ++ codes ");" ++ 10 ∷ [] }
{
    text.text(b");\n");
}

/// Adds a comma and a number.
fn add_number(text: &mut TextLine, number: u64)
    requires { length text.old ≤ 900 }
    ensures text { text.new ≡ text.old ++ 44 ∷ decimal number }
    ensures len { length text.new ≤ length text.old + 21 }
{
    text.text(b",");
    text.number(number);
}

/// Adds a comma and the last uplink counter, or `NULL`.
fn add_up(text: &mut TextLine, up: Option<u32>)
    requires { length text.old ≤ 900 }
    ensures text { text.new ≡ text.old ++ 44 ∷ up_value up }
    ensures len { length text.new ≤ length text.old + 21 }
{
    match up {
        None => text.text(b",NULL"),
        Some(counter) => add_number(text, u64::from(counter)),
    }
}

/// Adds a comma and bytes as a text.
fn add_digits(text: &mut TextLine, bytes: &[u8; 8])
    requires { length text.old ≤ 100 }
    ensures text { text.new ≡ text.old ++ 44 ∷ digits_value bytes.now }
    ensures len { length text.new ≤ length text.old + 20 }
{
    text.text(b",'");
    add_hex(text, bytes);
}

/// Adds a comma and bytes as they are.
fn add_bytes(text: &mut TextLine, bytes: &[u8])
    requires few { length bytes.now ≤ 242 }
    requires room { length text.old ≤ 100 }
    ensures text { text.new ≡ text.old ++ 44 ∷ bytes_value bytes.now }
    ensures len { length text.new ≤ length text.old + 500 }
{
    text.text(b",X'");
    add_hex(text, bytes);
}

/// Adds two digits for each byte, and a quote.
fn add_hex(text: &mut TextLine, bytes: &[u8])
    requires few { length bytes.now ≤ 242 }
    requires room { length text.old ≤ 200 }
    ensures text { text.new ≡ text.old ++ encode_lower bytes.now ++ codes "'" }
    ensures len { length text.new ≡ length text.old + 2 * length bytes.now + 1 }
{
    let mut room = [0; 2 * MOST_BYTES];
    let digits = &mut room[..2 * bytes.len()];
    // There is just the room for them.
    let _ = encode_to_slice(bytes, digits);
    text.text(digits);
    text.text(b"'");
}
