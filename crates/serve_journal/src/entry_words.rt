// What a line of a journal says, by its words.
ghost use Rattle.std.specs.Prelude.{◌≡◌, [], ◌∷◌, map, None, option_and_then, if◌then◌else◌};
ghost use Rattle.std.specs.List.{list_all};
ghost use Rattle.gateway_book.specs.Loading.{leads_zero, words_between};
ghost use Rattle.serve_journal.specs.EntryWords.{is_lower_digit, hex_sized, addr_in, up_in, down_in, digits_in, payload_in};
ghost use Rattle.serve_journal.specs.EntryWords.{gateway_in, device_in, queue_in, taken_in, clock_in, sent_in, sent_with, entry_in};
ghost use Rattle.serve_journal.specs.EntryWords.{entry_of};
ghost use Rattle.serve_journal.specs.Payload.{payload_of};

use crate::words::LineWords;
use crate::{Entry, Payload};
use hex::{FromHex, decode_to_slice};
use lora_frame::MAX_PAYLOAD;
use radio_airtime::DataRate;
use text_lines::{is_word, number_u8, number_u16, number_u32, number_u64};

/// The greatest downlink counter that a line may tell, 2^32: all counters were given.
const MOST_DOWN: u64 = 1 << 32;

/// What a line says, its line feed left out. None: the line is not spelled as one is written.
pub fn read_entry(line: &[u8]) -> Option<Entry>
    ensures { result ≡ entry_of line.now }
{
    entry_in(LineWords::of(line).as_slice())
}

/// What the words of a line say, if they say something.
fn entry_in(words: &[&[u8]]) -> Option<Entry>
    ensures { result ≡ entry_in (map (λ word. word.now) words.now) }
{
    let [name, fields @ ..] = words else {
        return None;
    };
    if is_word(name, b"sent") {
        return sent_in(fields);
    }
    if is_word(name, b"clock") {
        return clock_in(fields);
    }
    if is_word(name, b"device") {
        return device_in(fields);
    }
    if is_word(name, b"taken") {
        return taken_in(fields);
    }
    if is_word(name, b"queue") {
        return queue_in(fields);
    }
    if is_word(name, b"gateway") {
        return gateway_in(fields);
    }
    None
}

/// ID EUI CAP GAP.
fn gateway_in(fields: &[&[u8]]) -> Option<Entry>
    ensures { result ≡ gateway_in (map (λ word. word.now) fields.now) }
{
    match fields {
        [id, eui, cap, gap] => Some(Entry::Gateway {
            id: plain(id, number_u16(id))?,
            eui: hex_sized(eui)?,
            cap: plain(cap, number_u32(cap))?,
            gap: plain(gap, number_u32(gap))?,
        }),
        [_, _, _, _, _, ..] => None,
        _ => None,
    }
}

/// ADDR SESSION UP DOWN.
fn device_in(fields: &[&[u8]]) -> Option<Entry>
    ensures { result ≡ device_in (map (λ word. word.now) fields.now) }
{
    match fields {
        [addr, session, up, down] => Some(Entry::Device {
            addr: addr_in(addr)?,
            session: hex_sized(session)?,
            up: up_in(up)?,
            down: down_in(down)?,
        }),
        [_, _, _, _, _, ..] => None,
        _ => None,
    }
}

/// ADDR PORT HEX.
fn queue_in(fields: &[&[u8]]) -> Option<Entry>
    ensures { result ≡ queue_in (map (λ word. word.now) fields.now) }
{
    match fields {
        [addr, port, bytes] => Some(Entry::Queue {
            addr: addr_in(addr)?,
            payload: payload_in(port, bytes)?,
        }),
        [_, _, _, _, ..] => None,
        _ => None,
    }
}

/// ADDR.
fn taken_in(fields: &[&[u8]]) -> Option<Entry>
    ensures { result ≡ taken_in (map (λ word. word.now) fields.now) }
{
    let [addr] = fields else {
        return None;
    };
    Some(Entry::Taken {
        addr: addr_in(addr)?,
    })
}

/// ID HIGH FLOOR.
fn clock_in(fields: &[&[u8]]) -> Option<Entry>
    ensures { result ≡ clock_in (map (λ word. word.now) fields.now) }
{
    let [id, high, floor] = fields else {
        return None;
    };
    Some(Entry::Clock {
        id: plain(id, number_u16(id))?,
        high: plain(high, number_u64(high))?,
        floor: plain(floor, number_u64(floor))?,
    })
}

/// ID START FREQ DR LEN.
fn sent_in(fields: &[&[u8]]) -> Option<Entry>
    ensures { result ≡ sent_in (map (λ word. word.now) fields.now) }
{
    match fields {
        [id, start, freq_hz, rate, len] => sent_of(id, start, freq_hz, rate, len),
        [_, _, _, _, _, _, ..] => None,
        _ => None,
    }
}

/// The same, word by word.
fn sent_of(id: &[u8], start: &[u8], freq_hz: &[u8], rate: &[u8], len: &[u8]) -> Option<Entry>
    ensures { result ≡ sent_in (id.now ∷ start.now ∷ freq_hz.now ∷ rate.now ∷ len.now ∷ []) }
{
    sent_with(
        plain(id, number_u16(id)),
        plain(start, number_u64(start)),
        plain(freq_hz, number_u32(freq_hz)),
        plain(rate, number_u8(rate)).and_then(DataRate::from_number),
        plain(len, number_u8(len)),
    )
}

/// A transmission of these fields, where each is there.
fn sent_with(
    id: Option<u16>,
    start: Option<u64>,
    freq_hz: Option<u32>,
    rate: Option<DataRate>,
    len: Option<u8>,
) -> Option<Entry>
    ensures { result ≡ sent_with id start freq_hz rate len }
{
    Some(Entry::Sent {
        id: id?,
        start: start?,
        freq_hz: freq_hz?,
        rate: rate?,
        len: len?,
    })
}

/// The number of a word, if no zero leads it.
pub(crate) fn plain<T: Copy>(word: &[u8], number: Option<T>) -> Option<T>
    ensures { result ≡ (if leads_zero word.now then None else number) }
{
    match word {
        [b'0', _, ..] => None,
        _ => number,
    }
}

/// Whether all bytes of a word are digits of hexadecimal numbers in lower case.
fn are_lower_digits(word: &[u8]) -> bool
    ensures { result ≡ list_all is_lower_digit word.now }
{
    word.iter().all(|byte| is_lower_digit(*byte))
}

/// Whether a byte is such a digit.
#[tactic(auto, unfolding(crate::specs::EntryWords::is_lower_digit))]
fn is_lower_digit(byte: u8) -> bool
    ensures { result ≡ is_lower_digit byte }
{
    matches!(byte, b'0'..=b'9' | b'a'..=b'f')
}

/// So many bytes, two lower-case digits for each.
fn hex_sized<const N: usize>(word: &[u8]) -> Option<[u8; N]>
    ensures { result ≡ hex_sized N word.now }
{
    if !are_lower_digits(word) {
        return None;
    }
    <[u8; N] as FromHex>::from_hex(word).ok()
}

/// ADDR: 8 digits, the most significant first.
fn addr_in(word: &[u8]) -> Option<u32>
    ensures { result ≡ addr_in word.now }
{
    Some(u32::from_be_bytes(hex_sized(word)?))
}

/// UP: a counter, or `-` where there was no uplink.
fn up_in(word: &[u8]) -> Option<Option<u32>>
    ensures { result ≡ up_in word.now }
{
    if is_word(word, b"-") {
        return Some(None);
    }
    Some(Some(plain(word, number_u32(word))?))
}

/// DOWN: 0 to 2^32.
fn down_in(word: &[u8]) -> Option<u64>
    ensures { result ≡ down_in word.now }
{
    let down = plain(word, number_u64(word))?;
    if down > MOST_DOWN {
        return None;
    }
    Some(down)
}

/// PORT HEX: a payload.
fn payload_in(port: &[u8], bytes: &[u8]) -> Option<Payload>
    ensures { result ≡ payload_in port.now bytes.now }
{
    let port = plain(port, number_u8(port))?;
    if is_word(bytes, b"-") {
        return Payload::new(port, &[]);
    }
    payload_of_digits(port, bytes)
}

/// The same where there are bytes.
fn payload_of_digits(port: u8, digits: &[u8]) -> Option<Payload>
    ensures { result ≡ option_and_then (payload_of port) (digits_in digits.now) }
{
    if digits.is_empty() || digits.len() > 2 * MAX_PAYLOAD || !are_lower_digits(digits) {
        return None;
    }
    let mut room = [0; MAX_PAYLOAD];
    let bytes = &mut room[..digits.len() / 2];
    match decode_to_slice(digits, bytes) {
        Ok(()) => Payload::new(port, bytes),
        Err(_) => None,
    }
}
