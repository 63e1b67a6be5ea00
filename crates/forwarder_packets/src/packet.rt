// What becomes of one entry: it is heard, or dropped for its first fault.
ghost use Rattle.std.specs.Prelude.{◌≡◌, IfOk};
ghost use Rattle.json.specs.Value.{value_view};
ghost use Rattle.forwarder_packets.specs.Entry.{entry_of, with_bytes};
ghost use Rattle.forwarder_packets.specs.Seen.{counted, received};
ghost use Rattle.base64.specs.GeneralPurpose.{decode_of};
ghost use Rattle.base64.specs.Engines.{standard_pad_indifferent};

use crate::EntryFault;
use crate::entry::{Numbers, numbers_of, rate_named, texts_of};
use crate::scaled::scaled;
use base64::DecodeAllocError;
use base64::engine::general_purpose::STANDARD_PAD_INDIFFERENT;
use json::Value;
use radio_airtime::DataRate;
use std::alloc::{AllocError, Allocator};

/// An allocation was refused.
pub type NoMemory = AllocError;

/// A packet that a gateway received.
#[derive(Drop)]
pub struct Packet<A: Allocator> {
    /// The gateway's counter of microseconds when it was received.
    pub tmst: u32,
    /// The centre of its channel in Hz.
    pub freq_hz: u32,
    pub rate: DataRate,
    /// In tenths of a dB.
    pub snr: i16,
    /// In dBm.
    pub rssi: i16,
    /// Its PHYPayload.
    pub bytes: Vec<u8, A>,
}

/// What becomes of an entry of `rxpk`.
#[derive(Drop)]
pub enum Entry<A: Allocator> {
    Heard(Packet<A>),
    Dropped(EntryFault),
}

/// What an entry tells, or its first fault. Err(NoMemory) where there was none for its bytes.
pub(crate) fn read_entry<A: Allocator, B: Allocator>(
    alloc: A,
    entry: &Value<'_, B>,
) -> Result<Entry<A>, NoMemory>
    ensures { IfOk result (λ e. received e ≡ entry_of (value_view entry.now)) }
{
    let Some(texts) = texts_of(entry) else {
        return Ok(Entry::Dropped(EntryFault::Shape));
    };
    let Some(1) = scaled(texts.stat.as_bytes(), 0) else {
        return Ok(Entry::Dropped(EntryFault::Crc));
    };
    if texts.modu != "LORA" {
        return Ok(Entry::Dropped(EntryFault::Modulation));
    }
    let Some(rate) = rate_named(texts.datr) else {
        return Ok(Entry::Dropped(EntryFault::Rate));
    };
    let Some(numbers) = numbers_of(&texts) else {
        return Ok(Entry::Dropped(EntryFault::Number));
    };
    with_bytes(alloc, rate, &numbers, texts.data)
}

/// The packet with these numbers and the bytes of this text in base64.
fn with_bytes<A: Allocator>(
    alloc: A,
    rate: DataRate,
    numbers: &Numbers,
    text: &str,
) -> Result<Entry<A>, NoMemory>
    ensures { IfOk result (λ e. received e ≡ with_bytes rate (counted numbers.now) (decode_of standard_pad_indifferent text.now)) }
{
    let bytes = match STANDARD_PAD_INDIFFERENT.decode(alloc, text.as_bytes()) {
        Ok(bytes) => bytes,
        Err(DecodeAllocError::OutOfMemory) => return Err(AllocError),
        Err(DecodeAllocError::DecodeError(_)) => return Ok(Entry::Dropped(EntryFault::Data)),
    };
    if numbers.size as usize != bytes.len() {
        return Ok(Entry::Dropped(EntryFault::Size));
    }
    let Numbers {
        tmst,
        freq_hz,
        snr,
        rssi,
        ..
    } = *numbers;
    Ok(Entry::Heard(Packet {
        tmst,
        freq_hz,
        rate,
        snr,
        rssi,
        bytes,
    }))
}
