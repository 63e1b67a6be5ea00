// What the words of an event line say.
ghost use Rattle.std.specs.Prelude.{◌≡◌, ◌<◌, [], ◌∷◌, ◌++◌, None, IfOk};
ghost use Rattle.run_lines.specs.RunWords.{addr_word, hex_word, kind_of, bare_message, bare_uplink, made_word};
ghost use Rattle.run_lines.specs.RunWords.{uplink_word};
ghost use Rattle.lora_frame.specs.Frame.{with_mic, bit_worth, up_control};
ghost use Rattle.std.specs.Option.{option_copied, option_map};

use crate::key_ring::KeyRing;
use answer_ticket::Bytes;
use hex::{FromHex, FromHexError};
use lora_frame::{EMPTY_LEN, Keys, MIC_LEN, Up, uplink_bytes, uplink_header};
use std::alloc::{AllocError, Global};
use text_lines::number_u32;

/// How many digits ADDR has.
const ADDR_DIGITS: usize = 8;

/// ADDR: an address of 8 hexadecimal digits, the most significant first.
pub(crate) fn addr_word(word: &[u8]) -> Option<u32>
    ensures { result ≡ addr_word word.now }
{
    let bytes = <[u8; 4] as FromHex>::from_hex(word).ok()?;
    Some(u32::from_be_bytes(bytes))
}

/// HEX: two hexadecimal digits for each byte, or `-` for none.
pub(crate) fn hex_word(alloc: Global, word: &[u8]) -> Result<Option<Bytes<Global>>, AllocError>
    ensures { IfOk result (λ bytes. bytes ≡ hex_word word.now) }
{
    if let [b'-'] = word {
        return Ok(Some(Bytes::new(Vec::new(alloc))));
    }
    match hex::decode(alloc, word) {
        Ok(bytes) => Ok(Some(Bytes::new(bytes))),
        Err(FromHexError::OutOfMemory) => Err(AllocError),
        Err(_) => Ok(None),
    }
}

/// A kind of uplink.
#[derive(Clone, Copy)]
pub(crate) struct UplinkKind {
    /// Whether it is confirmed.
    pub(crate) confirmed: bool,
    /// Whether it has ADRACKReq.
    pub(crate) adr_ack_req: bool,
}

/// The kind of uplink that KIND says: `c` confirmed, `u` unconfirmed, `a` unconfirmed with ADRACKReq.
fn kind_of(byte: u8) -> Option<UplinkKind>
    ensures { option_map (λ kind. (kind.confirmed, kind.adr_ack_req)) result ≡ kind_of byte }
{
    let (confirmed, adr_ack_req) = match byte {
        b'c' => (true, false),
        b'u' => (false, false),
        b'a' => (false, true),
        _ => return None,
    };
    Some(UplinkKind {
        confirmed,
        adr_ack_req,
    })
}

/// An uplink of a device without FOpts, FPort and FRMPayload, made with its keys; without keys its MIC is four zeros.
pub(crate) fn bare_uplink(
    alloc: Global,
    keys: Option<&Keys>,
    kind: UplinkKind,
    addr: u32,
    counter: u32,
) -> Result<Bytes<Global>, AllocError>
    ensures { IfOk result (λ bytes. bytes ≡ bare_uplink (option_copied keys.entry) (kind.confirmed, kind.adr_ack_req) addr
        counter) }
{
    match keys {
        Some(keys) => made_uplink(alloc, keys, kind, addr, counter),
        None => unsigned_uplink(alloc, kind, addr, counter),
    }
}

/// An uplink of a device without FOpts, FPort and FRMPayload.
fn bare_up(kind: UplinkKind, addr: u32, counter: u32) -> Up<'static>
    ensures fields { (result.confirmed ≡ kind.confirmed) × (result.addr ≡ addr) × (result.counter ≡ counter)
        × (result.options.now ≡ []) }
    ensures control { up_control result ≡ bit_worth kind.adr_ack_req 0x40 }
    ensures body { result.body ≡ None }
{
    Up {
        confirmed: kind.confirmed,
        addr,
        counter,
        adr: false,
        adr_ack_req: kind.adr_ack_req,
        ack: false,
        options: &[],
        body: None,
    }
}

/// The uplink, made with these keys.
#[tactic(auto, unfolding(lora_frame::specs::Frame::up_bytes))]
fn made_uplink(
    alloc: Global,
    keys: &Keys,
    kind: UplinkKind,
    addr: u32,
    counter: u32,
) -> Result<Bytes<Global>, AllocError>
    ensures { IfOk result (λ bytes. bytes ≡ with_mic keys.now 0 addr counter
        (bare_message (kind.confirmed, kind.adr_ack_req) addr counter)) }
{
    let bytes = uplink_bytes(alloc, &bare_up(kind, addr, counter), keys).map_err(|_| AllocError)?;
    Ok(Bytes::new(bytes))
}

/// The uplink, with four zeros for its MIC.
fn unsigned_uplink(
    alloc: Global,
    kind: UplinkKind,
    addr: u32,
    counter: u32,
) -> Result<Bytes<Global>, AllocError>
    ensures { IfOk result (λ bytes. bytes ≡ bare_message (kind.confirmed, kind.adr_ack_req) addr counter ++ 0 ∷ 0 ∷ 0 ∷ 0 ∷ []) }
{
    let mut bytes = Vec::with_capacity(alloc, EMPTY_LEN)?;
    bytes.extend_from_slice(&uplink_header(&bare_up(kind, addr, counter)))?;
    bytes.extend_from_slice(&[0; MIC_LEN])?;
    Ok(Bytes::new(bytes))
}

/// The uplink that a word `@KIND:ADDR:COUNTER` asks to be made.
fn made_word(
    alloc: Global,
    ring: &KeyRing<'_>,
    word: &[u8],
) -> Result<Option<Bytes<Global>>, AllocError>
    ensures { IfOk result (λ bytes. bytes ≡ made_word ring.now.devices.now word.now) }
{
    let [_, kind, b':', rest @ ..] = word else {
        return Ok(None);
    };
    let Some((addr, [b':', counter @ ..])) = rest.split_at_checked(ADDR_DIGITS) else {
        return Ok(None);
    };
    let Some(kind) = kind_of(*kind) else {
        return Ok(None);
    };
    let Some(addr) = addr_word(addr) else {
        return Ok(None);
    };
    let Some(counter) = number_u32(counter) else {
        return Ok(None);
    };
    let bytes = ring.bare_uplink(alloc, kind, addr, counter)?;
    Ok(Some(bytes))
}

/// The bytes of an uplink, given in hexadecimal digits, or made.
pub(crate) fn uplink_word(
    alloc: Global,
    ring: &KeyRing<'_>,
    word: &[u8],
) -> Result<Option<Bytes<Global>>, AllocError>
    ensures { IfOk result (λ bytes. bytes ≡ uplink_word ring.now.devices.now word.now) }
{
    match word {
        [b'@', ..] => made_word(alloc, ring, word),
        _ => hex_word(alloc, word),
    }
}
