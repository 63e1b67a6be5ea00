// Uplinks are read.

ghost use Rattle.std.specs.Prelude.{ℕ, ◌≡◌, ◌↔◌, ◌+◌, ◌%◌, ◌^◌, ◌≤◌, Some, None, IsOk, IsTrue, nat_lt, length, take};
ghost use Rattle.std.specs.Prelude.{drop, slice_index, if◌then◌else◌};
ghost use Rattle.std.specs.Int.{w16, from_le_bytes};
ghost use Rattle.lora_frame.specs.Reading.{frame_type, control_of, control_bit, mic_place, options_end, uplink_of};
ghost use Rattle.lora_frame.specs.Reading.{uplink_record, HasMic, has_mic};

use crate::blocks::{UP, mic};
use crate::layout::{
    ACK, ADDR_AT, ADR, ADR_ACK_REQ, CONFIRMED_UP, CONTROL_AT, COUNTER_AT, EMPTY_LEN,
    FOPTS_LEN_MASK, MAJOR_MASK, MAX_LEN, MIC_LEN, OPTIONS_AT, TYPE_SHIFT, UNCONFIRMED_UP,
};
use aes_cmac::Key;
use thiserror::Error;

/// What a data uplink says beside its payload (LoRaWAN L2 1.0.4 section 4).
#[derive(Clone, Copy, Debug, PartialEq, Eq)]
pub struct Uplink {
    /// Whether the frame asks for an acknowledgement.
    pub confirmed: bool,
    /// DevAddr.
    pub addr: u32,
    /// ADR: whether the network may set the data rate.
    pub adr: bool,
    /// ADRACKReq: whether any downlink is asked for.
    pub adr_ack_req: bool,
    /// Whether the frame acknowledges a confirmed downlink.
    pub ack: bool,
    /// FCnt: the low 16 bits of the counter.
    pub low: u16,
    /// FOptsLen.
    pub opts_len: u8,
    /// FPort, where there is one.
    pub port: Option<u8>,
    /// The place of the first byte of FRMPayload, or that of the MIC where there is none.
    pub payload_at: usize,
    /// The last four bytes.
    pub mic: [u8; 4],
}

/// Why bytes are no data uplink.
#[derive(Clone, Copy, Debug, PartialEq, Eq, Error)]
pub enum FrameFault {
    /// There are fewer than 12 bytes: MHDR, FHDR without FOpts, and MIC (LoRaWAN L2 1.0.4 sections 4.1 and 4.3.1).
    #[error("the frame has fewer than 12 bytes")]
    Short,
    /// There are more than 255 bytes, the most that a PHYPayload has.
    #[error("the frame has more than 255 bytes")]
    Long,
    /// The type in MHDR is neither 2, unconfirmed data up, nor 4, confirmed data up (LoRaWAN L2 1.0.4 section 4.2.1).
    #[error("the frame is no data uplink: its type is neither 2 nor 4")]
    NotData,
    /// Major in MHDR is not 0, the one that there is (LoRaWAN L2 1.0.4 section 4.2.2).
    #[error("the frame's Major is not 0")]
    Major,
    /// FOptsLen, 0 to 15 bytes, leads past the place of the MIC (LoRaWAN L2 1.0.4 section 4.3.1).
    #[error("the frame ends within its FOpts: FOptsLen is too great")]
    OptionsCut,
}

// The four bytes from place `at` on.
fn four_at(bytes: &[u8], at: usize) -> [u8; 4]
    requires { at + 4 ≤ length bytes.now }
    ensures { result ≡ take 4 (drop at bytes.now) }
{
    let mut out = [0u8; 4];
    out.copy_from_slice(&bytes[at..at + 4]);
    out
}

// The type, in MHDR.
fn frame_type(bytes: &[u8]) -> u8
    requires { 12 ≤ length bytes.now }
    ensures { result ≡ frame_type bytes.now }
{
    bytes[0] >> TYPE_SHIFT
}

// Whether a bit of FCtrl is set.
fn control_bit(bytes: &[u8], bit: u8) -> bool
    requires { 12 ≤ length bytes.now }
    ensures { (k : ℕ) → bit ≡ 2 ^ k → result ≡ control_bit bytes.now bit }
{
    bytes[CONTROL_AT] & bit != 0
}

// FOptsLen, in FCtrl.
fn options_len(bytes: &[u8]) -> u8
    requires { 12 ≤ length bytes.now }
    ensures { result ≡ control_of bytes.now % 16 }
{
    bytes[CONTROL_AT] & FOPTS_LEN_MASK
}

// FCnt.
fn low_of(bytes: &[u8]) -> u16
    requires { 12 ≤ length bytes.now }
    ensures { result ≡ from_le_bytes w16 (take 2 (drop 6 bytes.now)) }
{
    let mut out = [0u8; 2];
    out.copy_from_slice(&bytes[COUNTER_AT..OPTIONS_AT]);
    u16::from_le_bytes(out)
}

// FPort: the byte where FOpts end, if that is before the MIC.
fn port_of(bytes: &[u8], options_end: usize, mic_at: usize) -> Option<u8>
    requires { mic_at ≤ length bytes.now }
    ensures { result ≡ (if nat_lt options_end mic_at then Some (slice_index bytes.now options_end) else None) }
{
    bytes[..mic_at].get(options_end).copied()
}

// The place of the payload's first byte, or that of the MIC.
fn payload_place(options_end: usize, mic_at: usize) -> usize
    ensures { result ≡ (if nat_lt options_end mic_at then options_end + 1 else mic_at) }
{
    if options_end < mic_at {
        options_end + 1
    } else {
        mic_at
    }
}

// The place of the MIC.
fn mic_place(bytes: &[u8]) -> usize
    requires { 12 ≤ length bytes.now }
    ensures { result ≡ mic_place bytes.now }
{
    bytes.len() - MIC_LEN
}

// The place where FOpts end.
fn options_end(bytes: &[u8]) -> usize
    requires { 12 ≤ length bytes.now }
    ensures { result ≡ options_end bytes.now }
{
    OPTIONS_AT + options_len(bytes) as usize
}

// What an uplink says in which no fault was found.
fn uplink_from(bytes: &[u8]) -> Uplink
    requires { 12 ≤ length bytes.now }
    ensures { result ≡ uplink_record bytes.now }
{
    let mic_at = mic_place(bytes);
    let options_end = options_end(bytes);
    Uplink {
        confirmed: frame_type(bytes) == CONFIRMED_UP,
        addr: u32::from_le_bytes(four_at(bytes, ADDR_AT)),
        adr: control_bit(bytes, ADR),
        adr_ack_req: control_bit(bytes, ADR_ACK_REQ),
        ack: control_bit(bytes, ACK),
        low: low_of(bytes),
        opts_len: options_len(bytes),
        port: port_of(bytes, options_end, mic_at),
        payload_at: payload_place(options_end, mic_at),
        mic: four_at(bytes, mic_at),
    }
}

/// Reads a data uplink; the first fault of the order of `FrameFault` is answered. Nothing else is looked
/// at: neither the MIC nor the bits between type and Major nor FPort. Needs no memory.
pub fn read_uplink(bytes: &[u8]) -> Result<Uplink, FrameFault>
    ensures { result ≡ uplink_of bytes.now }
{
    if bytes.len() < EMPTY_LEN {
        return Err(FrameFault::Short);
    }
    if bytes.len() > MAX_LEN {
        return Err(FrameFault::Long);
    }
    let kind = frame_type(bytes);
    if kind != UNCONFIRMED_UP && kind != CONFIRMED_UP {
        return Err(FrameFault::NotData);
    }
    if bytes[0] & MAJOR_MASK != 0 {
        return Err(FrameFault::Major);
    }
    let mic_at = mic_place(bytes);
    let options_end = options_end(bytes);
    if options_end > mic_at {
        return Err(FrameFault::OptionsCut);
    }
    Ok(uplink_from(bytes))
}

/// Whether an uplink, one that `read_uplink` accepts, ends in its MIC under NwkSKey and its whole counter
/// (LoRaWAN L2 1.0.4 section 4.4). Needs no memory.
pub fn check_mic(bytes: &[u8], nwk: &Key, counter: u32) -> bool
    requires { IsOk (uplink_of bytes.now) }
    ensures mic { IsTrue result ↔ HasMic bytes.now nwk.now counter }
    ensures value { result ≡ has_mic bytes.now nwk.now counter }
{
    let mic_at = mic_place(bytes);
    let addr = u32::from_le_bytes(four_at(bytes, ADDR_AT));
    mic(nwk, UP, addr, counter, &bytes[..mic_at]) == four_at(bytes, mic_at)
}
