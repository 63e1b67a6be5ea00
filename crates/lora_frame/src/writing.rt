// Frames are written: the server's downlink and the device's uplink.

ghost use Rattle.std.specs.Prelude.{◌≡◌, ◌↔◌, ◌+◌, ◌≤◌, ◌<◌, ◌++◌, Some, None, Err, IfOk, nat_lt, length, vec_len};
ghost use Rattle.std.specs.Prelude.{vec_capacity};
ghost use Rattle.lora_frame.specs.Frame.{header_bytes, body_bytes, body_len, payload_key, with_mic, bit_worth, down_control};
ghost use Rattle.lora_frame.specs.Frame.{up_control, down_bytes, up_bytes};
ghost use Rattle.lora_frame.specs.Types.{up_type};
ghost use Rattle.lora_frame.specs.Faults.{down_fault, up_fault, has_high_port};

use crate::blocks::{DOWN, UP, append, append_crypted, mic};
use crate::layout::{
    ACK, ADR, ADR_ACK_REQ, CONFIRMED_UP, EMPTY_LEN, F_PENDING, MAX_LEN, MAX_OPTIONS, MAX_PAYLOAD,
    TYPE_SHIFT, UNCONFIRMED_DOWN, UNCONFIRMED_UP, is_application_port,
};
use crate::parts::{Body, Down, Keys, Up};
use aes_cmac::Key;
use std::alloc::Allocator;
use thiserror::Error;

/// Why a downlink was not written; the first in this order is answered.
#[derive(Clone, Copy, Debug, PartialEq, Eq, Error)]
pub enum DownFault {
    /// The FPort is not 1 to 223, the ports of an application (LoRaWAN L2 1.0.4 section 4.3.2).
    #[error("a downlink's port has to be 1 to 223")]
    Port,
    /// The FRMPayload has more than 242 bytes, so that the PHYPayload would have more than 255.
    #[error("a downlink's payload has at most 242 bytes")]
    Long,
    /// The growth by the frame's bytes was refused.
    #[error("no memory was found for a downlink")]
    NoMemory,
}

/// Why an uplink was not written; the first in this order is answered.
#[derive(Clone, Copy, Debug, PartialEq, Eq, Error)]
pub enum UpFault {
    /// The FPort is above 223: neither 0, MAC commands, nor 1 to 223 (LoRaWAN L2 1.0.4 section 4.3.2).
    #[error("an uplink's port has to be 0 to 223")]
    Port,
    /// FOpts have more than 15 bytes (LoRaWAN L2 1.0.4 section 4.3.1), or the PHYPayload would have more than 255.
    #[error("an uplink has at most 15 bytes of FOpts and 255 bytes in all")]
    Long,
    /// The growth by the frame's bytes was refused.
    #[error("no memory was found for an uplink")]
    NoMemory,
}

fn down_refusal(down: &Down) -> Option<DownFault>
    ensures { result ≡ down_fault down.now }
{
    let body = down.body?;
    if !is_application_port(body.port) {
        return Some(DownFault::Port);
    }
    (body.payload.len() > MAX_PAYLOAD).then_some(DownFault::Long)
}

fn up_refusal(up: &Up) -> Option<UpFault>
    ensures { result ≡ up_fault up.now }
{
    if has_high_port(up.body) {
        return Some(UpFault::Port);
    }
    let is_long = up.options.len() > MAX_OPTIONS
        || is_longer(up.body, MAX_LEN - EMPTY_LEN - up.options.len());
    is_long.then_some(UpFault::Long)
}

fn has_high_port(body: Option<Body>) -> bool
    ensures { result ≡ has_high_port body.entry }
{
    body.is_some_and(|body| body.port != 0 && !is_application_port(body.port))
}

// Whether FPort and FRMPayload have more bytes than that.
fn is_longer(body: Option<Body>, most: usize) -> bool
    ensures { result ≡ nat_lt most (body_len body.entry) }
{
    body.is_some_and(|body| body.payload.len() >= most)
}

// How many bytes FPort and FRMPayload have.
fn body_len(body: Option<Body>) -> usize
    requires { body_len body < 256 }
    ensures { result ≡ body_len body.entry }
{
    body.map_or(0, |body| 1 + body.payload.len())
}

// What a bit of FCtrl is worth.
fn bit_worth(bit: bool, worth: u8) -> u8
    ensures worth { result ≡ bit_worth bit worth }
    ensures most { result ≤ worth }
{
    if bit { worth } else { 0 }
}

fn down_control(down: &Down) -> u8
    ensures { result ≡ down_control down.now }
{
    bit_worth(down.ack, ACK) + bit_worth(down.pending, F_PENDING)
}

fn up_control(up: &Up) -> u8
    requires { length up.now.options.now ≤ MAX_OPTIONS }
    ensures { result ≡ up_control up.now }
{
    bit_worth(up.adr, ADR)
        + bit_worth(up.adr_ack_req, ADR_ACK_REQ)
        + bit_worth(up.ack, ACK)
        + up.options.len() as u8
}

// The type of an uplink.
fn up_kind(up: &Up) -> u8
    ensures kind { result ≡ up_type up.now.confirmed }
    ensures low { result < 8 }
{
    if up.confirmed {
        CONFIRMED_UP
    } else {
        UNCONFIRMED_UP
    }
}

// MHDR and FHDR without FOpts.
fn header(kind: u8, addr: u32, control: u8, counter: u32) -> [u8; 8]
    requires { kind < 8 }
    ensures { result ≡ header_bytes kind addr control counter }
{
    let [a0, a1, a2, a3] = addr.to_le_bytes();
    let [c0, c1, ..] = counter.to_le_bytes();
    [kind << TYPE_SHIFT, a0, a1, a2, a3, control, c0, c1]
}

fn payload_key(keys: &Keys, port: u8) -> &Key
    ensures { result.now ≡ payload_key keys.now port }
{
    if port == 0 { &keys.nwk } else { &keys.app }
}

// Appends FPort and the encrypted FRMPayload, for which there is room.
fn append_body<A: Allocator>(
    frame: &mut Vec<u8, A>,
    keys: &Keys,
    direction: u8,
    addr: u32,
    counter: u32,
    body: Option<Body>,
)
    requires short { body_len body ≤ MAX_PAYLOAD + 1 }
    requires room { vec_len frame.old + body_len body ≤ vec_capacity frame.old }
    ensures items { frame.new.items ≡ frame.old.items ++ body_bytes keys.now direction addr counter body.entry }
    ensures len { vec_len frame.new ≡ vec_len frame.old + body_len body.entry }
    ensures room { vec_capacity frame.old ≤ vec_capacity frame.new }
{
    let Some(body) = body else {
        return;
    };
    append(frame, &[body.port]);
    let key = payload_key(keys, body.port);
    append_crypted(frame, key, direction, addr, counter, body.payload);
}

// Appends the MIC, for which there is room.
fn append_mic<A: Allocator>(
    frame: &mut Vec<u8, A>,
    keys: &Keys,
    direction: u8,
    addr: u32,
    counter: u32,
)
    requires short { vec_len frame.old < 256 }
    requires room { vec_len frame.old + 4 ≤ vec_capacity frame.old }
    ensures { frame.new.items ≡ with_mic keys.now direction addr counter frame.old.items }
{
    let code = mic(&keys.nwk, direction, addr, counter, frame.as_slice());
    append(frame, &code);
}

/// The bytes of a downlink, in one growth of their number (LoRaWAN L2 1.0.4 section 4). Err(Port) where
/// the port is outside 1 to 223, else Err(Long) where the payload has more than 242 bytes, else
/// Err(NoMemory) where that growth is refused.
pub fn downlink<A: Allocator>(alloc: A, down: &Down, keys: &Keys) -> Result<Vec<u8, A>, DownFault>
    ensures ok { IfOk result (λ frame. frame.items ≡ down_bytes down.now keys.now) }
    ensures port { (result ≡ Err DownFault.Port) ↔ (down_fault down.now ≡ Some DownFault.Port) }
    ensures long { (result ≡ Err DownFault.Long) ↔ (down_fault down.now ≡ Some DownFault.Long) }
    ensures memory { result ≡ Err DownFault.NoMemory → down_fault down.now ≡ None }
{
    if let Some(fault) = down_refusal(down) {
        return Err(fault);
    }
    let Ok(mut frame) = Vec::with_capacity(alloc, EMPTY_LEN + body_len(down.body)) else {
        return Err(DownFault::NoMemory);
    };
    append(
        &mut frame,
        &header(
            UNCONFIRMED_DOWN,
            down.addr,
            down_control(down),
            down.counter,
        ),
    );
    append_body(&mut frame, keys, DOWN, down.addr, down.counter, down.body);
    append_mic(&mut frame, keys, DOWN, down.addr, down.counter);
    Ok(frame)
}

/// The first 8 bytes of an uplink with at most 15 bytes of FOpts: MHDR, and FHDR up to its FCnt (LoRaWAN L2 1.0.4 sections
/// 4.2 and 4.3). No key has a part in them.
pub fn uplink_header(up: &Up) -> [u8; 8]
    requires { length up.now.options.now ≤ MAX_OPTIONS }
    ensures { result ≡ header_bytes (up_type up.now.confirmed) up.now.addr (up_control up.now) up.now.counter }
{
    header(up_kind(up), up.addr, up_control(up), up.counter)
}

/// The bytes that a device sends as an uplink, in one growth of their number (LoRaWAN L2 1.0.4 section 4).
/// Err(Port) where the port is above 223, else Err(Long) where FOpts have more than 15 bytes or the frame
/// more than 255, else Err(NoMemory) where that growth is refused.
pub fn uplink_bytes<A: Allocator>(alloc: A, up: &Up, keys: &Keys) -> Result<Vec<u8, A>, UpFault>
    ensures ok { IfOk result (λ frame. frame.items ≡ up_bytes up.now keys.now) }
    ensures port { (result ≡ Err UpFault.Port) ↔ (up_fault up.now ≡ Some UpFault.Port) }
    ensures long { (result ≡ Err UpFault.Long) ↔ (up_fault up.now ≡ Some UpFault.Long) }
    ensures memory { result ≡ Err UpFault.NoMemory → up_fault up.now ≡ None }
{
    if let Some(fault) = up_refusal(up) {
        return Err(fault);
    }
    let size = EMPTY_LEN + up.options.len() + body_len(up.body);
    let Ok(mut frame) = Vec::with_capacity(alloc, size) else {
        return Err(UpFault::NoMemory);
    };
    append(&mut frame, &uplink_header(up));
    append(&mut frame, up.options);
    append_body(&mut frame, keys, UP, up.addr, up.counter, up.body);
    append_mic(&mut frame, keys, UP, up.addr, up.counter);
    Ok(frame)
}
