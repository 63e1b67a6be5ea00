// The blocks that a frame's payload and MIC are made with (LoRaWAN L2 1.0.4 sections 4.3.3 and 4.4).

ghost use Rattle.std.specs.Prelude.{◌≡◌, ◌+◌, ◌≤◌, ◌<◌, ◌∷◌, [], ◌++◌, length, take, replicate, vec_len};
ghost use Rattle.std.specs.Prelude.{vec_capacity};
ghost use Rattle.std.specs.Int.{w32, to_le_bytes};
ghost use Rattle.aes_cmac.specs.Aes.{xor_bytes, ciphertext};
ghost use Rattle.lora_frame.specs.Blocks.{stream_seed, crypted, mic_of};

use crate::layout::MAX_PAYLOAD;
use aes_cmac::{Cmac, Key, encrypt};
use std::alloc::Allocator;

/// The bytes of a block of AES (FIPS 197 section 5).
const BLOCK_LEN: usize = 16;

/// The byte of the blocks that says that a frame goes up.
pub(crate) const UP: u8 = 0;

/// The byte of the blocks that says that a frame goes down.
pub(crate) const DOWN: u8 = 1;

// The first byte of the blocks whose ciphers are the key stream (LoRaWAN L2 1.0.4 section 4.3.3).
const STREAM_FIRST: u8 = 0x01;

// The first byte of B0, the block before the message of a MIC (LoRaWAN L2 1.0.4 section 4.4).
const MIC_FIRST: u8 = 0x49;

// A block with these first and last bytes.
fn block_of(first: u8, direction: u8, addr: u32, counter: u32, last: u8) -> [u8; 16]
    ensures { result ≡ first ∷ replicate 4 0 ++ direction ∷ to_le_bytes w32 addr ++ to_le_bytes w32 counter ++ 0 ∷ last ∷ [] }
{
    let [a0, a1, a2, a3] = addr.to_le_bytes();
    let [c0, c1, c2, c3] = counter.to_le_bytes();
    [
        first, 0, 0, 0, 0, direction, a0, a1, a2, a3, c0, c1, c2, c3, 0, last,
    ]
}

/// The i-th block of the key stream.
pub(crate) fn stream_block(key: &Key, direction: u8, addr: u32, counter: u32, i: u8) -> [u8; 16]
    ensures { result ≡ ciphertext key.now (stream_seed direction addr counter i) }
{
    encrypt(key, block_of(STREAM_FIRST, direction, addr, counter, i))
}

// A piece of a payload, of at most 16 bytes, xored with the block of the key stream that it meets;
// what comes after the piece's length is not used.
fn xored_with(block: [u8; 16], piece: &[u8]) -> [u8; 16]
    requires { length piece.now ≤ 16 }
    ensures { take (length piece.now) result ≡ xor_bytes piece.now block }
{
    let mut out = block;
    'bytes: for i in 0..piece.len() {
        out[i] = piece[i] ^ block[i];
    }
    out
}

/// Appends bytes for which there is room.
pub(crate) fn append<A: Allocator>(frame: &mut Vec<u8, A>, bytes: &[u8])
    requires { vec_len frame.old + length bytes.now ≤ vec_capacity frame.old }
    ensures items { frame.new.items ≡ frame.old.items ++ bytes.now }
    ensures len { vec_len frame.new ≡ vec_len frame.old + length bytes.now }
    ensures room { vec_capacity frame.old ≤ vec_capacity frame.new }
{
    let _ = frame.extend_from_slice(bytes);
}

// Appends a piece of a payload, xored with the block of the key stream that it meets.
fn append_xored<A: Allocator>(frame: &mut Vec<u8, A>, block: [u8; 16], piece: &[u8])
    requires short { length piece.now ≤ 16 }
    requires room { vec_len frame.old + length piece.now ≤ vec_capacity frame.old }
    ensures items { frame.new.items ≡ frame.old.items ++ xor_bytes piece.now block }
    ensures len { vec_len frame.new ≡ vec_len frame.old + length piece.now }
    ensures room { vec_capacity frame.old ≤ vec_capacity frame.new }
{
    let xored = xored_with(block, piece);
    append(frame, &xored[..piece.len()]);
}

/// Appends a payload, xored with the key stream, for which there is room.
pub(crate) fn append_crypted<A: Allocator>(
    frame: &mut Vec<u8, A>,
    key: &Key,
    direction: u8,
    addr: u32,
    counter: u32,
    payload: &[u8],
)
    requires short { length payload.now ≤ MAX_PAYLOAD }
    requires room { vec_len frame.old + length payload.now ≤ vec_capacity frame.old }
    ensures items { frame.new.items ≡ frame.old.items ++ crypted key.now direction addr counter payload.now }
    ensures len { vec_len frame.new ≡ vec_len frame.old + length payload.now }
    ensures room { vec_capacity frame.old ≤ vec_capacity frame.new }
{
    for (i, piece) in payload.chunks(BLOCK_LEN).enumerate() {
        let block = stream_block(key, direction, addr, counter, i as u8 + 1);
        append_xored(frame, block, piece);
    }
}

/// The MIC of a message.
pub(crate) fn mic(key: &Key, direction: u8, addr: u32, counter: u32, message: &[u8]) -> [u8; 4]
    requires { length message.now < 256 }
    ensures { result ≡ mic_of key.now direction addr counter message.now }
{
    let mut state = Cmac::new(key);
    state.update(&block_of(MIC_FIRST, direction, addr, counter, message.len() as u8));
    state.update(message);
    let code = state.finish();
    [code[0], code[1], code[2], code[3]]
}
