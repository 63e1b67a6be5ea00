// A message that is taken in piece by piece (RFC 4493 section 2.4).

ghost use Rattle.std.specs.Prelude.{ℕ, List, [], ◌∷◌, ◌≡◌, ◌+◌, ◌-◌, ◌<◌, ◌≤◌, ◌++◌, length, take, drop, replicate};
ghost use Rattle.aes_cmac.specs.Aes.{xor_bytes, ciphertext};
ghost use Rattle.aes_cmac.specs.Mac.{cmac, first_subkey, second_subkey};
ghost use Rattle.aes_cmac.specs.Progress.{HasTaken};

use crate::cipher::encrypt;
use crate::keys::Key;
use std::fmt;
use std::marker::Model;

/// The bytes of a block (RFC 4493 section 2.4).
const BLOCK_LEN: usize = 16;

// Two blocks, byte by byte xored.
#[inline(always)]
fn xor_of(a: &[u8; 16], b: &[u8; 16]) -> [u8; 16]
    ensures { result ≡ xor_bytes a.now b.now }
{
    let mut out = [0u8; BLOCK_LEN];
    'bytes: for i in 0..BLOCK_LEN {
        out[i] = a[i] ^ b[i];
    }
    out
}

// A block of a message, from place `at` on.
#[inline(always)]
fn block_from(bytes: &[u8], at: usize) -> [u8; 16]
    requires { at + 16 ≤ length bytes.now }
    ensures { result ≡ take 16 (drop at bytes.now) }
{
    let mut block = [0u8; BLOCK_LEN];
    block.copy_from_slice(&bytes[at..at + BLOCK_LEN]);
    block
}

/// A message under a key, taken in by pieces: `new`, an `update` for each piece, and `finish`.
/// No call needs memory.
#[derive(Drop)]
pub struct Cmac<'a> {
    key: &'a Key,
    // X after the blocks that were added.
    chain: [u8; 16],
    // The bytes after them: the last block is held back, since `finish` treats it by itself.
    buffer: [u8; 16],
    held: usize,
}

impl<'a> Model for Cmac<'a> {
    ghost use Rattle.std.specs.Prelude.{◌≤◌, take};
    ghost use Rattle.aes_cmac.specs.Progress.{Progress};

    ghost Value = { Progress };

    ghost view = { λ s. record { key = s.key.now; chain = s.chain; tail = take s.held s.buffer } };

    ghost invariant = { λ s. s.held ≤ 16 };
}

/// Shows no byte of the key, nor of what was made of it.
impl<'a> fmt::Debug for Cmac<'a> {
    fn fmt<W: fmt::Write>(&self, f: &mut fmt::Formatter<W>) -> fmt::Result {
        f.write_str("Cmac { .. }")
    }
}

impl<'a> Cmac<'a> {
    /// The state of the empty message.
    pub fn new(key: &'a Key) -> Cmac<'a>
        ensures { HasTaken result key.now [] }
    {
        Cmac {
            key,
            chain: [0; BLOCK_LEN],
            buffer: [0; BLOCK_LEN],
            held: 0,
        }
    }

    /// Takes in the next bytes of the message, as many as there are.
    pub fn update(&mut self, bytes: &[u8])
        ensures { (key m : List ℕ) → HasTaken self.old key m → HasTaken self.new key (m ++ bytes.now) }
    {
        let room = self.room();
        if bytes.len() <= room {
            self.hold(bytes);
            return;
        }
        self.hold(&bytes[..room]);
        self.add_held();
        let count = (bytes.len() - room - 1) / BLOCK_LEN;
        'blocks: for i in 0..count {
            self.add(&block_from(bytes, room + BLOCK_LEN * i));
        }
        self.hold(&bytes[room + BLOCK_LEN * count..]);
    }

    /// The code of the message (RFC 4493 section 2.4).
    pub fn finish(self) -> [u8; 16]
        ensures { (key m : List ℕ) → HasTaken self.entry key m → result ≡ cmac key m }
    {
        encrypt(self.key, xor_of(&self.chain, &self.last_block()))
    }

    // How many bytes may be held beside those that are.
    fn room(&self) -> usize
        ensures { result + length self.now.tail ≡ 16 }
    {
        BLOCK_LEN - self.held
    }

    // Holds more bytes.
    fn hold(&mut self, bytes: &[u8])
        requires { length self.old.tail + length bytes.now ≤ 16 }
        ensures { self.new ≡ record { key = self.old.key; chain = self.old.chain; tail = self.old.tail ++ bytes.now } }
    {
        self.buffer[self.held..self.held + bytes.len()].copy_from_slice(bytes);
        self.held += bytes.len();
    }

    // Adds a block to X, whatever is held.
    fn add(&mut self, block: &[u8; 16])
        ensures { self.new ≡ record {
          key = self.old.key;
          chain = ciphertext self.old.key (xor_bytes self.old.chain block.now);
          tail = self.old.tail;
        } }
    {
        self.chain = encrypt(self.key, xor_of(&self.chain, block));
    }

    // Adds the block that is held to X.
    fn add_held(&mut self)
        requires { length self.old.tail ≡ 16 }
        ensures { self.new ≡ record {
          key = self.old.key;
          chain = ciphertext self.old.key (xor_bytes self.old.chain self.old.tail);
          tail = [];
        } }
    {
        let block = self.buffer;
        self.add(&block);
        self.held = 0;
    }

    // The last block, xored with its subkey.
    fn last_block(&self) -> [u8; 16]
        ensures whole { length self.now.tail ≡ 16 → result ≡ xor_bytes self.now.tail (first_subkey self.now.key) }
        ensures filled { length self.now.tail < 16
            → result ≡ xor_bytes (self.now.tail ++ 0x80 ∷ replicate (15 - length self.now.tail) 0) (second_subkey self.now.key) }
    {
        if self.held == BLOCK_LEN {
            return xor_of(&self.buffer, &self.key.first_subkey());
        }
        let mut last = self.buffer;
        last[self.held] = 0x80;
        last[self.held + 1..].fill(0);
        xor_of(&last, &self.key.second_subkey())
    }
}
