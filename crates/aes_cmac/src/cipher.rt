// The cipher (FIPS 197 section 5.1).

ghost use Rattle.std.specs.Prelude.{ℕ, List, ◌≡◌};
ghost use Rattle.aes_cmac.specs.Aes.{xor_bytes, ciphertext};
ghost use Rattle.aes_cmac.specs.Words.{four_words, state_bytes, IsSchedule};

use crate::keys::Key;
use crate::rounds::{bytes_of, columns_of, last_round, middle_round};
use crate::schedule::{ROUNDS, Schedule};

// AddRoundKey with the first round key.
#[inline(always)]
fn first_xor(v: [u32; 4], words: &Schedule) -> [u32; 4]
    ensures { state_bytes result ≡ xor_bytes (state_bytes v) (four_words words.now 0) }
{
    [
        v[0] ^ words[0],
        v[1] ^ words[1],
        v[2] ^ words[2],
        v[3] ^ words[3],
    ]
}

/// The block that AES-128 gives of a block, under the words of a key's schedule.
pub(crate) fn encrypt_block(words: &Schedule, block: &[u8; 16]) -> [u8; 16]
    ensures { (key : List ℕ) → IsSchedule words.now key → result ≡ ciphertext key block.now }
{
    let mut v = first_xor(columns_of(block), words);
    'rounds: for round in 1..ROUNDS {
        let next = middle_round(v, words, 4 * round);
        v = next;
    }
    bytes_of(last_round(v, words, 4 * ROUNDS))
}

/// The block that AES-128 gives of a block (FIPS 197 section 5.1). Needs no memory.
pub fn encrypt(key: &Key, block: [u8; 16]) -> [u8; 16]
    ensures { result ≡ ciphertext key.now block }
{
    encrypt_block(&key.words, &block)
}
