// The key schedule (FIPS 197 section 5.2).

ghost use Rattle.std.specs.Prelude.{ℕ, ◌≡◌, ◌<◌, ◌≤◌, ◌^◌, slice_index};
ghost use Rattle.aes_cmac.specs.Aes.{added_word};
ghost use Rattle.aes_cmac.specs.Words.{word_bytes, IsSchedule};

use crate::rounds::{substituted, word_from};
use crate::tables::ROUND_CONSTANTS;

/// The rounds of AES-128 (FIPS 197 section 5).
pub(crate) const ROUNDS: usize = 10;

/// The words of AES-128's key schedule: 4 of the key and 4 for each round (FIPS 197 section 5.2).
pub(crate) const SCHEDULE_LEN: usize = 4 * (ROUNDS + 1);

/// The words of a key's schedule, each with its highest byte first.
pub(crate) type Schedule = [u32; SCHEDULE_LEN];

// What word i - 4 is added to, to give word i, from word i - 1.
fn added_to(word: u32, i: usize) -> u32
    requires low { 4 ≤ i }
    requires high { i < SCHEDULE_LEN }
    ensures { word_bytes result ≡ added_word (word_bytes word) i }
{
    if i % 4 > 0 {
        return word;
    }
    // RotWord; SubWord and Rcon follow.
    let turned = word.rotate_left(8);
    substituted(turned, turned, turned, turned, ROUND_CONSTANTS[i / 4 - 1])
}

/// The words of a key's schedule.
pub(crate) fn expanded(key: &[u8; 16]) -> Schedule
    ensures words { IsSchedule result key.now }
    ensures fits { (i : ℕ) → slice_index result i < 2 ^ 32 }
{
    let mut words = [0u32; SCHEDULE_LEN];
    words[0] = word_from(key, 0);
    words[1] = word_from(key, 4);
    words[2] = word_from(key, 8);
    words[3] = word_from(key, 12);
    'words: for i in 4..SCHEDULE_LEN {
        words[i] = words[i - 4] ^ added_to(words[i - 1], i);
    }
    words
}
