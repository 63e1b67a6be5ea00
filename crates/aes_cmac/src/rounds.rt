// The rounds of the cipher on four columns, each a word whose highest byte is in row 0
// (FIPS 197 section 5.1).

ghost use Rattle.std.specs.Prelude.{◌≡◌, ◌+◌, ◌≤◌, [], ◌∷◌, length, slice_index};
ghost use Rattle.aes_cmac.specs.Field.{s_box};
ghost use Rattle.aes_cmac.specs.Aes.{xor_bytes, sub_bytes, shift_rows, mixed_column, mix_columns};
ghost use Rattle.aes_cmac.specs.Words.{word_bytes, byte_of, four_words, state_bytes};

use crate::schedule::{SCHEDULE_LEN, Schedule};
use crate::tables::{FIRST_COLUMN, FOURTH_COLUMN, S_BOX, SECOND_COLUMN, THIRD_COLUMN};

// SubBytes, ShiftRows, MixColumns and AddRoundKey of one column, which ShiftRows makes of row 0 of
// `a`, row 1 of `b`, row 2 of `c` and row 3 of `d`.
#[inline(always)]
fn mixed(a: u32, b: u32, c: u32, d: u32, key: u32) -> u32
    ensures { word_bytes result
        ≡ xor_bytes (mixed_column (s_box (byte_of a 0)) (s_box (byte_of b 1)) (s_box (byte_of c 2)) (s_box (byte_of d 3)))
        (word_bytes key) }
{
    FIRST_COLUMN[(a >> 24) as usize]
        ^ SECOND_COLUMN[(b >> 16) as usize % 256]
        ^ THIRD_COLUMN[(c >> 8) as usize % 256]
        ^ FOURTH_COLUMN[d as usize % 256]
        ^ key
}

/// The same without MixColumns.
#[inline(always)]
pub(crate) fn substituted(a: u32, b: u32, c: u32, d: u32, key: u32) -> u32
    ensures { word_bytes result
        ≡ xor_bytes (s_box (byte_of a 0) ∷ s_box (byte_of b 1) ∷ s_box (byte_of c 2) ∷ s_box (byte_of d 3) ∷ [])
        (word_bytes key) }
{
    u32::from_be_bytes([
        S_BOX[(a >> 24) as usize],
        S_BOX[(b >> 16) as usize % 256],
        S_BOX[(c >> 8) as usize % 256],
        S_BOX[d as usize % 256],
    ]) ^ key
}

/// A round, with the round key that begins at word `at`.
#[inline(always)]
pub(crate) fn middle_round(v: [u32; 4], words: &Schedule, at: usize) -> [u32; 4]
    requires { at + 4 ≤ SCHEDULE_LEN }
    ensures { state_bytes result
        ≡ xor_bytes (mix_columns (shift_rows (sub_bytes (state_bytes v)))) (four_words words.now at) }
{
    [
        mixed(v[0], v[1], v[2], v[3], words[at]),
        mixed(v[1], v[2], v[3], v[0], words[at + 1]),
        mixed(v[2], v[3], v[0], v[1], words[at + 2]),
        mixed(v[3], v[0], v[1], v[2], words[at + 3]),
    ]
}

/// The last round, which leaves MixColumns out.
#[inline(always)]
pub(crate) fn last_round(v: [u32; 4], words: &Schedule, at: usize) -> [u32; 4]
    requires { at + 4 ≤ SCHEDULE_LEN }
    ensures { state_bytes result
        ≡ xor_bytes (shift_rows (sub_bytes (state_bytes v))) (four_words words.now at) }
{
    [
        substituted(v[0], v[1], v[2], v[3], words[at]),
        substituted(v[1], v[2], v[3], v[0], words[at + 1]),
        substituted(v[2], v[3], v[0], v[1], words[at + 2]),
        substituted(v[3], v[0], v[1], v[2], words[at + 3]),
    ]
}

/// The four bytes from place `at` on, as a word.
#[inline(always)]
pub(crate) fn word_from(bytes: &[u8], at: usize) -> u32
    requires { at + 4 ≤ length bytes.now }
    ensures { word_bytes result
        ≡ slice_index bytes.now at ∷ slice_index bytes.now (at + 1) ∷ slice_index bytes.now (at + 2)
        ∷ slice_index bytes.now (at + 3) ∷ [] }
{
    u32::from_be_bytes([bytes[at], bytes[at + 1], bytes[at + 2], bytes[at + 3]])
}

/// The columns of a block.
#[inline(always)]
pub(crate) fn columns_of(block: &[u8; 16]) -> [u32; 4]
    ensures { state_bytes result ≡ block.now }
{
    [
        word_from(block, 0),
        word_from(block, 4),
        word_from(block, 8),
        word_from(block, 12),
    ]
}

/// The block of four columns.
#[inline(always)]
pub(crate) fn bytes_of(v: [u32; 4]) -> [u8; 16]
    ensures { result ≡ state_bytes v }
{
    let [a0, a1, a2, a3] = v[0].to_be_bytes();
    let [b0, b1, b2, b3] = v[1].to_be_bytes();
    let [c0, c1, c2, c3] = v[2].to_be_bytes();
    let [d0, d1, d2, d3] = v[3].to_be_bytes();
    [
        a0, a1, a2, a3, b0, b1, b2, b3, c0, c1, c2, c3, d0, d1, d2, d3,
    ]
}
