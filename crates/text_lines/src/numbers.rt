// The numbers that words are.
ghost use Rattle.std.specs.Prelude.{◌≡◌, ◌^◌};
ghost use Rattle.std.specs.List.{list_all};
ghost use Rattle.text_lines.specs.Number.{is_digit, is_digits, number_below, number_signed, NumbersReadBack};

use super::text_line::NUMBER_DIGITS;

/// Whether the word is digits alone, at least one and at most `most`.
fn is_digits(word: &[u8], most: usize) -> bool
    ensures { result ≡ is_digits most word.now }
{
    !word.is_empty() && word.len() <= most && are_digits(word)
}

/// Whether all bytes of the word are digits.
fn are_digits(word: &[u8]) -> bool
    ensures { result ≡ list_all is_digit word.now }
{
    word.iter().all(|byte| byte.is_ascii_digit())
}

/// The number that a word of 1 to 20 digits is, zeros before it allowed; None for any other word, and above 2^64 - 1.
pub fn number_u64(word: &[u8]) -> Option<u64>
    ensures { result ≡ number_below (2 ^ 64) word.now }
{
    if !is_digits(word, NUMBER_DIGITS) {
        return None;
    }
    let mut value = 0_u64;
    for byte in word {
        value = value.checked_mul(10)?.checked_add(u64::from(*byte - b'0'))?;
    }
    Some(value)
}

/// The number that a word of 1 to 20 digits is, zeros before it allowed; None for any other word, and above 2^32 - 1.
pub fn number_u32(word: &[u8]) -> Option<u32>
    ensures { result ≡ number_below (2 ^ 32) word.now }
{
    u32::try_from(number_u64(word)?).ok()
}

/// The number that a word of 1 to 20 digits is, zeros before it allowed; None for any other word, and above 65,535.
pub fn number_u16(word: &[u8]) -> Option<u16>
    ensures { result ≡ number_below (2 ^ 16) word.now }
{
    u16::try_from(number_u64(word)?).ok()
}

/// The number that a word of 1 to 20 digits is, zeros before it allowed; None for any other word, and above 255.
pub fn number_u8(word: &[u8]) -> Option<u8>
    ensures { result ≡ number_below (2 ^ 8) word.now }
{
    u8::try_from(number_u64(word)?).ok()
}

/// The number that a word of 1 to 5 digits is, zeros before it allowed, with `-` before them or not; None for any
/// other word, and outside -32,768..=32,767.
pub fn number_i16(word: &[u8]) -> Option<i16>
    ensures { result ≡ number_signed word.now }
{
    match word {
        [b'-', digits @ ..] if is_digits(digits, 5) => {
            let value = i64::from(number_u32(digits)?);
            i16::try_from(-value).ok()
        }
        [b'-', ..] => None,
        _ if is_digits(word, 5) => i16::try_from(number_u32(word)?).ok(),
        _ => None,
    }
}

/// A law: what `decimal` writes of a number of 64 bits, `number_u64` reads as that number.
pub fn law_numbers_read_back()
    ensures { NumbersReadBack }
{}
