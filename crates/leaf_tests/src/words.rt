// Worked words and numbers of a line.
use std::test::Fail;
use test_asserts::{equal, holds};
use text_lines::{
    WORD_LIMIT, Words, is_passed_over, is_word, number_i16, number_u8, number_u16, number_u32,
    number_u64,
};

/// Whether a line is the word `book`, the number 1 and a word that is no number.
fn is_parted(line: &[u8]) -> bool {
    match Words::of(line).as_slice() {
        [name, number, last] => {
            is_word(name, b"book")
                && number_u64(number) == Some(1)
                && is_word(last, b"10041216\r")
                && number_u64(last).is_none()
        }
        _ => false,
    }
}

/// How many words of a line are held.
fn held(line: &[u8]) -> usize {
    Words::of(line).as_slice().len()
}

/// A line, and whether it is passed over.
static PASSED: [(&[u8], bool); 6] = [
    (b"# a", true),
    (b" \t", true),
    (b"", true),
    (b" # a", false),
    (b"\r", false),
    (b"book", false),
];

#[test]
fn words_are_parted() -> Result<(), Fail> {
    holds(is_parted(b" book\t1  10041216\r"))?;
    equal(&held(b"1 2 3 4 5 6 7 8 9 10 11"), &WORD_LIMIT)
}

#[test]
fn comments_and_blanks_are_passed_over() -> Result<(), Fail> {
    for (line, passed) in &PASSED {
        equal(&is_passed_over(line), passed)?;
    }
    Ok(())
}

/// The number that a word is, as one of so many bits.
fn numbered(bits: u8, word: &[u8]) -> Option<u64> {
    match bits {
        8 => number_u8(word).map(u64::from),
        16 => number_u16(word).map(u64::from),
        32 => number_u32(word).map(u64::from),
        _ => number_u64(word),
    }
}

/// How many bits a number has, a word, and the number that it is.
static NUMBERS: [(u8, &[u8], Option<u64>); 15] = [
    (64, b"", None),
    (64, b"0", Some(0)),
    (64, b"007", Some(7)),
    (64, b"00000000000000000007", Some(7)),
    (64, b"000000000000000000007", None),
    (
        64,
        b"18446744073709551615",
        Some(18_446_744_073_709_551_615),
    ),
    (64, b"18446744073709551616", None),
    (64, b"+7", None),
    (64, b"7a", None),
    (32, b"4294967295", Some(4_294_967_295)),
    (32, b"4294967296", None),
    (16, b"65535", Some(65_535)),
    (16, b"65536", None),
    (8, b"255", Some(255)),
    (8, b"256", None),
];

#[test]
fn numbers_are_read() -> Result<(), Fail> {
    for (bits, word, want) in &NUMBERS {
        equal(&numbered(*bits, word), want)?;
    }
    Ok(())
}

/// A word, and the number with a sign that it is.
static SIGNED: [(&[u8], Option<i16>); 9] = [
    (b"-32768", Some(-32_768)),
    (b"-32769", None),
    (b"32767", Some(32_767)),
    (b"32768", None),
    (b"-90", Some(-90)),
    (b"-00090", Some(-90)),
    (b"000055", None),
    (b"-", None),
    (b"--5", None),
];

#[test]
fn signed_numbers_are_read() -> Result<(), Fail> {
    for (word, want) in &SIGNED {
        equal(&number_i16(word), want)?;
    }
    Ok(())
}
