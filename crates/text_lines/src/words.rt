// What a line says: whether it is passed over, and its words.
ghost use Rattle.std.specs.Prelude.{◌≡◌, ℕ, ◌<◌, ◌≤◌, ◌↔◌, List, [], ◌∷◌, map, length, take, slice_index, true, false};
ghost use Rattle.std.specs.Prelude.{IsTrue, IfSome, MatchOption};
ghost use Rattle.std.specs.Str.{bytes_eq};
ghost use Rattle.text_lines.specs.Line.{is_too_long};
ghost use Rattle.text_lines.specs.Words.{is_blank, words_of, is_passed_over};

use super::held_line::LINE_LIMIT;
use std::marker::Model;

/// The most words that `Words` holds.
pub const WORD_LIMIT: usize = 10;

/// Whether the byte parts words: a space or a tab.
fn is_blank(byte: u8) -> bool
    ensures { result ≡ is_blank byte }
{
    byte == b' ' || byte == b'\t'
}

/// Whether a line has more than 1,024 bytes.
pub fn is_too_long(line: &[u8]) -> bool
    ensures { result ≡ is_too_long line.now }
{
    line.len() > LINE_LIMIT
}

/// Whether a line is passed over: it is not too long, and has no word or begins with `#`.
pub fn is_passed_over(line: &[u8]) -> bool
    ensures { result ≡ is_passed_over line.now }
{
    if is_too_long(line) {
        return false;
    }
    line.first() == Some(&b'#') || first_word(line).is_none()
}

/// The place of the first blank of a line, or the line's length.
fn first_blank(line: &[u8]) -> usize
    ensures within { result ≤ length line.now }
    ensures before { (k : ℕ) → k < result → is_blank (slice_index line.now k) ≡ false }
    ensures at { result < length line.now → is_blank (slice_index line.now result) ≡ true }
{
    line.iter()
        .position(|byte| is_blank(*byte))
        .unwrap_or(line.len())
}

/// What is left of a line behind the blanks that it begins with.
fn behind_blanks(line: &[u8]) -> &[u8]
    ensures words { words_of result.now ≡ words_of line.now }
    ensures shorter { length result.now ≤ length line.now }
    ensures first { 0 < length result.now → is_blank (slice_index result.now 0) ≡ false }
{
    let start = line
        .iter()
        .position(|byte| !is_blank(*byte))
        .unwrap_or(line.len());
    &line[start..]
}

/// The first word of a line, and what follows it; None where the line has no word.
pub fn first_word(line: &[u8]) -> Option<(&[u8], &[u8])>
    ensures word { MatchOption result (words_of line.now ≡ [])
        (λ parts. words_of line.now ≡ parts.0.now ∷ words_of parts.1.now) }
    ensures shorter { IfSome result (λ parts. length parts.1.now < length line.now) }
{
    let rest = behind_blanks(line);
    if rest.is_empty() {
        return None;
    }
    Some(rest.split_at(first_blank(rest)))
}

/// Whether the word is this one, byte by byte.
pub fn is_word(word: &[u8], name: &[u8]) -> bool
    ensures same { IsTrue result ↔ (word.now ≡ name.now) }
    ensures test { result ≡ bytes_eq word.now name.now }
{
    word == name
}

/// The first words of a line, at most 10.
#[derive(Debug, Drop)]
pub struct Words<'a> {
    words: [&'a [u8]; WORD_LIMIT],
    count: usize,
}

impl<'a> Model for Words<'a> {
    ghost Value = { List (List ℕ) };

    ghost view = { λ s. map (λ word. word.now) (take s.count s.words) };

    ghost invariant = { λ s. s.count ≤ 10 };
}

impl<'a> Words<'a> {
    /// The first words of a line, at most 10: where a line has 10 or more, there are 10.
    pub fn of(line: &'a [u8]) -> Self
        ensures words { result ≡ take WORD_LIMIT (words_of line.now) }
        ensures all { length result < WORD_LIMIT → result ≡ words_of line.now }
    {
        let mut words: [&[u8]; WORD_LIMIT] = [&[]; WORD_LIMIT];
        let mut count = 0;
        let mut rest = line;
        while count < WORD_LIMIT {
            let Some((word, after)) = first_word(rest) else {
                return Words { words, count };
            };
            words[count] = word;
            count += 1;
            rest = after;
        }
        Words { words, count }
    }

    /// The words, to be matched by a slice pattern.
    pub fn as_slice(&self) -> &[&'a [u8]]
        ensures { map (λ word. word.now) result.now ≡ self.now }
    {
        &self.words[..self.count]
    }
}
