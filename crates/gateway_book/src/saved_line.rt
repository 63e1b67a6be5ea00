// What a line of a saved book says.
ghost use Rattle.std.specs.Prelude.{◌≡◌, map, None, if◌then◌else◌};
ghost use Rattle.gateway_book.specs.Loading.{leads_zero, version_in, gateway_in, gap_in, member_in, member_with, count_in};
ghost use Rattle.gateway_book.specs.Loading.{entry_in, words_between};

use crate::Ask;
use crate::saved_words::SavedWords;
use radio_airtime::DataRate;
use text_lines::{is_word, number_u8, number_u16, number_u32, number_u64};

/// The version of a saved book that is written.
pub(crate) const VERSION: u32 = 2;

/// The version before it, which has no gap, and is read too.
pub(crate) const WITHOUT_GAP: u32 = 1;

/// What the gateway's line says.
#[derive(Clone, Copy)]
pub(crate) struct SavedGateway {
    /// The gateway's number.
    pub(crate) id: u16,
    /// How many members its book may have.
    pub(crate) cap: u32,
    /// The floor, in microseconds of the gateway's clock.
    pub(crate) floor: u64,
    /// The gap between two members, in microseconds.
    pub(crate) gap: u32,
}

/// What a line says that follows the gateway's.
#[derive(Clone, Copy)]
pub(crate) enum Entry {
    /// `r NUMBER START FREQ DR LEN`: a member.
    Member(Ask),
    /// `end COUNT`: so many members were saved.
    End(u32),
}

/// VERSION of the first line, if it is one.
pub(crate) fn version_said(line: &[u8]) -> Option<u32>
    ensures { result ≡ version_in (words_between line.now) }
{
    version_in(SavedWords::of(line).as_slice())
}

/// The gateway of the second line, if it is one.
pub(crate) fn gateway_said(version: u32, line: &[u8]) -> Option<SavedGateway>
    ensures { result ≡ gateway_in version (words_between line.now) }
{
    gateway_in(version, SavedWords::of(line).as_slice())
}

/// What a later line says, if it is one.
pub(crate) fn entry_said(line: &[u8]) -> Option<Entry>
    ensures { result ≡ entry_in (words_between line.now) }
{
    entry_in(SavedWords::of(line).as_slice())
}

/// VERSION of a line `airbook VERSION`.
fn version_in(words: &[&[u8]]) -> Option<u32>
    ensures { result ≡ version_in (map (λ word. word.now) words.now) }
{
    match words {
        [name, version] if is_word(name, b"airbook") => plain(version, number_u32(version)),
        _ => None,
    }
}

/// The gateway of a line `gateway ID CAP FLOOR`, which version 1 has, or `gateway ID CAP FLOOR GAP`.
fn gateway_in(version: u32, words: &[&[u8]]) -> Option<SavedGateway>
    ensures { result ≡ gateway_in version (map (λ word. word.now) words.now) }
{
    match words {
        [name, id, cap, floor, gap @ ..] if is_word(name, b"gateway") => Some(SavedGateway {
            id: plain(id, number_u16(id))?,
            cap: plain(cap, number_u32(cap))?,
            floor: plain(floor, number_u64(floor))?,
            gap: gap_in(version, gap)?,
        }),
        _ => None,
    }
}

/// GAP, which version 1 has not.
fn gap_in(version: u32, words: &[&[u8]]) -> Option<u32>
    ensures { result ≡ gap_in version (map (λ word. word.now) words.now) }
{
    match words {
        [] if version == WITHOUT_GAP => Some(0),
        [gap] if version != WITHOUT_GAP => plain(gap, number_u32(gap)),
        _ => None,
    }
}

/// What a line says that follows the gateway's, if it is one.
fn entry_in(words: &[&[u8]]) -> Option<Entry>
    ensures { result ≡ entry_in (map (λ word. word.now) words.now) }
{
    if let Some(ask) = member_in(words) {
        return Some(Entry::Member(ask));
    }
    Some(Entry::End(count_in(words)?))
}

/// The member of a line `r NUMBER START FREQ DR LEN`.
fn member_in(words: &[&[u8]]) -> Option<Ask>
    ensures { result ≡ member_in (map (λ word. word.now) words.now) }
{
    match words {
        [name, number, start, freq_hz, rate, len] if is_word(name, b"r") => member_with(
            plain(number, number_u64(number)),
            plain(start, number_u64(start)),
            plain(freq_hz, number_u32(freq_hz)),
            plain(rate, number_u8(rate)).and_then(DataRate::from_number),
            plain(len, number_u8(len)),
        ),
        _ => None,
    }
}

/// A member of these fields, where each is there.
fn member_with(
    number: Option<u64>,
    start: Option<u64>,
    freq_hz: Option<u32>,
    rate: Option<DataRate>,
    len: Option<u8>,
) -> Option<Ask>
    ensures { result ≡ member_with number start freq_hz rate len }
{
    Some(Ask {
        number: number?,
        start: start?,
        freq_hz: freq_hz?,
        rate: rate?,
        len: len?,
    })
}

/// COUNT of a line `end COUNT`.
fn count_in(words: &[&[u8]]) -> Option<u32>
    ensures { result ≡ count_in (map (λ word. word.now) words.now) }
{
    match words {
        [name, count] if is_word(name, b"end") => plain(count, number_u32(count)),
        _ => None,
    }
}

/// The number of a word, if no zero leads it.
fn plain<T: Copy>(word: &[u8], number: Option<T>) -> Option<T>
    ensures { result ≡ (if leads_zero word.now then None else number) }
{
    match word {
        [b'0', _, ..] => None,
        _ => number,
    }
}
