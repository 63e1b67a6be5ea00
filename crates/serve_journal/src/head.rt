// The first line of a journal.
ghost use Rattle.std.specs.Prelude.{◌≡◌, [], ◌∷◌, map};
ghost use Rattle.serve_journal.specs.Reading.{version_in, version_fault, head_fault};

use crate::JournalFault;
use crate::entry_words::plain;
use crate::words::LineWords;
use text_lines::{is_word, number_u32};

/// The version of a journal that is read and written.
const VERSION: u32 = 1;

/// Why this is not the first line of a journal that is read.
pub(crate) fn head_fault(line: &[u8]) -> Option<JournalFault>
    ensures { result ≡ head_fault line.now }
{
    version_fault(version_in(LineWords::of(line).as_slice()))
}

/// VERSION of a line `airbook journal VERSION`.
fn version_in(words: &[&[u8]]) -> Option<u32>
    ensures { result ≡ version_in (map (λ word. word.now) words.now) }
{
    match words {
        [name, kind, version] => version_of(name, kind, version),
        [_, _, _, _, ..] => None,
        _ => None,
    }
}

/// The same, word by word.
fn version_of(name: &[u8], kind: &[u8], version: &[u8]) -> Option<u32>
    ensures { result ≡ version_in (name.now ∷ kind.now ∷ version.now ∷ []) }
{
    if is_word(name, b"airbook") && is_word(kind, b"journal") {
        return plain(version, number_u32(version));
    }
    None
}

/// Why a journal of this version is not read.
fn version_fault(version: Option<u32>) -> Option<JournalFault>
    ensures { result ≡ version_fault version }
{
    match version {
        None => Some(JournalFault::NoHead),
        Some(VERSION) => None,
        Some(_) => Some(JournalFault::Version),
    }
}
