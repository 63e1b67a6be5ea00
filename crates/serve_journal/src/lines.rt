// The lines of a journal, and its batches.
ghost use Rattle.std.specs.Prelude.{◌≡◌, ◌<◌, ◌≤◌, ◌+◌, [], ◌∷◌, ◌++◌, length, MatchOption, IfSome};
ghost use Rattle.text_lines.specs.Line.{HasNoLineFeed};
ghost use Rattle.serve_journal.specs.Lines.{lines_of, batches_of, is_end};

use text_lines::is_word;

/// The line that ends a batch, its line feed left out.
pub(crate) const END_LINE: &[u8] = b".";

/// The bytes up to the first line feed, and those behind it. None: there is none.
pub(crate) fn next_line(bytes: &[u8]) -> Option<(&[u8], &[u8])>
    ensures line { MatchOption result (HasNoLineFeed bytes.now)
        (λ found. (bytes.now ≡ found.0.now ++ 10 ∷ found.1.now) × HasNoLineFeed found.0.now) }
    ensures lines { MatchOption result (lines_of bytes.now ≡ [])
        (λ found. lines_of bytes.now ≡ found.0.now ∷ lines_of found.1.now) }
{
    match bytes.iter().position(|byte| *byte == b'\n') {
        Some(place) => Some((&bytes[..place], &bytes[place + 1..])),
        None => None,
    }
}

/// The lines of the first batch, and the bytes behind its line `.`. None: no line `.` is there.
pub(crate) fn next_batch(bytes: &[u8]) -> Option<(&[u8], &[u8])>
    ensures batch { MatchOption result (batches_of (lines_of bytes.now) ≡ [])
        (λ found. batches_of (lines_of bytes.now) ≡ lines_of found.0.now ∷ batches_of (lines_of found.1.now)) }
    ensures shorter { IfSome result (λ found. length found.0.now + length found.1.now < length bytes.now) }
{
    let mut rest = bytes;
    while let Some((line, after)) = next_line(rest) {
        if is_word(line, END_LINE) {
            return Some((&bytes[..bytes.len() - rest.len()], after));
        }
        rest = after;
    }
    None
}

/// How many lines there are.
#[tactic(auto, using(crate::proofs::ReadingLemmas::lines_counted))]
pub(crate) fn line_count(bytes: &[u8]) -> u64
    ensures count { result ≡ length (lines_of bytes.now) }
    ensures few { result ≤ length bytes.now }
{
    bytes.iter().filter(|byte| **byte == b'\n').count() as u64
}
