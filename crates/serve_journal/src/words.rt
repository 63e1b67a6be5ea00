// The words of a line of a journal, which single spaces part.
ghost use Rattle.std.specs.Prelude.{◌≡◌, ℕ, ◌<◌, ◌≤◌, List, [], ◌∷◌, map, take, MatchOption};
ghost use Rattle.gateway_book.specs.Loading.{words_between};

use std::marker::Model;

/// The most words that `LineWords` holds: one more than any line of a journal has.
pub(crate) const WORD_LIMIT: usize = 7;

/// The first words of a line, at most 7. Two spaces part an empty word.
#[derive(Drop)]
pub(crate) struct LineWords<'a> {
    words: [&'a [u8]; WORD_LIMIT],
    count: usize,
}

impl<'a> Model for LineWords<'a> {
    ghost Value = { List (List ℕ) };

    ghost view = { λ s. map (λ word. word.now) (take s.count s.words) };

    ghost invariant = { λ s. s.count ≤ 7 };
}

impl<'a> LineWords<'a> {
    /// The first words of a line, at most 7: where a line has 7 or more, there are 7.
    pub(crate) fn of(line: &'a [u8]) -> Self
        ensures { result ≡ take WORD_LIMIT (words_between line.now) }
    {
        let mut words: [&[u8]; WORD_LIMIT] = [&[]; WORD_LIMIT];
        let mut count = 0;
        let mut rest = line;
        while count < WORD_LIMIT {
            let (word, after) = first_word(rest);
            words[count] = word;
            count += 1;
            match after {
                None => return LineWords { words, count },
                Some(more) => rest = more,
            }
        }
        LineWords { words, count }
    }

    /// The words, to be matched by a slice pattern.
    pub(crate) fn as_slice(&self) -> &[&'a [u8]]
        ensures { map (λ word. word.now) result.now ≡ self.now }
    {
        &self.words[..self.count]
    }
}

/// The bytes of a line up to its first space, and those behind that space, if there is one.
fn first_word(line: &[u8]) -> (&[u8], Option<&[u8]>)
    ensures { MatchOption result.1 (words_between line.now ≡ result.0.now ∷ [])
        (λ rest. words_between line.now ≡ result.0.now ∷ words_between rest.now) }
{
    match line.iter().position(|byte| *byte == b' ') {
        Some(place) => (&line[..place], Some(&line[place + 1..])),
        None => (line, None),
    }
}
