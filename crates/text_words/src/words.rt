// The words of answers and reports.
ghost use Rattle.std.specs.Prelude.{◌≡◌, ◌+◌, ◌≤◌, ◌∷◌, ◌++◌, length, decimal};
ghost use Rattle.text_words.specs.Words.{spaced, band_word, fault_word, refusal_words};
ghost use Rattle.text_words.specs.Words as words;

use gateway_book::{CancelFault, Refusal};
use radio_bands::Band;
use text_lines::{TextLine, add_number, add_word};

/// The name of a refusal, without its numbers.
pub fn refusal_name(refusal: Refusal) -> &'static [u8]
    ensures name { result.now ≡ words.refusal_name refusal }
    ensures short { length result.now ≤ 16 }
{
    match refusal {
        Refusal::NoBand => b"NoBand",
        Refusal::TooLong => b"TooLong",
        Refusal::PastEnd => b"PastEnd",
        Refusal::Passed => b"Passed",
        Refusal::Taken { .. } => b"Taken",
        Refusal::DutyFull { .. } => b"DutyFull",
        Refusal::Full => b"Full",
        Refusal::TotalsFull => b"TotalsFull",
        Refusal::NoMemory => b"NoMemory",
    }
}

/// Adds a space and the words of a refusal.
pub fn add_refusal(text: &mut TextLine, refusal: Refusal)
    requires { length text.old + 64 ≤ 1024 }
    ensures text { text.new ≡ text.old ++ (32 ∷ spaced (refusal_words refusal)) }
    ensures len { length text.new ≤ length text.old + 64 }
{
    add_word(text, refusal_name(refusal));
    match refusal {
        Refusal::Taken { start } => add_number(text, start),
        Refusal::DutyFull { band, from, spent } => {
            add_band(text, band);
            add_number(text, from);
            add_number(text, spent);
        }
        _ => {}
    }
}

/// Adds a space and why nothing was cancelled.
pub fn add_fault(text: &mut TextLine, fault: CancelFault)
    requires { length text.old + 8 ≤ 1024 }
    ensures text { text.new ≡ text.old ++ (32 ∷ fault_word fault) }
    ensures len { length text.new ≤ length text.old + 8 }
{
    match fault {
        CancelFault::Begun => add_word(text, b"Begun"),
        CancelFault::NotHere => add_word(text, b"NotHere"),
    }
}

/// Adds a word, a space and a number.
pub fn add_numbered(text: &mut TextLine, word: &[u8], number: u64)
    requires { length text.old + length word.now + 21 ≤ 1024 }
    ensures text { text.new ≡ text.old ++ (word.now ++ (32 ∷ decimal number)) }
    ensures len { length text.new ≤ length text.old + length word.now + 21 }
{
    text.text(word);
    add_number(text, number);
}

/// Adds a space and the letter of a sub-band.
pub fn add_band(text: &mut TextLine, band: Band)
    requires { length text.old + 2 ≤ 1024 }
    ensures text { text.new ≡ text.old ++ (32 ∷ band_word band) }
    ensures len { length text.new ≡ length text.old + 2 }
{
    match band {
        Band::K => add_word(text, b"K"),
        Band::L => add_word(text, b"L"),
        Band::M => add_word(text, b"M"),
        Band::N => add_word(text, b"N"),
        Band::P => add_word(text, b"P"),
        Band::Q => add_word(text, b"Q"),
    }
}
