// What a line of input says.
ghost use Rattle.std.specs.Prelude.{◌≡◌, map};
ghost use Rattle.book_texts.specs.Planning.{are_plan, opens_plan};
ghost use Rattle.book_texts.specs.Said.{ask_words, book_command, cancel_command, tick_command, earliest_command};
ghost use Rattle.book_texts.specs.Said.{command_of, said};

use gateway_book::Ask;
use radio_airtime::DataRate;
use text_lines::{Words, is_passed_over, is_too_long, is_word, number_u8, number_u32, number_u64};

/// What is asked of a gateway's book.
#[derive(Clone, Copy)]
pub(crate) enum Command {
    /// `book NUMBER START FREQ DR LEN`: reserve a transmission.
    Book(Ask),
    /// `cancel NUMBER START`: take the transmission out, if it has not begun.
    Cancel { number: u64, start: u64 },
    /// `tick NOW`: the gateway's clock has come to `now`.
    Tick { now: u64 },
    /// `earliest NUMBER NOT_BEFORE LAST FREQ DR LEN`: when the transmission could begin, from the ask's own start to `last`.
    Earliest { ask: Ask, last: u64 },
}

/// What a line of input says.
#[derive(Clone, Copy)]
pub(crate) enum Said {
    /// Nothing: the line is passed over.
    Nothing,
    /// A command.
    Order(Command),
    /// Something else: the line is answered as malformed.
    Malformed,
}

/// What a line of input says, its end left out.
pub(crate) fn read_line(line: &[u8]) -> Said
    ensures { result ≡ said line.now }
{
    if is_passed_over(line) {
        return Said::Nothing;
    }
    if is_too_long(line) {
        return Said::Malformed;
    }
    match read_command(Words::of(line).as_slice()) {
        Some(command) => Said::Order(command),
        None => Said::Malformed,
    }
}

/// Whether a line opens a plan: its one word is `plan`.
pub(crate) fn opens_plan(line: &[u8]) -> bool
    ensures { result ≡ opens_plan line.now }
{
    if is_too_long(line) {
        return false;
    }
    are_plan(Words::of(line).as_slice())
}

/// Whether the words are the one word `plan`.
fn are_plan(words: &[&[u8]]) -> bool
    ensures { result ≡ are_plan (map (λ word. word.now) words.now) }
{
    match words {
        [name] => is_word(name, b"plan"),
        _ => false,
    }
}

/// The command that the words are, if they are one.
fn read_command(words: &[&[u8]]) -> Option<Command>
    ensures { result ≡ command_of (map (λ word. word.now) words.now) }
{
    match words {
        [name, rest @ ..] if is_word(name, b"book") => read_book(rest),
        [name, rest @ ..] if is_word(name, b"cancel") => read_cancel(rest),
        [name, rest @ ..] if is_word(name, b"tick") => read_tick(rest),
        [name, rest @ ..] if is_word(name, b"earliest") => read_earliest(rest),
        _ => None,
    }
}

/// The booking whose words follow `book`.
fn read_book(words: &[&[u8]]) -> Option<Command>
    ensures { result ≡ book_command (map (λ word. word.now) words.now) }
{
    let [number, start, freq_hz, rate, len] = words else {
        return None;
    };
    let ask = read_ask(number, start, freq_hz, rate, len)?;
    Some(Command::Book(ask))
}

/// What is asked for, by its words.
fn read_ask(number: &[u8], start: &[u8], freq_hz: &[u8], rate: &[u8], len: &[u8]) -> Option<Ask>
    ensures { result ≡ ask_words number.now start.now freq_hz.now rate.now len.now }
{
    Some(Ask {
        number: number_u64(number)?,
        start: number_u64(start)?,
        freq_hz: number_u32(freq_hz)?,
        rate: DataRate::from_number(number_u8(rate)?)?,
        len: number_u8(len)?,
    })
}

/// The cancellation whose words follow `cancel`.
fn read_cancel(words: &[&[u8]]) -> Option<Command>
    ensures { result ≡ cancel_command (map (λ word. word.now) words.now) }
{
    let [number, start] = words else {
        return None;
    };
    Some(Command::Cancel {
        number: number_u64(number)?,
        start: number_u64(start)?,
    })
}

/// The moment whose word follows `tick`.
fn read_tick(words: &[&[u8]]) -> Option<Command>
    ensures { result ≡ tick_command (map (λ word. word.now) words.now) }
{
    let [now] = words else {
        return None;
    };
    Some(Command::Tick {
        now: number_u64(now)?,
    })
}

/// The question whose words follow `earliest`.
fn read_earliest(words: &[&[u8]]) -> Option<Command>
    ensures { result ≡ earliest_command (map (λ word. word.now) words.now) }
{
    let [number, not_before, last, freq_hz, rate, len] = words else {
        return None;
    };
    let ask = read_ask(number, not_before, freq_hz, rate, len)?;
    Some(Command::Earliest {
        ask,
        last: number_u64(last)?,
    })
}
