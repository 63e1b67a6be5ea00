// The lines that answer events.
ghost use Rattle.std.specs.Prelude.{◌≡◌, ◌+◌, ◌≤◌, [], ◌∷◌, ◌++◌, length, decimal, codes};
ghost use Rattle.hex.specs.Hex.{encode_lower};
ghost use Rattle.run_lines.specs.Putting.{Puts};
ghost use Rattle.text_words.specs.Words.{spaced, is_refusal};
ghost use Rattle.run_lines.specs.EntryLine.{addr_digits, hex_digits, heard_words, candidate_words, line_text, text_but_frame};

use crate::entry_name::{hear_name, queue_name, take_name};
use hex::encode_to_slice;
use rx_windows::Candidate;
use server_core::{DeskHeard, Line};
use std::alloc::Allocator;
use text_lines::{ByteOut, CallFailed, TextLine, WriteBehind};
use text_words::{add_fault, add_number, add_numbered, add_word, refusal_name};

/// So many bytes are made hexadecimal digits at a time.
const BYTES_AT_ONCE: usize = 32;

/// Writes a line behind what is gathered, with its end. It is made in `text`, whatever stands there.
pub(crate) fn put_line<A: Allocator, W: ByteOut>(
    line: &Line<A>,
    text: &mut TextLine,
    output: &mut WriteBehind,
    writer: &mut W,
) -> Result<(), CallFailed>
    ensures { Puts (W.taken writer.old) (W.taken writer.new) (W.failed_calls writer.old) (W.failed_calls writer.new)
        (output.old ++ (line_text line.now ++ (10 ∷ []))) output.new result }
{
    match line {
        // It may be longer than a text line has room for.
        Line::Frame { number, bytes } => put_frame(*number, bytes.as_slice(), text, output, writer),
        _ => {
            write_but_frame(line, text);
            output.put(writer, text.as_slice())
        }
    }
}

/// Whether the line begins with `no` or `bad`.
pub(crate) fn is_refused<A: Allocator>(line: &Line<A>) -> bool
    ensures { result ≡ is_refusal (line_text line.now) }
{
    match line {
        Line::NotQueued(_)
        | Line::NotHeard(_)
        | Line::NotTaken { .. }
        | Line::Stray { .. }
        | Line::NotCancelled { .. }
        | Line::NotTicked
        | Line::Bad { .. } => true,
        Line::Queued { .. }
        | Line::Heard(_)
        | Line::Silent { .. }
        | Line::Send { .. }
        | Line::Frame { .. }
        | Line::Unanswered { .. }
        | Line::Cancelled { .. }
        | Line::Floor { .. } => false,
    }
}

/// Makes `text` the line with its end, and nothing of a frame.
fn write_but_frame<A: Allocator>(line: &Line<A>, text: &mut TextLine)
    ensures { text.new ≡ text_but_frame line.now }
{
    text.clear();
    match line {
        Line::Queued { addr, count } => add_queued(text, *addr, *count),
        Line::NotQueued(fault) => add_named(text, b"no queue", queue_name(*fault)),
        Line::Heard(heard) => add_heard(text, *heard),
        Line::NotHeard(fault) => add_named(text, b"no hear", hear_name(*fault)),
        Line::Silent { number } => add_numbered(text, b"silent", *number),
        Line::NotTaken { number, fault } => begin_named(text, b"no", *number, take_name(*fault)),
        Line::Send { number, candidate } => add_send(text, *number, candidate),
        Line::Frame { .. } => return,
        Line::Unanswered { number, refusal } => {
            begin_named(text, b"unanswered", *number, refusal_name(*refusal));
        }
        Line::Stray { number } => begin_named(text, b"no", *number, b"Stray"),
        Line::Cancelled { number, airtime } => begin_pair(text, b"cancelled", *number, *airtime),
        Line::NotCancelled { number, fault } => {
            add_numbered(text, b"no cancel", *number);
            add_fault(text, *fault);
        }
        Line::Floor { gateway, floor } => begin_pair(text, b"floor", *gateway as u64, *floor),
        Line::NotTicked => text.text(b"no tick UnknownGateway"),
        Line::Bad { line } => begin_named(text, b"bad", *line, b"Syntax"),
    }
    text.text(b"\n");
}

/// Makes the empty `text` some words and a name.
fn add_named(text: &mut TextLine, words: &[u8], name: &[u8])
    requires empty { text.old ≡ [] }
    requires short { length words.now ≤ 16 }
    requires short_name { length name.now ≤ 16 }
    ensures text { text.new ≡ words.now ++ (32 ∷ name.now) }
    ensures len { length text.new ≤ 40 }
{
    text.text(words);
    add_word(text, name);
}

/// Makes the empty `text` a word, a number and a name.
fn begin_named(text: &mut TextLine, word: &[u8], number: u64, name: &[u8])
    requires empty { text.old ≡ [] }
    requires short { length word.now ≤ 16 }
    requires short_name { length name.now ≤ 16 }
    ensures text { text.new ≡ word.now ++ (32 ∷ (decimal number ++ (32 ∷ name.now))) }
    ensures len { length text.new ≤ 60 }
{
    add_numbered(text, word, number);
    add_word(text, name);
}

/// Makes the empty `text` a word and two numbers.
fn begin_pair(text: &mut TextLine, word: &[u8], number: u64, other: u64)
    requires empty { text.old ≡ [] }
    requires short { length word.now ≤ 16 }
    ensures text { text.new ≡ word.now ++ (32 ∷ (decimal number ++ (32 ∷ decimal other))) }
    ensures len { length text.new ≤ 70 }
{
    add_numbered(text, word, number);
    add_number(text, other);
}

/// Makes the empty `text` where a copy of an uplink went.
fn add_heard(text: &mut TextLine, heard: DeskHeard)
    requires { text.old ≡ [] }
    ensures text { text.new ≡ spaced (heard_words heard) }
    ensures len { length text.new ≤ 100 }
{
    match heard {
        DeskHeard::Opened { n, repeat: false } => add_numbered(text, b"opened", n),
        DeskHeard::Opened { n, repeat: true } => {
            add_numbered(text, b"opened", n);
            add_word(text, b"repeat");
        }
        DeskHeard::Joined { n, copies } => {
            add_numbered(text, b"joined", n);
            add_number(text, copies as u64);
        }
    }
}

/// Makes the empty `text` what was booked.
fn add_send(text: &mut TextLine, number: u64, candidate: &Candidate)
    requires { text.old ≡ [] }
    ensures text { text.new ≡ spaced (codes "send" ∷ decimal number ∷ candidate_words candidate.now) }
    ensures len { length text.new ≤ 200 }
{
    add_numbered(text, b"send", number);
    add_number(text, candidate.gateway as u64);
    add_word(text, candidate.window.name().as_bytes());
    add_number(text, candidate.start);
    add_number(text, candidate.freq_hz as u64);
    add_number(text, candidate.rate.number() as u64);
    add_number(text, candidate.len as u64);
}

/// Makes the empty `text` how many payloads wait for the device with an address.
fn add_queued(text: &mut TextLine, addr: u32, count: usize)
    requires { text.old ≡ [] }
    ensures text { text.new ≡ spaced (codes "queued" ∷ addr_digits addr ∷ decimal count ∷ []) }
    ensures len { length text.new ≤ 60 }
{
    let mut digits = [0; 8];
    let _ = encode_to_slice(addr.to_be_bytes(), &mut digits);
    text.text(b"queued");
    add_word(text, &digits);
    add_number(text, count as u64);
}

/// Writes the line of a frame behind what is gathered, with its end.
fn put_frame<W: ByteOut>(
    number: u64,
    bytes: &[u8],
    text: &mut TextLine,
    output: &mut WriteBehind,
    writer: &mut W,
) -> Result<(), CallFailed>
    ensures { Puts (W.taken writer.old) (W.taken writer.new) (W.failed_calls writer.old) (W.failed_calls writer.new)
        (output.old ++ (spaced (codes "frame" ∷ decimal number ∷ hex_digits bytes.now ∷ []) ++ (10 ∷ []))) output.new result }
{
    put_frame_number(number, text, output, writer)?;
    put_hex(bytes, output, writer)?;
    output.put(writer, b"\n")
}

/// Writes `frame`, a number and a space behind what is gathered.
fn put_frame_number<W: ByteOut>(
    number: u64,
    text: &mut TextLine,
    output: &mut WriteBehind,
    writer: &mut W,
) -> Result<(), CallFailed>
    ensures { Puts (W.taken writer.old) (W.taken writer.new) (W.failed_calls writer.old) (W.failed_calls writer.new)
        (output.old ++ (codes "frame " ++ (decimal number ++ (32 ∷ [])))) output.new result }
{
    text.clear();
    add_numbered(text, b"frame", number);
    text.text(b" ");
    output.put(writer, text.as_slice())
}

/// Writes bytes as hexadecimal digits, or a dash for none, behind what is gathered.
fn put_hex<W: ByteOut>(
    bytes: &[u8],
    output: &mut WriteBehind,
    writer: &mut W,
) -> Result<(), CallFailed>
    ensures { Puts (W.taken writer.old) (W.taken writer.new) (W.failed_calls writer.old) (W.failed_calls writer.new)
        (output.old ++ hex_digits bytes.now) output.new result }
{
    match bytes {
        [] => output.put(writer, b"-"),
        _ => put_digits(bytes, output, writer),
    }
}

/// Writes two hexadecimal digits for each byte behind what is gathered.
fn put_digits<W: ByteOut>(
    bytes: &[u8],
    output: &mut WriteBehind,
    writer: &mut W,
) -> Result<(), CallFailed>
    ensures { Puts (W.taken writer.old) (W.taken writer.new) (W.failed_calls writer.old) (W.failed_calls writer.new)
        (output.old ++ encode_lower bytes.now) output.new result }
{
    for few in bytes.chunks(BYTES_AT_ONCE) {
        put_few(few, output, writer)?;
    }
    Ok(())
}

/// The same for at most so many bytes as are made digits at a time.
fn put_few<W: ByteOut>(
    bytes: &[u8],
    output: &mut WriteBehind,
    writer: &mut W,
) -> Result<(), CallFailed>
    requires { length bytes.now ≤ BYTES_AT_ONCE }
    ensures { Puts (W.taken writer.old) (W.taken writer.new) (W.failed_calls writer.old) (W.failed_calls writer.new)
        (output.old ++ encode_lower bytes.now) output.new result }
{
    let mut room = [0; 2 * BYTES_AT_ONCE];
    let digits = &mut room[..2 * bytes.len()];
    let _ = encode_to_slice(bytes, digits);
    output.put(writer, digits)
}
