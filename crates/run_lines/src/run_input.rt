// The two parts of the input of `airbook run`, and the lines of the second.
ghost use Rattle.std.specs.Prelude.{◌≡◌, ◌<◌, ◌∷◌, ◌++◌, [], length, slice_index, MatchOption, IfSome, IfNone, IfOk};
ghost use Rattle.std.specs.Prelude.{IfErr};
ghost use Rattle.std.specs.Io.KnownBytes.{Consumes};
ghost use Rattle.text_words.specs.Fault.{CountsReads};
ghost use Rattle.std.specs.Str.Lines.{lines, strip_carriage_return};
ghost use Rattle.run_lines.specs.RunInput.{NoFeedBefore, raw_lines, is_rule, settings_part, event_part, KeepsInputLimit};
ghost use Rattle.run_lines.specs.RunInput.{IsInputFault, without_end};

use memchr::memchr;
use std::alloc::Global;
use text_lines::{ByteIn, INPUT_LIMIT, READ_SIZE};
use text_words::TextFault;

/// The place of the first line feed, if there is one.
pub(crate) fn feed_at(bytes: &[u8]) -> Option<usize>
    ensures none { IfNone result (NoFeedBefore (length bytes.now) bytes.now) }
    ensures before { IfSome result (λ end. NoFeedBefore end bytes.now) }
    ensures within { IfSome result (λ end. end < length bytes.now) }
    ensures feed { IfSome result (λ end. slice_index bytes.now end ≡ 10) }
{
    memchr(b'\n', bytes)
}

/// The first line with its end, and what follows it; None where there are no bytes.
fn first_line(bytes: &[u8]) -> Option<(&[u8], &[u8])>
    ensures bare { MatchOption result (lines bytes.now ≡ [])
        (λ parts. lines bytes.now ≡ without_end parts.0.now ∷ lines parts.1.now) }
    ensures line { MatchOption result (bytes.now ≡ []) (λ parts. raw_lines bytes.now ≡ parts.0.now ∷ raw_lines parts.1.now) }
    ensures whole { IfSome result (λ parts. bytes.now ≡ parts.0.now ++ parts.1.now) }
    ensures some { IfSome result (λ parts. 0 < length parts.0.now) }
{
    match feed_at(bytes) {
        Some(end) => Some((&bytes[..end + 1], &bytes[end + 1..])),
        None if bytes.is_empty() => None,
        None => Some((bytes, &[])),
    }
}

/// Whether a line parts settings from events.
fn is_rule(line: &[u8]) -> bool
    ensures { result ≡ is_rule line.now }
{
    without_end(line) == b"---".as_slice()
}

/// The text of the settings, and that of the event lines.
pub fn parts_of(input: &[u8]) -> (&[u8], &[u8])
    ensures settings { result.0.now ≡ settings_part input.now }
    ensures events { result.1.now ≡ event_part input.now }
{
    let mut taken = 0;
    while let Some((line, rest)) = first_line(&input[taken..]) {
        if is_rule(line) {
            return (&input[..taken], rest);
        }
        taken += line.len();
    }
    (input, &[])
}

/// The first line without its end, and what follows it; None where there are no bytes.
pub(crate) fn next_line(bytes: &[u8]) -> Option<(&[u8], &[u8])>
    ensures line { MatchOption result (lines bytes.now ≡ []) (λ parts. lines bytes.now ≡ parts.0.now ∷ lines parts.1.now) }
    ensures shorter { IfSome result (λ parts. length parts.1.now < length bytes.now) }
{
    let (line, rest) = first_line(bytes)?;
    Some((without_end(line), rest))
}

/// A line without the line feed that ends it, if one does, and without the carriage return before that.
fn without_end(line: &[u8]) -> &[u8]
    ensures { result.now ≡ without_end line.now }
{
    match line {
        [rest @ .., b'\n'] => without_return(rest),
        _ => line,
    }
}

/// A line without the carriage return at its end, if it has one.
fn without_return(line: &[u8]) -> &[u8]
    ensures { result.now ≡ strip_carriage_return line.now }
{
    match line {
        [rest @ .., b'\r'] => rest,
        _ => line,
    }
}

/// All bytes of an input. `Read`: a call of the reader failed; `TooMuch`: there are more than 2^28 bytes; `NoMemory`: a
/// growth was refused.
pub fn read_all<R: ByteIn>(alloc: Global, reader: &mut R) -> Result<Vec<u8>, TextFault>
    ensures ok { IfOk result (λ bytes. IfSome (R.left reader.old) (λ all. bytes.items ≡ all)) }
    ensures consumed { IfOk result (λ bytes. Consumes (R.left reader.old) (R.left reader.new) bytes.items) }
    ensures limit { KeepsInputLimit (R.left reader.old) result }
    ensures fault { IfErr result IsInputFault }
    ensures read { CountsReads (R.failed_calls reader.old) (R.failed_calls reader.new) result }
{
    let mut bytes = Vec::new(alloc);
    let mut block = [0; READ_SIZE];
    loop {
        match reader.read(&mut block) {
            Err(_) => return Err(TextFault::Read),
            Ok(0) => return Ok(bytes),
            Ok(count) if bytes.len() + count > INPUT_LIMIT as usize => {
                return Err(TextFault::TooMuch);
            }
            Ok(count) => {
                if bytes.extend_from_slice(&block[..count]).is_err() {
                    return Err(TextFault::NoMemory);
                }
            }
        }
    }
}
