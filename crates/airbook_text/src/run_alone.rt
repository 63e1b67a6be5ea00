// A run on one thread: events in, the answers and a report out.
ghost use Rattle.std.specs.Prelude.{◌≡◌, ◌≢◌, map, Err, IfOk, IfErr, OnOk, OnErr};
ghost use Rattle.std.specs.Io.KnownBytes.{Appends};
ghost use Rattle.text_lines.specs.Calls.{CountsFailure};
ghost use Rattle.text_lines.specs.Line.{text_of};
ghost use Rattle.text_lines.specs.Writing.{WritesFront};
ghost use Rattle.text_words.specs.Words.{has_refusal};
ghost use Rattle.server_core.specs.Entries.{gateway_of};
ghost use Rattle.text_words.specs.Fault.{CountsWrites};
ghost use Rattle.run_lines.specs.ReplayText.{replay_lines};
ghost use Rattle.airbook_text.specs.RunOutput.{lines_for, IsTellFault};

use run_lines::write_lines;
use server_core::{Answers, Event, NoMemory, Settings, answer_events};
use std::alloc::Global;
use std::hash::BuildHasher;
use text_lines::{ByteOut, CallFailed};
use text_words::TextFault;

/// Does what these events ask for on one thread, and writes the answers and the report. `Write`: a call of the writer
/// failed, and a front of them was written; `NoMemory`: nothing was written.
pub(crate) fn tell_alone<S: BuildHasher + Clone, W: ByteOut>(
    alloc: Global,
    hasher: S,
    settings: &Settings<Global>,
    events: Vec<Event<Global>>,
    writer: &mut W,
) -> Result<bool, TextFault>
    ensures ok { OnOk result (Appends (W.taken writer.old) (W.taken writer.new)
        (text_of (lines_for {A = Global} settings.now events.items))) }
    ensures told { IfOk result (λ refused. refused ≡ has_refusal
        (lines_for {A = Global} settings.now events.items)) }
    ensures front { result ≡ Err TextFault.Write → WritesFront (W.taken writer.old) (W.taken writer.new)
        (text_of (lines_for {A = Global} settings.now events.items)) }
    ensures untouched { IfErr result (λ fault. fault ≢ TextFault.Write → writer.new ≡ writer.old) }
    ensures fault { IfErr result IsTellFault }
    ensures write { CountsWrites (W.failed_calls writer.old) (W.failed_calls writer.new) result }
{
    let answers = match answers_to(alloc, hasher, settings, events) {
        Err(_) => return Err(TextFault::NoMemory),
        Ok(answers) => answers,
    };
    match write_answers(&answers, writer) {
        Err(_) => Err(TextFault::Write),
        Ok(refused) => Ok(refused),
    }
}

/// What one thread tells of these events.
fn answers_to<S: BuildHasher + Clone>(
    alloc: Global,
    hasher: S,
    settings: &Settings<Global>,
    events: Vec<Event<Global>>,
) -> Result<Answers<Global>, NoMemory>
    ensures { IfOk result (λ r. replay_lines r.outcomes.items (map gateway_of r.books.items)
        ≡ lines_for {A = Global} settings.now events.items) }
{
    answer_events(alloc, hasher, settings, events)
}

/// Writes the lines of what was told, and answers whether one of them begins with `no` or `bad`. After an Err a front of them
/// was written.
fn write_answers<W: ByteOut>(answers: &Answers<Global>, writer: &mut W) -> Result<bool, CallFailed>
    ensures ok { OnOk result (Appends (W.taken writer.old) (W.taken writer.new)
        (text_of (replay_lines answers.now.outcomes.items (map gateway_of answers.now.books.items)))) }
    ensures told { IfOk result (λ refused. refused ≡ has_refusal
        (replay_lines answers.now.outcomes.items (map gateway_of answers.now.books.items))) }
    ensures err { OnErr result (WritesFront (W.taken writer.old) (W.taken writer.new)
        (text_of (replay_lines answers.now.outcomes.items (map gateway_of answers.now.books.items)))) }
    ensures failed { CountsFailure (W.failed_calls writer.old) (W.failed_calls writer.new) result }
{
    write_lines(
        answers.outcomes.as_slice(),
        answers.books.as_slice(),
        writer,
    )
}
