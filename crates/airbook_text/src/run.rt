// The text of `airbook run`: settings and events in, answers and a report out.
ghost use Rattle.std.specs.Prelude.{◌≡◌, ◌≢◌, ◌<◌, ◌≤◌, Err, IfOk, IfErr};
ghost use Rattle.std.specs.Str.Lines.{lines};
ghost use Rattle.text_words.specs.Fault.{CountsReads, CountsWrites};
ghost use Rattle.run_lines.specs.RunInput.{KeepsInputLimit, event_part};
ghost use Rattle.run_lines.specs.RunEvents.{events_of};
ghost use Rattle.run_server.specs.FinishFaults.{IsPlayFault};
ghost use Rattle.run_server.specs.WorkersRun.{IsStaffed};
ghost use Rattle.airbook_text.specs.Played.{IsPlayed, IsPlayedApart};
ghost use Rattle.airbook_text.specs.RunOutput.{Runs, RunsInPart, NamesFault, NamesFaultOfWorkers, NamesWorkers};
ghost use Rattle.airbook_text.specs.RunOutput.{IsWorkersRun, IsWorkersRunInPart, RunsByWorkers, RunsByWorkersInPart, NamesApart};

use crate::given_events::{given_events, given_settings};
use crate::run_ahead::play;
use crate::run_alone::tell_alone;
use run_lines::{read_all, write_lines_by_threads};
use run_server::Played;
use server_core::Settings;
use server_workers::{Blank, MAX_WORKERS, PARTS};
use std::alloc::Global;
use std::hash::BuildHasher;
use std::marker::Brand;
use std::sync::Wait;
use std::thread::Threads;
use text_lines::{ByteIn, ByteOut};
use text_words::TextFault;

/// Runs a server: reads settings up to the first line that is exactly `---`, and then events, does what they ask for, and
/// writes an answer to each event that has one, and at the end a report. It answers whether a line of the output begins
/// with `no` or `bad`. Devices and uplinks are looked up through this hasher and a clone of it.
///
/// With no worker one thread does all. With 1 to 16 at most so many answer the uplinks that one `pass` closes, at the same
/// time: one, and one more for each 32 uplinks; with two or more another thread makes events of the lines behind the first
/// quarter. Which gateway and window an answer gets then depends on the schedule. What the workers skip the calling thread
/// answers once more, and where none of them could work it answers all. The gateways' books are compared with the answers
/// before anything is written.
///
/// `Settings`: the settings are refused, by the name of their fault; there are more than 16 workers, by the name Workers,
/// and then nothing was read; or the books don't go with the answers, by the name of `Station::finish`'s fault. `Read`: a
/// call of the reader failed. `TooMuch`: the input has more than 2^28 bytes. `NoMemory`: a growth was refused. After each
/// of these nothing was written. `Write`: a call of the writer failed, and a front of the output was written.
pub fn run_text<
    T: Threads + Wait + Sync,
    S: BuildHasher + Clone + Drop + Send + Sync,
    R: ByteIn,
    W: ByteOut,
>(
    rt: &T,
    alloc: Global,
    hasher: S,
    workers: u8,
    reader: &mut R,
    writer: &mut W,
) -> Result<bool, TextFault>
where
    S::Hasher: Send + Sync,
    ensures ok { workers ≡ 0 → IfOk result (λ refused. Runs Global (R.left reader.old) (R.left reader.new) (W.taken writer.old)
        (W.taken writer.new) refused) }
    ensures front { workers ≡ 0 → result ≡ Err TextFault.Write
        → RunsInPart Global (R.left reader.old) (R.left reader.new) (W.taken writer.old) (W.taken writer.new) }
    ensures played { 0 < workers → IfOk result (RunsByWorkers (R.left reader.old) (R.left reader.new) (W.taken writer.old)
        (W.taken writer.new)) }
    ensures part { 0 < workers → result ≡ Err TextFault.Write
        → RunsByWorkersInPart (R.left reader.old) (R.left reader.new) (W.taken writer.old) (W.taken writer.new) }
    ensures settings { workers ≡ 0 → NamesFault (R.left reader.old) result }
    ensures named { 0 < workers → workers ≤ 16 → NamesFaultOfWorkers (R.left reader.old) result }
    ensures apart { 0 < workers → workers ≤ 16 → NamesApart (R.left reader.old) result }
    ensures workers { 16 < workers → NamesWorkers result × (reader.new ≡ reader.old) }
    ensures untouched { IfErr result (λ fault. fault ≢ TextFault.Write → writer.new ≡ writer.old) }
    ensures limit { workers ≤ 16 → KeepsInputLimit (R.left reader.old) result }
    ensures read { CountsReads (R.failed_calls reader.old) (R.failed_calls reader.new) result }
    ensures write { CountsWrites (W.failed_calls writer.old) (W.failed_calls writer.new) result }
{
    if workers > MAX_WORKERS {
        return Err(TextFault::Settings("Workers"));
    }
    let input = read_all(alloc, reader)?;
    let settings = given_settings(alloc, input.as_slice())?;
    if workers == 0 {
        let events = given_events(alloc, &settings, input)?;
        return tell_alone(alloc, hasher, &settings, events, writer);
    }
    tell_with_workers(rt, alloc, hasher, &settings, input, workers, writer)
}

/// Does what the events of this input ask for, with workers, and writes the answers and the report. After `Write` a front of
/// them was written, and after each other fault nothing.
fn tell_with_workers<
    T: Threads + Wait + Sync,
    S: BuildHasher + Clone + Drop + Send + Sync,
    W: ByteOut,
>(
    rt: &T,
    alloc: Global,
    hasher: S,
    settings: &Settings<Global>,
    input: Vec<u8>,
    workers: u8,
    writer: &mut W,
) -> Result<bool, TextFault>
where
    S::Hasher: Send + Sync,
    requires { IsStaffed workers }
    ensures played { IfOk result (λ refused. IsWorkersRun settings.now
        (events_of settings.now.devices (lines (event_part input.items))) (W.taken writer.old) (W.taken writer.new) refused) }
    ensures untouched { IfErr result (λ fault. fault ≢ TextFault.Write → writer.new ≡ writer.old) }
    ensures part { result ≡ Err TextFault.Write
        → IsWorkersRunInPart settings.now (events_of settings.now.devices (lines (event_part input.items)))
        (W.taken writer.old) (W.taken writer.new) }
    ensures fault { IfErr result (λ fault. fault ≢ TextFault.Write → IsPlayFault fault) }
    ensures apart { IfErr result (λ fault. fault ≢ TextFault.Write → fault ≢ TextFault.NoMemory
        → IsPlayedApart settings.now.gateways (events_of settings.now.devices (lines (event_part input.items))) fault) }
    ensures write { CountsWrites (W.failed_calls writer.old) (W.failed_calls writer.new) result }
{
    let played = match play_all(rt, alloc, hasher, settings, input, workers) {
        Err(fault) => return Err(fault),
        Ok(played) => played,
    };
    let (entries, books) = (played.entries.as_slice(), played.books.as_slice());
    match write_lines_by_threads(rt, alloc, entries, books, workers, writer) {
        Err(_) => Err(TextFault::Write),
        Ok(refused) => Ok(refused),
    }
}

/// Does what the events of this input ask for, with workers and a ledger of its own.
fn play_all<T: Threads + Wait + Sync, S: BuildHasher + Clone + Drop + Send + Sync>(
    rt: &T,
    alloc: Global,
    hasher: S,
    settings: &Settings<Global>,
    input: Vec<u8>,
    workers: u8,
) -> Result<Played, TextFault>
where
    S::Hasher: Send + Sync,
    requires { IsStaffed workers }
    ensures played { IfOk result (λ played. IsPlayed settings.now.gateways
        (events_of settings.now.devices (lines (event_part input.items))) played.entries.items played.totals.items
        played.books.items) }
    ensures apart { IfErr result (λ fault. fault ≢ TextFault.NoMemory → IsPlayedApart settings.now.gateways
        (events_of settings.now.devices (lines (event_part input.items))) fault) }
    ensures fault { IfErr result IsPlayFault }
{
    let blank = Blank::new(PARTS as u64);
    play::<Brand, S, T>(rt, alloc, hasher, settings, input, workers, blank)
}
