// The text of `airbook listen`: datagrams in, each answered at once, and a report out.
ghost use Rattle.std.specs.Prelude.{◌≡◌, IfOk, IfErr, codes};
ghost use Rattle.text_words.specs.Fault.{CountsWrites};
ghost use Rattle.run_server.specs.WorkersRun.{IsStaffed};
ghost use Rattle.airbook_text.specs.Listening.{Listens, ListensInPart, IsWithinLimit, IsRefusedAs, IsListenFault};

use crate::listener::Listener;
use crate::source::Source;
use server_core::Settings;
use server_workers::{Blank, Ledger, MAX_WORKERS, PARTS};
use std::alloc::Global;
use std::hash::BuildHasher;
use std::marker::Brand;
use std::sync::Wait;
use std::thread::Threads;
use text_lines::ByteOut;
use text_words::TextFault;

/// The greatest number of turns.
pub const TURN_LIMIT: u32 = 1_000_000;

/// Listens for so many turns: makes one receive in each, does what the datagram asks for with so many workers for the uplinks
/// that one `pass` closes, and writes the answer before the next receive; at the end a report. It answers whether a line of
/// the output begins with `no` or `bad`. Devices and uplinks are looked up through this hasher and a clone of it.
///
/// `Settings`: there are no workers or more than 16, by the name Workers; no turns or more than 1,000,000, by the name Turns;
/// each before anything is received. Or the books don't go with the answers, by the name of `Station::finish`'s fault; then
/// all answers were written, and no report. `NoMemory`: a growth was refused; the answers of the turns before were written,
/// and nothing behind them. `Write`: a call of the writer failed; the answers of the turns before were written, and a front of
/// the last turn's answer or of the report.
pub fn listen_text<
    T: Threads + Wait + Sync,
    H: BuildHasher + Clone + Drop + Send + Sync,
    S: Source,
    W: ByteOut,
>(
    rt: &T,
    alloc: Global,
    hasher: H,
    settings: &Settings<Global>,
    workers: u8,
    source: &mut S,
    turns: u32,
    writer: &mut W,
) -> Result<bool, TextFault>
where
    H::Hasher: Send + Sync,
    ensures ok { IfOk result (Listens turns settings.now (S.seen source.old) (S.seen source.new) (W.taken writer.old)
        (W.taken writer.new)) }
    ensures front { IsStaffed workers → IsWithinLimit turns → IfErr result (ListensInPart turns settings.now
        (S.seen source.old) (S.seen source.new) (W.taken writer.old) (W.taken writer.new)) }
    ensures fault { IsStaffed workers → IsWithinLimit turns → IfErr result IsListenFault }
    ensures workers { ¬ (IsStaffed workers)
        → IsRefusedAs (codes "Workers") result × (source.new ≡ source.old) × (writer.new ≡ writer.old) }
    ensures turns { IsStaffed workers → ¬ (IsWithinLimit turns)
        → IsRefusedAs (codes "Turns") result × (source.new ≡ source.old) × (writer.new ≡ writer.old) }
    ensures write { CountsWrites (W.failed_calls writer.old) (W.failed_calls writer.new) result }
{
    if workers == 0 || workers > MAX_WORKERS {
        return Err(TextFault::Settings("Workers"));
    }
    if turns == 0 || turns > TURN_LIMIT {
        return Err(TextFault::Settings("Turns"));
    }
    let blank = Blank::new(PARTS as u64);
    listen_with::<Brand, H, T, S, W>(
        rt, alloc, hasher, settings, workers, source, turns, writer, blank,
    )
}

/// Listens with a ledger of its own.
fn listen_with<
    B: Ledger + Send + Sync,
    H: BuildHasher + Clone + Drop + Send + Sync,
    T: Threads + Wait + Sync,
    S: Source,
    W: ByteOut,
>(
    rt: &T,
    alloc: Global,
    hasher: H,
    settings: &Settings<Global>,
    workers: u8,
    source: &mut S,
    turns: u32,
    writer: &mut W,
    blank: Blank,
) -> Result<bool, TextFault>
where
    H::Hasher: Send + Sync,
    requires name { blank.name ≡ B.name }
    requires parts { blank.parts ≡ B.parts }
    requires all { blank.parts ≡ PARTS }
    requires staffed { IsStaffed workers }
    requires turns { IsWithinLimit turns }
    ensures ok { IfOk result (Listens turns settings.now (S.seen source.old) (S.seen source.new) (W.taken writer.old)
        (W.taken writer.new)) }
    ensures front { IfErr result (ListensInPart turns settings.now (S.seen source.old) (S.seen source.new) (W.taken writer.old)
        (W.taken writer.new)) }
    ensures fault { IfErr result IsListenFault }
    ensures write { CountsWrites (W.failed_calls writer.old) (W.failed_calls writer.new) result }
{
    match Listener::<B, H>::new(alloc, hasher, settings, workers, blank) {
        Ok(listener) => listener.listen(rt, alloc, settings.devices(), source, turns, writer),
        Err(_) => Err(TextFault::NoMemory),
    }
}
