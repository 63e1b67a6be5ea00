// A run with workers: one thread answers the first events while another makes those behind them.
ghost use Rattle.std.specs.Prelude.{◌≡◌, ◌≢◌, ◌+◌, ◌^◌, ◌<◌, ◌++◌, [], length, IfOk, IfErr};
ghost use Rattle.std.specs.Str.Lines.{lines};
ghost use Rattle.run_lines.specs.RunEvents.{events_from, events_of};
ghost use Rattle.run_lines.specs.RunInput.{event_part};
ghost use Rattle.run_server.specs.FinishFaults.{IsPlayFault};
ghost use Rattle.run_server.specs.WorkersRun.{HasOpened, IsStaffed, run_state};
ghost use Rattle.airbook_text.specs.Played.{IsPlayed, IsPlayedApart};
ghost use Rattle.server_station.specs.Stations.{AreInOrder};
ghost use Rattle.airbook_text.specs.Ahead.{IsAhead};

use crate::given_events::given_back;
use run_lines::{events_from, first_quarter, parts_of};
use run_server::{Played, Shift};
use server_core::{Event, NoMemory, Settings};
use server_workers::{Blank, Ledger, PARTS};
use std::alloc::Global;
use std::hash::BuildHasher;
use std::sync::Wait;
use std::thread::{Threads, join};
use text_words::TextFault;

/// A line that tells of an uplink has no fewer bytes, so no more receipts come of a text than it has of these.
const LEAST_HEARD: usize = 32;

/// A shift that did what the first events ask for.
#[derive(Drop)]
struct Begun<B: Ledger, S: BuildHasher> {
    shift: Shift<B, S>,
    /// How many events these were.
    place: usize,
}

/// Does what the event lines of this input ask for at a station with these settings, with so many workers for the numbers that
/// a `pass` closes, and compares the books at the end. With two workers or more another thread makes events of the lines
/// behind the first quarter while that is answered.
pub(crate) fn play<
    B: Ledger + Send + Sync,
    S: BuildHasher + Clone + Drop + Send + Sync,
    R: Threads + Wait + Sync,
>(
    rt: &R,
    alloc: Global,
    hasher: S,
    settings: &Settings<Global>,
    input: Vec<u8>,
    workers: u8,
    blank: Blank,
) -> Result<Played, TextFault>
where
    S::Hasher: Send + Sync,
    requires name { blank.name ≡ B.name }
    requires parts { blank.parts ≡ B.parts }
    requires all { blank.parts ≡ PARTS }
    requires staffed { IsStaffed workers }
    ensures played { IfOk result (λ played. IsPlayed settings.now.gateways
        (events_of settings.now.devices (lines (event_part input.items))) played.entries.items played.totals.items
        played.books.items) }
    ensures apart { IfErr result (λ fault. fault ≢ TextFault.NoMemory → IsPlayedApart settings.now.gateways
        (events_of settings.now.devices (lines (event_part input.items))) fault) }
    ensures fault { IfErr result IsPlayFault }
{
    let (_, text) = parts_of(input.as_slice());
    let (begun, rest) = match opened_for::<B, S, R>(
        rt, alloc, hasher, settings, text, workers, blank,
    ) {
        Ok(made) => made,
        Err(_) => return Err(TextFault::NoMemory),
    };
    let _left = given_back(input);
    let Begun { shift, place } = begun;
    match shift.answer_all(rt, alloc, place, rest) {
        Ok(shift) => shift.close(alloc),
        Err(_) => Err(TextFault::NoMemory),
    }
}

/// A shift that did what the first lines of this text ask for, and the events of the lines behind them. With one worker, or a
/// text of fewer than 65,536 bytes, nothing was done and all events are left.
fn opened_for<
    B: Ledger + Send + Sync,
    S: BuildHasher + Clone + Drop + Send + Sync,
    R: Threads + Wait + Sync,
>(
    rt: &R,
    alloc: Global,
    hasher: S,
    settings: &Settings<Global>,
    text: &[u8],
    workers: u8,
    blank: Blank,
) -> Result<(Begun<B, S>, Vec<Event<Global>>), NoMemory>
where
    S::Hasher: Send + Sync,
    requires name { blank.name ≡ B.name }
    requires parts { blank.parts ≡ B.parts }
    requires all { blank.parts ≡ PARTS }
    requires staffed { IsStaffed workers }
    ensures workers { IfOk result (λ made. made.0.shift.workers ≡ workers) }
    ensures ahead { IfOk result (λ made. IsAhead settings.now.gateways (events_of settings.now.devices (lines text.now))
        made.0.shift.station.value made.0.place made.1.items
        (run_state made.0.shift.till made.0.shift.receipts made.0.shift.entries.items)) }
{
    let room = text.len() / LEAST_HEARD;
    match first_quarter(text) {
        Some((front, count, back)) if workers > 1 => {
            let shift = Shift::<B, S>::new(alloc, hasher, settings, workers, blank, room)?;
            let behind = 1 + count as u64;
            ahead_of(rt, alloc, shift, settings, front, behind, back)
        }
        _ => {
            // First, so that what is made beside them and freed lies behind nothing that stays, and leaves no hole.
            let events = events_from(alloc, settings.devices(), 1, text)?;
            let shift = Shift::<B, S>::new(alloc, hasher, settings, workers, blank, room)?;
            Ok((Begun { shift, place: 0 }, events))
        }
    }
}

/// The same by two threads, of a shift that was just opened: the calling one answers the lines of the front while another makes
/// events of those behind it, of which the first has this number.
fn ahead_of<B: Ledger + Send + Sync, S: BuildHasher + Drop + Send + Sync, R: Threads + Wait + Sync>(
    rt: &R,
    alloc: Global,
    shift: Shift<B, S>,
    settings: &Settings<Global>,
    front: &[u8],
    number: u64,
    back: &[u8],
) -> Result<(Begun<B, S>, Vec<Event<Global>>), NoMemory>
where
    S::Hasher: Send + Sync,
    requires in_order { AreInOrder settings.now.gateways shift.station.value }
    requires opened { HasOpened (run_state shift.till shift.receipts shift.entries.items) }
    requires few { number + length back.now < 2 ^ 64 }
    ensures workers { IfOk result (λ made. made.0.shift.workers ≡ shift.workers) }
    ensures ahead { IfOk result (λ made. IsAhead settings.now.gateways (events_of settings.now.devices (lines front.now)
        ++ events_from settings.now.devices number (lines back.now)) made.0.shift.station.value made.0.place made.1.items
        (run_state made.0.shift.till made.0.shift.receipts made.0.shift.entries.items)) }
{
    let devices = settings.devices();
    let made = move || -> Result<Vec<Event<Global>>, NoMemory>
        requires { number + length back.now < 2 ^ 64 }
        ensures { IfOk result (λ events. events.items ≡ events_from devices.entry.now number (lines back.entry.now)) }
    { events_from(alloc, devices, number, back) };
    let answered = move || -> Result<Begun<B, S>, NoMemory>
        requires { AreInOrder settings.now.gateways shift.station.value
            × HasOpened (run_state shift.till shift.receipts shift.entries.items) }
        ensures workers { IfOk result (λ begun. begun.shift.workers ≡ shift.workers) }
        ensures ahead { IfOk result (λ begun. IsAhead settings.entry.now.gateways
            (events_of settings.entry.now.devices (lines front.entry.now)) begun.shift.station.value begun.place []
            (run_state begun.shift.till begun.shift.receipts begun.shift.entries.items)) }
    { with_front(rt, alloc, shift, settings, front) };
    let (rest, begun) = join(rt, made, answered);
    let begun = begun?;
    Ok((begun, rest?))
}

/// A shift that was just opened, once it did what the lines of this text ask for.
fn with_front<
    B: Ledger + Send + Sync,
    S: BuildHasher + Drop + Send + Sync,
    R: Threads + Wait + Sync,
>(
    rt: &R,
    alloc: Global,
    shift: Shift<B, S>,
    settings: &Settings<Global>,
    front: &[u8],
) -> Result<Begun<B, S>, NoMemory>
where
    S::Hasher: Send + Sync,
    requires in_order { AreInOrder settings.now.gateways shift.station.value }
    requires opened { HasOpened (run_state shift.till shift.receipts shift.entries.items) }
    ensures workers { IfOk result (λ begun. begun.shift.workers ≡ shift.workers) }
    ensures ahead { IfOk result (λ begun. IsAhead settings.now.gateways (events_of settings.now.devices (lines front.now))
        begun.shift.station.value begun.place []
        (run_state begun.shift.till begun.shift.receipts begun.shift.entries.items)) }
{
    let events = events_from(alloc, settings.devices(), 1, front)?;
    let place = events.len();
    let shift = shift.answer_all(rt, alloc, 0, events)?;
    Ok(Begun { shift, place })
}
