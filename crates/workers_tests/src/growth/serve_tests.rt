// Workers who serve at a station.
ghost use Rattle.std.specs.Prelude.{◌≡◌, ◌<◌};

use crate::growth::ends::{Came, finish};
use crate::growth::stations::opened;
use crate::posts::settings_of;
use answer_ticket::{Ending, Outcome, Receipt};
use refusing_alloc::{
    MOST_GROWTHS, Refused, Refuser, Refusing, asked_of, is_as_asked, refuse, same,
};
use server_core::Settings;
use server_workers::{
    Blank, Ledger, NoGate, PARTS, ServeCause, ServeFault, Served, Station, Till, serve,
};
use std::alloc::{Allocator, Global};
use std::marker::Brand;
use std::sync::Wait;
use std::test::Fail;
use std::thread::Threads;
use worked_inputs::WorkedHasher;

/// How many workers serve, and which growths are refused.
type Trial = (u8, Refused);

/// The numbers of the uplinks, each of a device of its own.
const NUMBERS: [u64; 20] = [
    1, 2, 3, 4, 5, 6, 7, 8, 9, 10, 11, 12, 13, 14, 15, 16, 17, 18, 19, 20,
];

/// A bit for each of them.
const ALL: u64 = 0x1f_fffe;

/// The bit of a number.
fn bit_of(number: u64) -> u64 {
    if number < 64 { 1 << number } else { 0 }
}

/// What became of the numbers: a bit for each one told of, how many were told of, and how many answers were booked.
type Counted = (u64, usize, usize);

fn counted(outcomes: &[Outcome], skipped: &[u64]) -> Counted {
    let mut answered = 0usize;
    let mut told = 0u64;
    for outcome in outcomes {
        if let Ending::Answered { .. } = outcome.result {
            answered = answered.saturating_add(1);
        }
        told |= bit_of(outcome.number);
    }
    for number in skipped {
        told |= bit_of(*number);
    }
    (told, outcomes.len().saturating_add(skipped.len()), answered)
}

/// What some receipts are on air for.
fn airtime_of<A: Allocator>(receipts: &[Receipt<A>]) -> u64 {
    let mut airtime = 0u64;
    for receipt in receipts {
        airtime = airtime.saturating_add(receipt.reservation.airtime());
    }
    airtime
}

/// What those who served came to: what became of the numbers, what their receipts are on air for, and what the station came to,
/// if it could be finished.
type Ended = (Counted, u64, Option<Came>);

/// Finishes a station with the till of those who served and with their receipts, which account for all that was booked.
fn ended<B: Ledger, A: Allocator + Copy>(
    memory: A,
    station: Station<B, WorkedHasher, A>,
    served: Served<B, A>,
) -> Ended {
    let counted = counted(&served.outcomes, &served.skipped);
    let airtime = airtime_of(&served.receipts);
    let mut tills = Vec::new(memory);
    // A till that found no room is missing when the station is finished.
    let _ = tills.push(served.till);
    let came = finish(memory, station, tills, &served.receipts).ok();
    (counted, airtime, came)
}

/// Whether those who could not serve were told so, with all parts of the till that was handed back, and what one worker then does
/// with memory.
fn served_again<B, A: Allocator + Copy + Send + Sync, R: Threads + Wait + Sync>(
    rt: &R,
    memory: A,
    station: &Station<B, WorkedHasher, A>,
    fault: ServeFault<B>,
) -> (bool, Option<Served<B, A>>)
where
    B: Ledger + Send + Sync,
    requires { 16 < fault.till.parts }
{
    let ServeFault { cause, till } = fault;
    let is_told = (till.parts(), cause) == (PARTS, ServeCause::NoMemory);
    (
        is_told,
        serve(rt, memory, station, &NUMBERS, till, 1, &NoGate).ok(),
    )
}

/// So many workers serve with growths refused: whether the first of them was asked for. Nobody could serve then, or some uplinks
/// weren't answered; one growth is wanted for one uplink alone.
fn is_served<B, A: Allocator + Copy + Send + Sync, R: Threads + Wait + Sync>(
    rt: &R,
    alloc: &Refuser,
    own: A,
    station: Station<B, WorkedHasher, A>,
    till: Till<B>,
    trial: Trial,
) -> Result<bool, Fail>
where
    B: Ledger + Send + Sync,
    requires { 16 < till.parts }
{
    refuse(alloc, trial.1);
    let first = serve(rt, own, &station, &NUMBERS, till, trial.0, &NoGate);
    let asked = asked_of(alloc);
    let could_serve = first.is_ok();
    let (is_told, served) = match first {
        Ok(served) => (true, Some(served)),
        Err(fault) => served_again(rt, own, &station, fault),
    };
    let served = served.ok_or("somebody serves")?;
    is_accounted_for(
        trial,
        asked,
        could_serve,
        is_told,
        ended(own, station, served),
    )
}

/// Whether an uplink wasn't answered at once, where so many growths were asked for: only where the first refused one was, or
/// with it all that follow. Each number has an outcome or was skipped.
fn is_accounted_for(
    trial: Trial,
    asked: u64,
    could_serve: bool,
    is_told: bool,
    ended: Ended,
) -> Result<bool, Fail> {
    let (_, (number, and_after)) = trial;
    let ((told, count, answered), airtime, came) = ended;
    let (booked, totals, ..) = came.ok_or("all is accounted for")?;
    same(
        (is_told, told, count, airtime, totals),
        (true, ALL, 20, booked, booked),
    )?;
    let least = match (could_serve, and_after) {
        (false, _) => 20,
        (true, false) => 19,
        (true, true) => 0,
    };
    same(answered.max(least), answered)?;
    is_as_asked(asked, number, !could_serve || answered < 20, true)
}

/// The same at a new station of these settings, which heard the uplinks.
fn is_refused<B, A: Allocator + Copy + Send + Sync, R: Threads + Wait + Sync>(
    rt: &R,
    memory: Global,
    alloc: &Refuser,
    own: A,
    settings: &Settings<Global>,
    blank: Blank,
    trial: Trial,
) -> Result<bool, Fail>
where
    B: Ledger + Send + Sync,
    requires name { blank.name ≡ B.name }
    requires parts { blank.parts ≡ B.parts }
    requires all { blank.parts ≡ PARTS }
{
    let (station, till) = opened::<B, _, _>(rt, memory, own, settings, blank, 20)?;
    is_served(rt, alloc, own, station, till, trial)
}

/// The run of so many workers takes so many growths; each is refused once, alone or with all after it.
fn takes<R: Threads + Wait + Sync>(
    rt: &R,
    memory: Global,
    alloc: &Refuser,
    settings: &Settings<Global>,
    trials: (u8, bool),
    growths: u64,
) -> Result<(), Fail> {
    let (workers, and_after) = trials;
    for number in 1..MOST_GROWTHS {
        let blank = Blank::new(PARTS as u64);
        let trial = (workers, (number, and_after));
        if !is_refused::<Brand, _, _>(rt, memory, alloc, alloc, settings, blank, trial)? {
            return same(number - 1, growths);
        }
    }
    Err(Fail::from("no end of growths"))
}

/// How many workers serve, whether all growths after the first refused one are refused too, and how many growths it takes.
const TRIALS: [((u8, bool), u64); 4] = [
    ((1, false), 85),
    ((1, true), 85),
    ((2, false), 99),
    ((2, true), 99),
];

// Refuses `server_station` `Station::answer` (a worker calls it): as `take`, and for each try as `try_once`.
// Refuses `server_workers` `work` (the workers work by the same function): as `Station::answer`, for each number.
// Refuses `server_workers` `serve` (one worker and two, with one allocation refused and with all that follow it): by
// size: before anything else five lists for one worker, and for several a channel, the lists of workers and of their
// lists, and five for each and for all; then what `take` and `try_on` take for each number; 85 for one worker and 20
// numbers, 99 for two.
#[test]
fn workers_serve(rt: HostRuntime) -> Result<(), Fail> {
    let settings = settings_of(rt.alloc(), &[1, 2], 20)?;
    let alloc = &Refusing::new(rt.alloc());
    for (trials, growths) in TRIALS {
        takes(&rt, rt.alloc(), alloc, &settings, trials, growths)?;
    }
    Ok(())
}
