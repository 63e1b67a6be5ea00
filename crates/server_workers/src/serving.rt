// Workers share out the numbers of a station.
ghost use Rattle.std.specs.Prelude.{◌≡◌, ◌≢◌, ◌+◌, ◌-◌, ◌*◌, ◌<◌, ◌≤◌, ◌↔◌, All, IsErrAnd, IfOk, IfErr, OnOk, OnErr, length, ⊤};
ghost use Rattle.std.specs.Prelude.{vec_len, vec_capacity};
ghost use Rattle.server_workers.specs.Works.{outcomes_airtime};
ghost use Rattle.server_workers.specs.Alone.{IsServedAlone};
ghost use Rattle.server_workers.specs.Counts.{WereAsked};
ghost use Rattle.server_workers.specs.Filing.{AreEmptyFor};
ghost use Rattle.server_workers.specs.Served.{IsServed};
ghost use Rattle.server_workers.specs.Serving.{IsOutside, IsSortedByNumber};

use crate::alone::serve_alone;
use crate::filed::Filed;
use crate::member::{Member, Numbers, Room};
use crate::served::{ServeCause, ServeFault, Served};
use crate::summing::summed_up;
use crate::{Gate, Ledger, PARTS, Station, Till, Worked};
use std::alloc::{AllocError, Allocator};
use std::hash::BuildHasher;
use std::marker::Brand;
use std::sync::Wait;
use std::thread::{Threads, scope, scope_env};

/// The greatest number of workers.
pub const MAX_WORKERS: u8 = 16;

/// What a crew starts with.
#[derive(Drop)]
struct Outfit<K: Room, B: Ledger, A: Allocator> {
    /// What it works at.
    numbers: Numbers<K, A>,
    /// Lists for each worker.
    lists: Vec<Filed<A>, A>,
    /// No worker yet, with room for all of them.
    crew: Vec<Member<K, B, A>, A>,
    /// Lists for what all workers do.
    all: Filed<A>,
}

/// Has some workers, 1 to 16, take, try and settle these numbers of a station, as `work` does, each with a part of a till
/// that has more than 16. One worker works on the calling thread and takes up each number once, in their order; several work on
/// threads of their own, of which some may not be started; the others do all the work. After a fault no number was
/// taken, and the till is handed back as it was given: `Workers` for another number of workers, `NoMemory` where a growth was
/// refused before any worker was started, `NoThread` where none could be started.
pub fn serve<
    R: Threads + Wait + Sync,
    B: Ledger + Send + Sync,
    S: BuildHasher + Send + Sync,
    A: Allocator + Copy + Send + Sync,
    G: Gate + Sync,
>(
    rt: &R,
    alloc: A,
    station: &Station<B, S, A>,
    numbers: &[u64],
    till: Till<B>,
    workers: u8,
    gate: &G,
) -> Result<Served<B, A>, ServeFault<B>>
where
    S::Hasher: Send + Sync,
    requires { 16 < till.parts }
    ensures till { IfOk result (λ served. served.till
        ≡ record till { amount = till.amount + outcomes_airtime served.outcomes.items }) }
    ensures turns { IfOk result (λ served. IsServed numbers.now served) }
    ensures alone { workers ≡ 1 → IfOk result (λ served. IsServedAlone numbers.now served) }
    ensures sorted { IfOk result (λ served. IsSortedByNumber served) }
    ensures ran { IfOk result (λ served. (1 ≤ served.ran) × (served.ran ≤ workers)) }
    ensures asked { IfOk result (λ served. WereAsked workers served.counts) }
    ensures back { IfErr result (λ fault. fault.till ≡ till) }
    ensures outside { IsErrAnd result (λ fault. fault.cause ≡ ServeCause.Workers) ↔ IsOutside workers }
{
    if workers == 0 || workers > MAX_WORKERS {
        return Err(fault(ServeCause::Workers, till));
    }
    if workers == 1 {
        return serve_alone(rt, alloc, station, numbers, till, gate);
    }
    serve_by::<Brand, R, B, S, A, G>(rt, alloc, station, numbers, till, workers, gate)
}

/// A fault that hands the till back.
pub(crate) fn fault<B: Ledger>(cause: ServeCause, till: Till<B>) -> ServeFault<B>
    ensures { result ≡ record { cause = cause; till = till } }
{
    ServeFault { cause, till }
}

/// The same, by up to 16 workers on threads of their own.
fn serve_by<
    K: Room + Send + Sync,
    R: Threads + Wait + Sync,
    B: Ledger + Send + Sync,
    S: BuildHasher + Send + Sync,
    A: Allocator + Copy + Send + Sync,
    G: Gate + Sync,
>(
    rt: &R,
    alloc: A,
    station: &Station<B, S, A>,
    numbers: &[u64],
    till: Till<B>,
    workers: u8,
    gate: &G,
) -> Result<Served<B, A>, ServeFault<B>>
where
    S::Hasher: Send + Sync,
    requires crew { (length numbers.now ≡ K.room) × (0 < workers) × (workers ≤ 16) }
    requires given { numbers.now ≡ K.numbers }
    requires parts { 16 < till.parts }
    ensures till { IfOk result (λ served. served.till
        ≡ record till { amount = till.amount + outcomes_airtime served.outcomes.items }) }
    ensures turns { IfOk result (λ served. IsServed numbers.now served) }
    ensures sorted { IfOk result (λ served. IsSortedByNumber served) }
    ensures ran { IfOk result (λ served. (1 ≤ served.ran) × (served.ran ≤ workers)) }
    ensures asked { IfOk result (λ served. WereAsked workers served.counts) }
    ensures back { IfErr result (λ fault. fault.till ≡ till) }
    ensures inside { IfErr result (λ fault. fault.cause ≢ ServeCause.Workers) }
{
    let outfit = fitted_out::<K, R, B, A>(rt, alloc, numbers, workers);
    serve_with(rt, station, outfit, till, gate)
}

/// The same, with what the crew needs, or want of memory for it.
fn serve_with<
    K: Room + Send + Sync,
    R: Threads + Wait + Sync,
    B: Ledger + Send + Sync,
    S: BuildHasher + Send + Sync,
    A: Allocator + Copy + Send + Sync,
    G: Gate + Sync,
>(
    rt: &R,
    station: &Station<B, S, A>,
    outfit: Result<Outfit<K, B, A>, AllocError>,
    mut till: Till<B>,
    gate: &G,
) -> Result<Served<B, A>, ServeFault<B>>
where
    S::Hasher: Send + Sync,
    requires lists { IfOk outfit (λ o. All (λ own. AreEmptyFor K.room own) o.lists.items) }
    requires few { IfOk outfit (λ o. vec_len o.lists ≤ 16) }
    requires nobody { IfOk outfit (λ o. vec_len o.crew ≡ 0) }
    requires places { IfOk outfit (λ o. vec_len o.lists ≤ vec_capacity o.crew) }
    requires all { IfOk outfit (λ o. AreEmptyFor (vec_len o.lists * K.room) o.all) }
    requires parts { 16 < till.parts }
    ensures till { IfOk result (λ served. served.till
        ≡ record till { amount = till.amount + outcomes_airtime served.outcomes.items }) }
    ensures turns { IfOk result (λ served. IsServed K.numbers served) }
    ensures sorted { IfOk result (λ served. IsSortedByNumber served) }
    ensures ran { IfOk outfit (λ o. IfOk result (λ served. (1 ≤ served.ran) × (served.ran ≤ vec_len o.lists))) }
    ensures asked { IfOk outfit (λ o. IfOk result (λ served. WereAsked (vec_len o.lists) served.counts)) }
    ensures back { IfErr result (λ fault. fault.till ≡ till) }
    ensures had { OnOk outfit (IfErr result (λ fault. fault.cause ≡ ServeCause.NoThread)) }
    ensures memory { OnErr outfit (IsErrAnd result (λ fault. fault.cause ≡ ServeCause.NoMemory)) }
{
    let Ok(outfit) = outfit else {
        return Err(fault(ServeCause::NoMemory, till));
    };
    let parts = till.parts();
    prove!(parts <= PARTS); // So they fit when they are joined again.
    let mut crew = hired(&mut till, outfit.lists, outfit.crew);
    run(rt, station, &outfit.numbers, gate, crew.as_mut_slice());
    summed_up(till, outfit.all, crew)
}

/// What a crew of so many workers needs for these numbers; all that is grown.
fn fitted_out<K: Room, R: Wait, B: Ledger, A: Allocator + Copy>(
    rt: &R,
    alloc: A,
    numbers: &[u64],
    workers: u8,
) -> Result<Outfit<K, B, A>, AllocError>
    requires few { workers ≤ 16 }
    requires all { length numbers.now ≡ K.room }
    requires given { numbers.now ≡ K.numbers }
    ensures lists { IfOk result (λ outfit. All (λ own. AreEmptyFor (length numbers.now) own) outfit.lists.items) }
    ensures count { IfOk result (λ outfit. vec_len outfit.lists ≡ workers) }
    ensures nobody { IfOk result (λ outfit. vec_len outfit.crew ≡ 0) }
    ensures places { IfOk result (λ outfit. vec_capacity outfit.crew ≡ workers) }
    ensures all { IfOk result (λ outfit. AreEmptyFor (workers * length numbers.now) outfit.all) }
{
    // A product that is too great is no room that a list could have.
    let room = usize::from(workers).saturating_mul(numbers.len());
    Ok(Outfit {
        numbers: Numbers::new(rt, alloc, numbers)?,
        lists: lists_for(alloc, workers, numbers.len())?,
        crew: Vec::with_capacity(alloc, usize::from(workers))?,
        all: Filed::with_room(alloc, room)?,
    })
}

/// Lists for each worker, with room for so many items.
fn lists_for<A: Allocator + Copy>(
    alloc: A,
    workers: u8,
    room: usize,
) -> Result<Vec<Filed<A>, A>, AllocError>
    ensures empty { IfOk result (λ lists. All (λ own. AreEmptyFor room own) lists.items) }
    ensures count { IfOk result (λ lists. vec_len lists ≡ workers) }
{
    let mut lists = Vec::with_capacity(alloc, usize::from(workers))?;
    for _worker in 0..workers {
        lists.push_reserved(Filed::with_room(alloc, room)?);
    }
    Ok(lists)
}

/// A worker for each of the lists, with a part of the till.
fn hired<K: Room, B: Ledger, A: Allocator>(
    till: &mut Till<B>,
    lists: Vec<Filed<A>, A>,
    mut crew: Vec<Member<K, B, A>, A>,
) -> Vec<Member<K, B, A>, A>
    requires empty { All (λ own. AreEmptyFor K.room own) lists.items }
    requires nobody { vec_len crew ≡ 0 }
    requires places { vec_len lists ≤ vec_capacity crew }
    requires parts { vec_len lists < till.old.parts }
    ensures till { till.new ≡ record till.old { parts = till.old.parts - vec_len lists } }
    ensures count { vec_len result ≡ vec_len lists }
{
    for own in lists {
        crew.push_reserved(Member::new(Worked::idle(till.split(), own)));
    }
    crew
}

/// Has a crew work on threads of their own, and waits for them. One that can't be started stays as it is.
fn run<
    K: Room + Send + Sync,
    R: Threads + Wait + Sync,
    B: Ledger + Send + Sync,
    S: BuildHasher + Send + Sync,
    A: Allocator + Copy + Send + Sync,
    G: Gate + Sync,
>(
    rt: &R,
    station: &Station<B, S, A>,
    numbers: &Numbers<K, A>,
    gate: &G,
    crew: &mut [Member<K, B, A>],
)
where
    S::Hasher: Send + Sync,
{
    scope(
        scope_env(),
        rt,
        // The clause keeps what the loop captures in sight, which has to be sent to a thread.
        |scope| -> ()
            ensures { ⊤ }
        {
            for member in crew.iter_mut() {
                let _started = scope.spawn(move || member.work(rt, station, numbers, gate));
            }
        },
    )
}
