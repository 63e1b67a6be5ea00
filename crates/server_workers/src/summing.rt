// What the workers did is put together.
ghost use Rattle.std.specs.Prelude.{◌≡◌, ◌+◌, ◌*◌, ◌≤◌, [], ◌∷◌, IfOk, IfErr, map, reverse, vec_len};
ghost use Rattle.air_ledger.specs.Tills.{all_parts};
ghost use Rattle.server_workers.specs.Works.{outcomes_airtime};
ghost use Rattle.server_workers.specs.Counts.{IsCountOf, WereAsked};
ghost use Rattle.server_workers.specs.Filing.{filing, put_behind, AreEmptyFor, HasRoomFor, IsReordered};
ghost use Rattle.server_workers.specs.Lists.{lists_of_served};
ghost use Rattle.server_workers.specs.Served.{IsServed};
ghost use Rattle.server_workers.specs.Serving.{IsSummedUp, IsSortedByNumber, added_up, all_filed, all_overrun, begun_count};

use crate::filed::Filed;
use crate::gathering::Gathered;
use crate::member::{Member, Room};
use crate::served::{ServeCause, ServeFault, Served};
use crate::serving::fault;
use crate::{Ledger, Till, Worked};
use std::alloc::Allocator;

/// How many workers a crew has, how many of them began, how many items their lists have together, and how many tries went on
/// at a gate that didn't let them in. It is made only in this file, by counting them where the lists are put together.
/// Clauses speak of it, and no code reads it.
#[derive(Clone, Copy)]
pub(crate) struct Counts {
    hired: usize,
    begun: u8,
    receipts: usize,
    outcomes: usize,
    skipped: usize,
    refused: usize,
    strays: usize,
    overrun: u64,
}

impl Counts {
    /// Counts what a crew of so many workers did.
    fn of<B: Ledger, A: Allocator>(hired: usize, all: &Gathered<B, A>) -> Self
        ensures hired { result.hired ≡ hired }
        ensures counted { IsCountOf result (vec_len all.now.filed.receipts) (vec_len all.now.filed.outcomes)
            (vec_len all.now.filed.skipped) (vec_len all.now.filed.refused) (vec_len all.now.filed.strays) all.now.overrun
            all.now.ran }
    {
        Counts {
            hired,
            begun: all.ran,
            receipts: all.filed.receipts.len(),
            outcomes: all.filed.outcomes.len(),
            skipped: all.filed.skipped.len(),
            refused: all.filed.refused.len(),
            strays: all.filed.strays.len(),
            overrun: all.overrun,
        }
    }
}

/// What a crew of so many workers did, in the order of the numbers. Takes no memory.
fn sorted<B: Ledger, A: Allocator>(hired: usize, mut all: Gathered<B, A>) -> Served<B, A>
    ensures till { result.till ≡ all.till }
    ensures same { IsReordered (filing all.filed) (filing (lists_of_served result)) }
    ensures sorted { IsSortedByNumber result }
    ensures overrun { result.overrun ≡ all.overrun }
    ensures ran { result.ran ≡ all.ran }
    ensures asked { WereAsked hired result.counts }
{
    all.filed.sort();
    let counts = Counts::of(hired, &all);
    let Gathered {
        till,
        filed: Filed {
            receipts,
            outcomes,
            skipped,
            refused,
            strays,
        },
        overrun,
        ran,
    } = all;
    Served {
        till,
        receipts,
        outcomes,
        skipped,
        refused,
        strays,
        overrun,
        ran,
        counts: Some(counts),
    }
}

/// What one worker did who worked alone: its lists are taken over as they stand, and sorted.
pub(crate) fn taken_over<B: Ledger, A: Allocator>(
    mut till: Till<B>,
    worked: Worked<B, A>,
) -> Served<B, A>
    requires { till.parts + 1 ≤ all_parts }
    ensures till { result.till ≡ record
        { parts = till.parts + 1; amount = till.amount + outcomes_airtime result.outcomes.items } }
    ensures all { IsSummedUp (worked ∷ []) result }
    ensures sorted { IsSortedByNumber result }
    ensures ran { result.ran ≡ 1 }
    ensures asked { WereAsked 1 result.counts }
{
    let (own, filed, overrun) = worked.parted();
    till.join(own);
    sorted(
        1,
        Gathered {
            till,
            filed,
            overrun,
            ran: 1,
        },
    )
}

/// What a crew did, or the fault of one of which nobody was started.
pub(crate) fn summed_up<K: Room, B: Ledger, A: Allocator>(
    till: Till<B>,
    filed: Filed<A>,
    crew: Vec<Member<K, B, A>, A>,
) -> Result<Served<B, A>, ServeFault<B>>
    requires room { AreEmptyFor (vec_len crew * K.room) filed }
    requires parts { till.parts + vec_len crew ≤ all_parts }
    requires few { vec_len crew ≤ 16 }
    ensures till { IfOk result (λ served. served.till ≡ record
        { parts = till.parts + vec_len crew; amount = till.amount + outcomes_airtime served.outcomes.items }) }
    ensures sorted { IfOk result (λ served. IsSortedByNumber served) }
    ensures ran { IfOk result (λ served. (1 ≤ served.ran) × (served.ran ≤ vec_len crew)) }
    ensures back { IfErr result (λ fault. fault.till ≡ record { parts = till.parts + vec_len crew; amount = till.amount }) }
    ensures nobody { IfErr result (λ fault. fault.cause ≡ ServeCause.NoThread) }
    ensures none_began { IfErr result (λ _. begun_count (map (λ m. m.has_begun) crew.items) ≡ 0) }
    ensures all { IfOk result (IsSummedUp (map (λ m. m.worked) crew.items)) }
    ensures turns { IfOk result (λ served. IsServed K.numbers served) }
    ensures asked { IfOk result (λ served. WereAsked (vec_len crew) served.counts) }
    ensures begun { IfOk result (λ served. served.ran ≡ begun_count (map (λ m. m.has_begun) crew.items)) }
{
    let hired = crew.len();
    let mut all = Gathered {
        till,
        filed,
        overrun: 0,
        ran: 0,
    };
    gather(&mut all, crew);
    if all.ran == 0 {
        return Err(fault(ServeCause::NoThread, all.till));
    }
    Ok(sorted(hired, all))
}

/// Adds what a crew did, the last worker's first, and counts those who have begun.
fn gather<K: Room, B: Ledger, A: Allocator>(
    all: &mut Gathered<B, A>,
    mut crew: Vec<Member<K, B, A>, A>,
)
    requires room { HasRoomFor (vec_len crew * K.room) all.old.filed }
    requires parts { all.old.till.parts + vec_len crew ≤ all_parts }
    requires few { all.old.ran + vec_len crew ≤ 16 }
    ensures filed { filing all.new.filed ≡ put_behind (filing all.old.filed) (all_filed (reverse (map (λ m. m.worked) crew.items))) }
    ensures overrun { all.new.overrun ≡ added_up all.old.overrun (all_overrun (map (λ m. m.worked) crew.items)) }
    ensures parts { all.new.till.parts ≡ all.old.till.parts + vec_len crew }
    ensures amount { all.new.till.amount + outcomes_airtime all.old.filed.outcomes.items
        ≡ all.old.till.amount + outcomes_airtime all.new.filed.outcomes.items }
    ensures ran { all.new.ran ≡ all.old.ran + begun_count (map (λ m. m.has_begun) crew.items) }
    ensures most { all.new.ran ≤ all.old.ran + vec_len crew }
    ensures nobody { all.new.ran ≡ 0 → all.new.filed.outcomes.items ≡ all.old.filed.outcomes.items }
{
    while let Some(member) = crew.pop() {
        let (has_begun, worked) = member.parted();
        all.take_in(worked);
        all.ran += u8::from(has_begun);
    }
}
