ghost use Rattle.std.specs.Prelude.{◌≡◌, ◌-◌, ◌<◌, [], Some, false, find};
ghost use Rattle.std.specs.Option.{option_copied, option_map_or};
ghost use Rattle.uplink_gather.specs.Gatherings.{is_due, numbered};
ghost use Rattle.uplink_gather.specs.Hearing.{place_by, has_gateway, join_answer};
ghost use Rattle.uplink_gather.specs.Indexed.{shown};

use crate::stored::Stored;
use crate::{HearFault, HeardCopy, Limits, Place};
use std::alloc::Allocator;

/// For how long after its opening copies join a gathering, in microseconds.
const JOIN_US: u64 = 200_000;

/// Up to how long after a gathering's opening its bytes open no other, in microseconds.
const LATE_US: u64 = 1_000_000;

/// The index of the gathering with this number, counted from 1.
pub(crate) fn index_of(n: u64) -> usize
    requires { 0 < n }
    ensures { result ≡ n - 1 }
{
    n as usize - 1
}

/// The gathering with this number.
pub(crate) fn numbered<A: Allocator>(stored: &[Stored<A>], n: u64) -> Option<&Stored<A>>
    ensures { option_copied result ≡ numbered n stored.now }
{
    if n == 0 {
        return None;
    }
    stored.get(index_of(n))
}

/// Where a copy goes by this gathering, the newest of its bytes, which has the number `n`.
pub(crate) fn place_by<A: Allocator>(
    gathering: &Stored<A>,
    n: u64,
    limits: &Limits,
    gateway: u16,
    arrived: u64,
) -> Result<Place, HearFault>
    ensures { result ≡ place_by limits.now gateway arrived (Some (n, shown [] gathering.now)) }
{
    let delay = arrived.saturating_sub(gathering.opened);
    if !gathering.closed && delay <= JOIN_US {
        return join_by(&gathering.copies, n, limits, gateway);
    }
    if delay <= LATE_US {
        return Err(HearFault::Late);
    }
    Ok(Place::Opens)
}

/// Whether a copy may join gathering `n`, which has these copies.
fn join_by(copies: &[HeardCopy], n: u64, limits: &Limits, gateway: u16) -> Result<Place, HearFault>
    ensures { result ≡ join_answer limits.now n copies.now gateway }
{
    if has_gateway(copies, gateway) {
        return Err(HearFault::SameGateway);
    }
    if copies.len() >= limits.max_copies as usize {
        return Err(HearFault::TooManyCopies);
    }
    Ok(Place::Joins(n))
}

/// Whether one of the copies is from this gateway.
fn has_gateway(copies: &[HeardCopy], gateway: u16) -> bool
    ensures { result ≡ has_gateway gateway copies.now }
{
    copies.iter().any(|copy| copy.gateway == gateway)
}

/// The first of these numbers that is of a gathering that is due.
pub(crate) fn first_due<A: Allocator>(
    numbers: &[u64],
    stored: &[Stored<A>],
    now: u64,
) -> Option<u64>
    ensures { result ≡ find (λ n. option_map_or (λ s. is_due now (shown [] s)) (numbered n stored.now) false) numbers.now }
{
    numbers.iter().copied().find(|&n| is_due_at(stored, n, now))
}

/// Whether there is a gathering with this number that is due.
fn is_due_at<A: Allocator>(stored: &[Stored<A>], n: u64, now: u64) -> bool
    ensures { result ≡ option_map_or (λ s. is_due now (shown [] s)) (numbered n stored.now) false }
{
    match numbered(stored, n) {
        Some(gathering) => !gathering.closed && now > gathering.opened.saturating_add(JOIN_US),
        None => false,
    }
}
