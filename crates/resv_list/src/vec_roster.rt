ghost use Rattle.std.specs.Prelude.{◌≡◌, ◌≤◌, [], ◌<◌, length, insert, remove, nat_lt, slice_get, vec_len, MatchOption, IfSome};
ghost use Rattle.resv_list.specs.declared.reservation.Reservation.{Reservation as Member};
ghost use Rattle.resv_list.specs.declared.roster.TheConstants.{MAX_MEMBERS};
ghost use Rattle.resv_list.specs.Sorted.{IsCut, RisesFrom, RisesFrom-prop};
ghost use Rattle.resv_list.specs.Reservations.{start_of, IsByStart, place, member_before, member_from, member_at, without, begun};

use crate::airtime::airtime_of;
use crate::{Dropped, MAX_MEMBERS, Reservation, Roster, RosterFault};
use radio_bands::Band;
use std::alloc::{AllocError, Allocator};

/// A roster in one sorted vector: looking up takes a binary search, inserting moves the tail.
#[derive(Drop)]
pub struct VecRoster<A: Allocator> {
    items: Vec<Reservation, A>,
    ghost by_start: { IsByStart items.items } by { RisesFrom-prop start_of 0 items.items },
    ghost bounded: { vec_len items ≤ MAX_MEMBERS },
}

impl<A: Allocator> VecRoster<A> {
    /// An empty roster on this allocator; takes no memory.
    pub fn new(alloc: A) -> Self
        ensures { ⟦<VecRoster<A> as Roster>⟧.list result ≡ [] }
    {
        VecRoster {
            items: Vec::new(alloc),
        }
    }
}

impl<A: Allocator> Roster for VecRoster<A> {
    ghost list = { λ r. r.items.items };

    fn len(&self) -> usize {
        self.items.len()
    }

    fn before(&self, start: u64) -> Option<Reservation> {
        before_in(&self.items, start)
    }

    fn first_from(&self, start: u64) -> Option<Reservation> {
        first_from_in(&self.items, start)
    }

    fn spent(&self, band: Band, from: u64, to: u64) -> u64 {
        spent_in(&self.items, band, from, to)
    }

    fn members<B: Allocator>(&self, alloc: B) -> Result<Vec<Reservation, B>, AllocError> {
        let mut members = Vec::with_capacity(alloc, self.items.len())?;
        members.extend_from_slice(&self.items)?;
        Ok(members)
    }

    fn remove(&mut self, start: u64) -> Option<Reservation> {
        let place = place_at(&self.items, start)?;
        Some(self.items.remove(place))
    }

    fn drop_before(&mut self, start: u64) -> Dropped {
        let count = place_of(&self.items, start);
        let airtime = airtime_of(&self.items[..count]);
        self.items.retain(|member| member.start >= start);
        Dropped { count, airtime }
    }

    fn insert(&mut self, reservation: Reservation) -> Result<(), (RosterFault, Reservation)> {
        if self.items.len() >= MAX_MEMBERS {
            return Err((RosterFault::Full, reservation));
        }
        let place = place_of(&self.items, reservation.start);
        match self.items.insert(place, reservation) {
            Ok(()) => Ok(()),
            Err(failed) => Err((RosterFault::NoMemory, failed.value)),
        }
    }

    ghost by_start = { λ r. r.by_start };
}

/// How many of the members, which are by start, begin before `start`.
fn place_of(members: &[Reservation], start: u64) -> usize
    requires { IsByStart members.now }
    ensures bound { result ≤ length members.now }
    ensures cut { IsCut (λ r. nat_lt r.start start) members.now result }
    ensures placed { (r : Member) → r.start ≡ start → place r members.now ≡ insert members.now result r }
{
    members.partition_point(|member| member.start < start)
}

/// The last of the members, which are by start, that begins before `start`.
fn before_in(members: &[Reservation], start: u64) -> Option<Reservation>
    requires { IsByStart members.now }
    ensures { result ≡ member_before start members.now }
{
    members[..place_of(members, start)].last().copied()
}

/// The first of the members, which are by start, that doesn't begin before `start`.
fn first_from_in(members: &[Reservation], start: u64) -> Option<Reservation>
    requires { IsByStart members.now }
    ensures { result ≡ member_from start members.now }
{
    members[place_of(members, start)..].first().copied()
}

/// The place of the member, of members by start, that begins at `start`.
fn place_at(members: &[Reservation], start: u64) -> Option<usize>
    requires { IsByStart members.now }
    ensures within { IfSome result (λ place. place < length members.now) }
    ensures found { MatchOption result (member_at start members.now ≡ None)
        (λ place. member_at start members.now ≡ slice_get members.now place) }
    ensures left { MatchOption result (without start members.now ≡ members.now)
        (λ place. without start members.now ≡ remove members.now place) }
{
    let place = place_of(members, start);
    (members.get(place)?.start == start).then_some(place)
}

/// The airtime of the members of the band, of members by start, that begin from `from` on and before
/// `to`.
fn spent_in(members: &[Reservation], band: Band, from: u64, to: u64) -> u64
    requires by_start { IsByStart members.now }
    requires bounded { length members.now ≤ MAX_MEMBERS }
    ensures { result ≡ begun band from to members.now }
{
    begun_before(&members[place_of(members, from)..], band, from, to)
}

/// The same of members that begin from `from` on.
fn begun_before(members: &[Reservation], band: Band, from: u64, to: u64) -> u64
    requires rising { RisesFrom start_of from members.now }
    requires bounded { length members.now ≤ MAX_MEMBERS }
    ensures { result ≡ begun band from to members.now }
{
    let mut sum = 0;
    for member in members {
        if member.start >= to {
            return sum;
        }
        sum += member.airtime_in(band);
    }
    sum
}
