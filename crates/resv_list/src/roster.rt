ghost use Rattle.std.specs.Prelude.{◌≡◌, ◌<◌, ◌≤◌, ◌+◌, ◌^◌, nat_le, ◌↔◌, List, length, [], IfOk, IfErr, OnOk, OnErr};
ghost use Rattle.std.specs.Prelude.{IsErrAnd};
ghost use Rattle.resv_list.specs.declared.reservation.Reservation.{Reservation as Member};
ghost use Rattle.resv_list.specs.Reservations.{IsByStart, IsFree, place, member_before, member_from, member_at, without, begun};
ghost use Rattle.resv_list.specs.Reservations.{members_before, members_from, net};
ghost use Rattle.resv_list.specs.Hours.{reach, first_over, most_spent};

use crate::Reservation;
use radio_bands::Band;
use std::alloc::{AllocError, Allocator};
use thiserror::Error;

/// The greatest number of reservations in a roster.
pub const MAX_MEMBERS: usize = 65_536;

/// An hour, in microseconds.
pub const HOUR: u64 = 3_600_000_000;

/// Why a roster took no reservation.
#[derive(Clone, Copy, Debug, PartialEq, Eq, Error)]
pub enum RosterFault {
    /// There are `MAX_MEMBERS` members.
    #[error("the roster is full: it holds 65,536 reservations")]
    Full,
    /// A growth was refused; the roster is as it was.
    #[error("there is no memory for one more reservation")]
    NoMemory,
}

/// What a roster has dropped.
#[derive(Clone, Copy, Debug, PartialEq, Eq)]
pub struct Dropped {
    /// How many reservations.
    pub count: usize,
    /// Their airtime, in microseconds.
    pub airtime: u64,
}

/// Reservations in the order of their starts, no two of which are the same. Moments are in
/// microseconds of the gateway's clock.
pub trait Roster {
    ghost list: { Self → List Member };

    /// How many there are.
    fn len(&self) -> usize
        ensures { result ≡ length (list self.now) };

    /// The one with the greatest start below `start`.
    fn before(&self, start: u64) -> Option<Reservation>
        ensures { result ≡ member_before start (list self.now) };

    /// The one with the least start not below `start`.
    fn first_from(&self, start: u64) -> Option<Reservation>
        ensures { result ≡ member_from start (list self.now) };

    /// The airtime of those of the sub-band that begin from `from` on and before `to`, in microseconds;
    /// a transmission counts whole where it begins.
    fn spent(&self, band: Band, from: u64, to: u64) -> u64
        ensures { result ≡ begun band from to (list self.now) };

    /// Whether the airtime of those of the sub-band that begin from `from` on and before `to` is at most `most`, in
    /// microseconds. This body asks for the sum; a roster may tell with less.
    fn is_within(&self, band: Band, from: u64, to: u64, most: u64) -> bool
        ensures { result ≡ nat_le (begun band from to (list self.now)) most }
    {
        self.spent(band, from, to) <= most
    }

    /// The first of the sub-band, of those that begin from `from` on and before `to`, whose own hour has more airtime than
    /// `most`, in microseconds: the hour that opens at its start, with what begins in it of the sub-band. This body walks over
    /// all members of the stretch until it finds one.
    fn first_over(&self, band: Band, from: u64, to: u64, most: u64) -> Option<Reservation>
        ensures { result ≡ first_over band from to most (list self.now) }
    {
        let mut at = from;
        while let Some(member) = self.first_from(at) {
            if member.start >= to {
                return None;
            }
            if member.is_in(band) && self.spent(band, member.start, member.start + HOUR) > most {
                return Some(member);
            }
            at = member.start + 1;
        }
        None
    }

    /// The airtime of the fullest hour that one of the sub-band opens at its start, in microseconds; 0 where there is none.
    /// This body walks over all members.
    fn most(&self, band: Band) -> u64
        ensures { result ≡ most_spent (list self.now) band }
    {
        let mut most: u64 = 0;
        let mut at = 0;
        while let Some(member) = self.first_from(at) {
            if member.is_in(band) {
                most = most.max(self.spent(band, member.start, member.start + HOUR));
            }
            at = member.start + 1;
        }
        most
    }

    /// All members in a list of their own, for which it makes one growth where there is a member. This body looks for each of
    /// them in turn; a roster may go over them once.
    fn members<B: Allocator>(&self, alloc: B) -> Result<Vec<Reservation, B>, AllocError>
        ensures { IfOk result (λ members. members.items ≡ list self.now) }
    {
        let mut members = Vec::with_capacity(alloc, self.len())?;
        let mut at = 0;
        while let Some(member) = self.first_from(at) {
            members.push(member)?;
            at = member.start + 1;
        }
        Ok(members)
    }

    /// Takes out the one that begins at `start`, if there is one.
    fn remove(&mut self, start: u64) -> Option<Reservation>
        ensures removed { result ≡ member_at start (list self.old) }
        ensures left { list self.new ≡ without start (list self.old) };

    /// Takes out all that begin before `start`, and counts them; takes no memory.
    fn drop_before(&mut self, start: u64) -> Dropped
        ensures count { result.count ≡ length (members_before start (list self.old)) }
        ensures airtime { result.airtime ≡ net (members_before start (list self.old)) }
        ensures left { list self.new ≡ members_from start (list self.old) };

    /// Puts one more in its place; on an `Err` it is handed back, and the roster is as it was. `Full`: there are 65,536;
    /// `NoMemory`: a growth was refused.
    fn insert(&mut self, reservation: Reservation) -> Result<(), (RosterFault, Reservation)>
        requires { IsFree reservation.start (list self.old) }
        ensures placed { OnOk result (list self.new ≡ place reservation (list self.old)) }
        ensures full { IsErrAnd result (λ e. e.0 ≡ RosterFault.Full) ↔ (MAX_MEMBERS ≤ length (list self.old)) }
        ensures handed_back { IfErr result (λ e. e.1 ≡ reservation) }
        ensures unchanged { OnErr result (list self.new ≡ list self.old) };

    /// The roster with these members, which are by start, where it has none yet; where there is no memory for all of them, it is
    /// dropped. This body puts in one after another; a roster may be made of all at once.
    fn filled(self, members: &[Reservation]) -> Result<Self, AllocError>
    where
        Self: Drop + Sized,
        requires empty { list self ≡ [] }
        requires by_start { IsByStart members.now }
        requires room { length members.now ≤ MAX_MEMBERS }
        ensures { IfOk result (λ r. list r ≡ members.now) }
    {
        let mut roster = self;
        for member in members {
            match roster.insert(*member) {
                Ok(()) => {}
                // It is not full: there is room for all of them.
                Err(_) => return Err(AllocError),
            }
        }
        Ok(roster)
    }

    ghost by_start: { (r : Self) → IsByStart (list r) };
}

/// From where on an hour that opens reaches a moment, in microseconds.
pub fn reach(moment: u64) -> u64
    requires { moment + 1 < 2 ^ 64 }
    ensures { result ≡ reach moment }
{
    (moment + 1).saturating_sub(HOUR)
}
