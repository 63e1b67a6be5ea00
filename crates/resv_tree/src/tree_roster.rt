ghost use Rattle.std.specs.Prelude.{◌≡◌, ◌≤◌, ◌<◌, ◌+◌, ◌*◌, ◌/◌, ◌^◌, [], length, map, nat_le};
ghost use Rattle.radio_bands.specs.declared.band.Band.{Band as SubBand};
ghost use Rattle.resv_list.specs.declared.roster.TheConstants.{MAX_MEMBERS};
ghost use Rattle.resv_list.specs.Sorted.{RisesFrom-prop};
ghost use Rattle.resv_list.specs.Reservations.{start_of, airtime_in, place, IsByStart, IsFree};
ghost use Rattle.resv_tree.specs.Sums.{sum_in};
ghost use Rattle.resv_tree.specs.Entries.{IsByKey, Each};
ghost use Rattle.resv_tree.specs.OwnHours.{own_hour, HasHours, HasHours-prop, raised, lowered, CountsIn};
ghost use Rattle.resv_tree.specs.Shape.{shape_of, entries, members_of, IsWhole, IsWhole-prop, height_of, count_of, greatest_of};

use crate::build::build;
use crate::entry::Entry;
use crate::hours::Hours;
use crate::node::{Link, Node};
use crate::stretch::shift;
use crate::sums::{QUARTER_US, Sums};
use crate::told::{count, greatest_in, height};
use crate::{change, look, told};
use radio_bands::Band;
use resv_list::{Dropped, HOUR, MAX_MEMBERS, Reservation, Roster, RosterFault, reach};
use std::alloc::{AllocError, Allocator};

/// A roster in a balanced tree: each call but `filled` and `members` takes a few walks from the root down. `insert` takes the
/// memory of one node, `filled` that of one a member and `members` that of its list; `drop_before` gives back that of each member
/// that it drops. It is dropped side by side, as deep as the tree is high: 33 levels at most, so no number of members exhausts
/// the stack.
#[derive(Drop)]
pub struct TreeRoster<A: Allocator + Clone> {
    root: Link<A>,
    alloc: A,
    ghost by_start: { IsByStart (members_of (shape_of root)) } by { RisesFrom-prop start_of 0 (members_of (shape_of root)) },
    ghost whole: { IsWhole (shape_of root) } by { IsWhole-prop (shape_of root) },
    ghost hours: { HasHours (entries (shape_of root)) } by { HasHours-prop (entries (shape_of root)) },
    ghost bounded: { count_of (shape_of root) ≤ MAX_MEMBERS },
}

impl<A: Allocator + Clone> TreeRoster<A> {
    /// An empty roster on this allocator; takes no memory.
    pub fn new(alloc: A) -> Self
        ensures { ⟦<TreeRoster<A> as Roster>⟧.list result ≡ [] }
    {
        TreeRoster { root: None, alloc }
    }

    /// The airtime of the own hour that a member will have once it is placed, in quarters of the shortest symbol.
    fn own_hour(&self, member: &Reservation) -> u32
        requires free { IsFree member.now.start (members_of (shape_of self.now.root)) }
        ensures { 128 * result ≡ own_hour (place member.now (members_of (shape_of self.now.root))) member.now }
    {
        let band = member.band();
        let own = member.airtime() + self.spent(band, member.start, member.start + HOUR);
        (own / QUARTER_US) as u32
    }

    /// Whether there is no room for one more member.
    fn is_full(&self) -> bool
        ensures { result ≡ nat_le MAX_MEMBERS (length (members_of (shape_of self.now.root))) }
    {
        self.len() >= MAX_MEMBERS
    }

    /// How many levels the tree has, none if it is empty; it is bounded by the number of members.
    #[tactic(auto, using(crate::proofs::HeightLemmas::counts))]
    pub fn height(&self) -> u32
        ensures levels { result ≡ height_of (shape_of self.now.root) }
        ensures not_too_high { 2 ^ (result / 2) ≤ length (⟦<TreeRoster<A> as Roster>⟧.list self.now) + 1 }
        ensures high_enough { length (⟦<TreeRoster<A> as Roster>⟧.list self.now) + 1 ≤ 2 ^ result }
    {
        height(&self.root)
    }
}

/// Which part of a bound the ends of a stretch may count for together before `is_within` looks closer.
const SPARE: u64 = 8;

impl<A: Allocator + Clone> Roster for TreeRoster<A> {
    ghost list = { λ r. members_of (shape_of r.root) };

    #[tactic(auto, using(crate::proofs::HeightLemmas::counts))]
    fn len(&self) -> usize {
        count(&self.root)
    }

    fn before(&self, start: u64) -> Option<Reservation> {
        look::before(&self.root, start)
    }

    fn first_from(&self, start: u64) -> Option<Reservation> {
        look::from(&self.root, start)
    }

    #[tactic(auto, using(crate::proofs::SumLemmas::begun_difference))]
    fn spent(&self, band: Band, from: u64, to: u64) -> u64 {
        let before_to = look::spent_before(&self.root, band, to);
        before_to.saturating_sub(look::spent_before(&self.root, band, from))
    }

    /// Two walks that end above the leaves tell it where there is room to spare; else two walks to the leaves.
    #[tactic(auto, using(crate::proofs::SumLemmas::begun_difference))]
    fn is_within(&self, band: Band, from: u64, to: u64, most: u64) -> bool {
        let less = most / SPARE;
        let before_to = look::spent_about(&self.root, band, to, less) + less;
        if before_to.saturating_sub(look::spent_about(&self.root, band, from, less)) <= most {
            return true;
        }
        self.spent(band, from, to) <= most
    }

    fn first_over(&self, band: Band, from: u64, to: u64, most: u64) -> Option<Reservation> {
        let whole = most / QUARTER_US;
        if greatest_in(&self.root, band) as u64 <= whole {
            return None;
        }
        look::first_over(&self.root, band, from, to, whole as u32 + 1)
    }

    fn most(&self, band: Band) -> u64 {
        QUARTER_US * greatest_in(&self.root, band) as u64
    }

    /// One walk over the tree, from left to right.
    fn members<B: Allocator>(&self, alloc: B) -> Result<Vec<Reservation, B>, AllocError> {
        let mut members = Vec::with_capacity(alloc, count(&self.root))?;
        look::add_all(&self.root, &mut members)?;
        Ok(members)
    }

    #[tactic(auto, using(crate::proofs::TreeLemmas::staying))]
    fn remove(&mut self, start: u64) -> Option<Reservation> {
        let (mut root, removed) = change::remove(self.root.take(), start);
        let Some(entry) = removed else {
            self.root = root;
            return None;
        };
        let member = entry.reservation;
        lower(&mut root, &member);
        self.root = root;
        Some(member)
    }

    #[tactic(auto, using(crate::proofs::TreeLemmas::dropped))]
    fn drop_before(&mut self, start: u64) -> Dropped {
        let (members, airtime) = (count(&self.root), told::airtime(&self.root));
        self.root = change::drop_before(self.root.take(), start);
        Dropped {
            count: members - count(&self.root),
            airtime: airtime - told::airtime(&self.root),
        }
    }

    #[tactic(auto, using(crate::proofs::TreeLemmas::staying))]
    fn insert(&mut self, reservation: Reservation) -> Result<(), (RosterFault, Reservation)> {
        if self.is_full() {
            return Err((RosterFault::Full, reservation));
        }
        let Ok(alloc) = self.alloc.clone() else {
            return Err((RosterFault::NoMemory, reservation));
        };
        // The node is made before the tree is touched, so that without memory the tree stays as it was.
        let own = self.own_hour(&reservation);
        let entry = Entry { reservation, own };
        let Ok(node) = Box::new(alloc, Node::apart(entry)) else {
            return Err((RosterFault::NoMemory, reservation));
        };
        let airtime = Sums::around(&Sums::NONE, &reservation, &Sums::NONE);
        let mut root = self.root.take();
        raise(&mut root, &reservation, &airtime);
        self.root = Some(change::insert(root, node, &airtime, &Sums::own(&entry)));
        Ok(())
    }

    /// The tree is made at once: one walk over the members gives each its own hour, and no place in the tree is looked for.
    fn filled(self, members: &[Reservation]) -> Result<Self, AllocError> {
        let mut hours = Hours::of(members);
        let root = build(&mut hours, members.len(), &self.alloc)?;
        Ok(TreeRoster {
            root,
            alloc: self.alloc,
        })
    }

    ghost by_start = { λ r. r.by_start };
}

/// In the tree the hours before a member that is placed, and that reach it, have its airtime too, of which these are the sums.
fn raise<A: Allocator + Clone>(root: &mut Link<A>, member: &Reservation, more: &Sums)
    requires whole { IsWhole (shape_of root.old) }
    requires by_key { IsByKey (entries (shape_of root.old)) }
    requires room { count_of (shape_of root.old) ≤ MAX_MEMBERS }
    requires fits { (band : SubBand) → greatest_of (shape_of root.old) band ≤ 2 ^ 31 }
    requires more { (band : SubBand) → sum_in more.now band ≡ airtime_in band member.now }
    ensures entries { entries (shape_of root.new) ≡ map (raised member.now) (entries (shape_of root.old)) }
    ensures count { count_of (shape_of root.new) ≡ count_of (shape_of root.old) }
    ensures whole { IsWhole (shape_of root.new) }
{
    let from = reach(member.start);
    shift(root, from, member.start, member.band(), more, &Sums::NONE);
}

/// In the tree the hours before a member that was taken out have its airtime no more.
fn lower<A: Allocator + Clone>(root: &mut Link<A>, member: &Reservation)
    requires whole { IsWhole (shape_of root.old) }
    requires by_key { IsByKey (entries (shape_of root.old)) }
    requires room { count_of (shape_of root.old) ≤ MAX_MEMBERS }
    requires fits { (band : SubBand) → greatest_of (shape_of root.old) band ≤ 2 ^ 31 }
    requires counted { Each (CountsIn member.now) (entries (shape_of root.old)) }
    ensures entries { entries (shape_of root.new) ≡ map (lowered member.now) (entries (shape_of root.old)) }
    ensures count { count_of (shape_of root.new) ≡ count_of (shape_of root.old) }
    ensures whole { IsWhole (shape_of root.new) }
{
    let less = Sums::around(&Sums::NONE, member, &Sums::NONE);
    let from = reach(member.start);
    shift(root, from, member.start, member.band(), &Sums::NONE, &less);
}
