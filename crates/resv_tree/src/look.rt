ghost use Rattle.std.specs.Prelude.{◌≡◌, ◌≤◌, ◌+◌, ◌&&◌, ◌++◌, nat_le, OnOk};
ghost use Rattle.resv_list.specs.Reservations.{begun, is_in, start_of, IsByStart};
ghost use Rattle.resv_list.specs.Sorted.{first_from, last_below};
ghost use Rattle.resv_tree.specs.Entries.{IsByKey, first_reaching};
ghost use Rattle.resv_tree.specs.Shape.{shape_of, members_of, entries, IsWhole, count_of};

use crate::entry::Entry;
use crate::node::{Link, Parts, look};
use crate::sums::moved;
use crate::told::{greatest_in, sum_in, top_in};
use radio_bands::Band;
use resv_list::{MAX_MEMBERS, Reservation};
use std::alloc::{AllocError, Allocator};

/// The member with the greatest start below `key`.
#[tactic(auto, using(crate::proofs::TreeLemmas::looking_before))]
pub(crate) fn before<A: Allocator + Clone>(link: &Link<A>, key: u64) -> Option<Reservation>
    requires whole { IsWhole (shape_of link.now) }
    requires by_start { IsByStart (members_of (shape_of link.now)) }
    ensures { result ≡ last_below start_of key (members_of (shape_of link.now)) }
{
    let Some(node) = link else { return None };
    let Parts { left, entry, right } = look(node);
    if entry.reservation.start >= key {
        return before(left, key);
    }
    before(right, key).or(Some(entry.reservation))
}

/// The member with the least start not below `key`.
#[tactic(auto, using(crate::proofs::TreeLemmas::looking_from))]
pub(crate) fn from<A: Allocator + Clone>(link: &Link<A>, key: u64) -> Option<Reservation>
    requires whole { IsWhole (shape_of link.now) }
    requires by_start { IsByStart (members_of (shape_of link.now)) }
    ensures { result ≡ first_from start_of key (members_of (shape_of link.now)) }
{
    let Some(node) = link else { return None };
    let Parts { left, entry, right } = look(node);
    if entry.reservation.start < key {
        return from(right, key);
    }
    from(left, key).or(Some(entry.reservation))
}

/// Adds all members to a list, which makes no growth where it has room for them.
pub(crate) fn add_all<A: Allocator + Clone, B: Allocator>(
    link: &Link<A>,
    members: &mut Vec<Reservation, B>,
) -> Result<(), AllocError>
    requires { IsWhole (shape_of link.now) }
    ensures { OnOk result (members.new.items ≡ members.old.items ++ members_of (shape_of link.now)) }
{
    let Some(node) = link else { return Ok(()) };
    let Parts { left, entry, right } = look(node);
    add_all(left, members)?;
    members.push(entry.reservation)?;
    add_all(right, members)
}

/// The airtime of the members of the sub-band that begin before `to`, in microseconds.
pub(crate) fn spent_before<A: Allocator + Clone>(link: &Link<A>, band: Band, to: u64) -> u64
    requires whole { IsWhole (shape_of link.now) }
    requires by_start { IsByStart (members_of (shape_of link.now)) }
    requires room { count_of (shape_of link.now) ≤ MAX_MEMBERS }
    ensures { result ≡ begun band 0 to (members_of (shape_of link.now)) }
{
    spent_about(link, band, to, 0)
}

/// The same, less at most so much. On the way down, where the one between begins before `to`, all but the right side counts
/// by what the two nodes keep, so that no other is looked at; it ends where no more than that is left.
#[tactic(auto, using(crate::proofs::TreeLemmas::spending))]
pub(crate) fn spent_about<A: Allocator + Clone>(
    link: &Link<A>,
    band: Band,
    to: u64,
    less: u64,
) -> u64
    requires whole { IsWhole (shape_of link.now) }
    requires by_start { IsByStart (members_of (shape_of link.now)) }
    requires room { count_of (shape_of link.now) ≤ MAX_MEMBERS }
    ensures not_more { result ≤ begun band 0 to (members_of (shape_of link.now)) }
    ensures not_less { begun band 0 to (members_of (shape_of link.now)) ≤ result + less }
{
    let all = sum_in(link, band);
    if all <= less {
        return 0;
    }
    let Some(node) = link else { return 0 };
    let Parts { left, entry, right } = look(node);
    if entry.reservation.start >= to {
        return spent_about(left, band, to, less);
    }
    all - sum_in(right, band) + spent_about(right, band, to, less)
}

/// The first member of the sub-band, of those that begin from `from` on and before `to`, whose own hour has at least `least`
/// quarters of the shortest symbol. It leaves out each tree whose greatest is below that; so behind the two ends of the stretch
/// it goes only where it finds one.
pub(crate) fn first_over<A: Allocator + Clone>(
    link: &Link<A>,
    band: Band,
    from: u64,
    to: u64,
    least: u32,
) -> Option<Reservation>
    requires whole { IsWhole (shape_of link.now) }
    requires by_key { IsByKey (entries (shape_of link.now)) }
    ensures { result ≡ first_reaching band from to least (entries (shape_of link.now)) }
{
    let greatest = greatest_in(link, band);
    if sum_in(link, band) == 0 {
        return None;
    }
    if greatest < least {
        return None;
    }
    let Some(node) = link else { return None };
    let Parts { left, entry, right } = look(node);
    let below = moved(least, top_in(left, &entry, right, band), greatest);
    if entry.reservation.start < from {
        return first_over(right, band, from, to, below);
    }
    if to <= entry.reservation.start {
        return first_over(left, band, from, to, below);
    }
    if let Some(found) = first_over(left, band, from, to, below) {
        return Some(found);
    }
    if has_own(&entry, band, below) {
        return Some(entry.reservation);
    }
    first_over(right, band, from, to, below)
}

/// Whether it is one of the sub-band, and its own hour has at least so much.
fn has_own(entry: &Entry, band: Band, least: u32) -> bool
    ensures { result ≡ is_in band entry.now.reservation && nat_le least entry.now.own }
{
    entry.reservation.is_in(band) && entry.own >= least
}
