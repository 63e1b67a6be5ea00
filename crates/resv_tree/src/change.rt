ghost use Rattle.std.specs.Prelude.{◌≡◌, ◌+◌, ◌≤◌, ◌<◌, ◌∷◌, [], ◌++◌};
ghost use Rattle.radio_bands.specs.declared.band.Band.{Band as SubBand};
ghost use Rattle.resv_list.specs.Reservations.{airtime_in};
ghost use Rattle.resv_list.specs.Sorted.{place_by, rest_from};
ghost use Rattle.resv_tree.specs.Entries.{key_of, own_in, IsByKey, entry_at, entries_without};
ghost use Rattle.resv_tree.specs.Sums.{quarters_in, sum_in};
ghost use Rattle.resv_tree.specs.Shape.{shape, shape_of, entry_of, entries, IsWhole, count_of};

use crate::entry::Entry;
use crate::forks::lone;
use crate::join::{grow, join, join_left, join_right};
use crate::node::{Link, Node, open};
use crate::sums::Sums;
use crate::told::kept;
use resv_list::MAX_MEMBERS;
use std::alloc::Allocator;

/// The tree with one more node in its place, of whose entry this is the airtime and the own hour.
#[tactic(auto, using(crate::proofs::TreeLemmas::placing))]
pub(crate) fn insert<A: Allocator + Clone>(
    link: Link<A>,
    node: Box<Node<A>, A>,
    airtime: &Sums,
    own: &Sums,
) -> Box<Node<A>, A>
    requires whole { IsWhole (shape_of link) }
    requires by_key { IsByKey (entries (shape_of link)) }
    requires room { count_of (shape_of link) < MAX_MEMBERS }
    requires airtime { (band : SubBand) → sum_in airtime.now band ≡ airtime_in band (entry_of node.value).reservation }
    requires own { (band : SubBand) → quarters_in own.now band ≡ own_in band (entry_of node.value) }
    ensures entries { entries (shape result.value) ≡ place_by key_of (entry_of node.value) (entries (shape_of link)) }
    ensures count { count_of (shape result.value) ≡ count_of (shape_of link) + 1 }
    ensures whole { IsWhole (shape result.value) }
{
    let Some(top) = link else {
        return lone(node, airtime, own);
    };
    let (left, top, right) = open(top);
    if top.entry().reservation.start < node.entry().reservation.start {
        let right = insert(right, node, airtime, own);
        grow(left, top, Some(right), airtime, own)
    } else {
        let left = insert(left, node, airtime, own);
        grow(Some(left), top, right, airtime, own)
    }
}

/// The tree without the entry at the key, and that entry; takes no memory.
#[tactic(auto, using(crate::proofs::TreeLemmas::removing))]
pub(crate) fn remove<A: Allocator + Clone>(link: Link<A>, key: u64) -> (Link<A>, Option<Entry>)
    requires whole { IsWhole (shape_of link) }
    requires by_key { IsByKey (entries (shape_of link)) }
    requires room { count_of (shape_of link) ≤ MAX_MEMBERS }
    ensures removed { result.1 ≡ entry_at key (entries (shape_of link)) }
    ensures left { entries (shape_of result.0) ≡ entries_without key (entries (shape_of link)) }
    ensures count { count_of (shape_of result.0) ≤ count_of (shape_of link) }
    ensures whole { IsWhole (shape_of result.0) }
{
    let Some(top) = link else {
        return (None, None);
    };
    let (left, top, right) = open(top);
    let entry = top.entry();
    if key < entry.reservation.start {
        let old = kept(&left);
        let (left, removed) = remove(left, key);
        return (Some(join_left(left, top, &old, right)), removed);
    }
    if entry.reservation.start < key {
        let old = kept(&right);
        let (right, removed) = remove(right, key);
        return (Some(join_right(left, top, &old, right)), removed);
    }
    (concat(left, right), Some(entry))
}

/// The tree of the entries whose keys are not below `key`; takes no memory. On one walk down it leaves behind each node
/// with a lower key, and all to its left.
#[tactic(auto, using(crate::proofs::TreeLemmas::dropping))]
pub(crate) fn drop_before<A: Allocator + Clone>(link: Link<A>, key: u64) -> Link<A>
    requires whole { IsWhole (shape_of link) }
    requires by_key { IsByKey (entries (shape_of link)) }
    requires room { count_of (shape_of link) ≤ MAX_MEMBERS }
    ensures entries { entries (shape_of result) ≡ rest_from key_of key (entries (shape_of link)) }
    ensures count { count_of (shape_of result) ≤ count_of (shape_of link) }
    ensures whole { IsWhole (shape_of result) }
{
    let Some(top) = link else {
        return None;
    };
    let (left, top, right) = open(top);
    if top.entry().reservation.start < key {
        return drop_before(right, key);
    }
    let old = kept(&left);
    let left = drop_before(left, key);
    Some(join_left(left, top, &old, right))
}

/// The tree of two sides: the last node of the left one goes between them.
fn concat<A: Allocator + Clone>(left: Link<A>, right: Link<A>) -> Link<A>
    requires left { IsWhole (shape_of left) }
    requires right { IsWhole (shape_of right) }
    requires room { count_of (shape_of left) + count_of (shape_of right) ≤ MAX_MEMBERS }
    ensures entries { entries (shape_of result) ≡ entries (shape_of left) ++ entries (shape_of right) }
    ensures count { count_of (shape_of result) ≡ count_of (shape_of left) + count_of (shape_of right) }
    ensures whole { IsWhole (shape_of result) }
{
    let Some(left) = left else {
        return right;
    };
    let (rest, last) = pop(left);
    Some(join(rest, last, right))
}

/// The tree without its last node, and that node.
fn pop<A: Allocator + Clone>(top: Box<Node<A>, A>) -> (Link<A>, Box<Node<A>, A>)
    requires whole { IsWhole (shape top.value) }
    requires room { count_of (shape top.value) ≤ MAX_MEMBERS }
    ensures entries { entries (shape top.value) ≡ entries (shape_of result.0) ++ entry_of result.1.value ∷ [] }
    ensures count { count_of (shape top.value) ≡ count_of (shape_of result.0) + 1 }
    ensures whole { IsWhole (shape_of result.0) }
{
    let (left, top, right) = open(top);
    let old = kept(&right);
    let Some(right) = right else {
        return (left, top);
    };
    let (rest, last) = pop(right);
    (Some(join_right(left, top, &old, rest)), last)
}
