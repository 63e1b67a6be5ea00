ghost use Rattle.std.specs.Prelude.{◌≡◌, ◌+◌, ◌-◌, ◌≤◌, ◌^◌, max, false};
ghost use Rattle.radio_bands.specs.declared.band.Band.{Band as SubBand};
ghost use Rattle.resv_tree.specs.Sums.{quarters_in, is_same, IsOnly};
ghost use Rattle.resv_tree.specs.Shape.{shape, shape_of, entry_of, kept_of};
ghost use Rattle.resv_tree.specs.Shape.{IsWhole, IsKept, HasSides};
ghost use Rattle.resv_tree.specs.Shape.{Fork, top_of, left_of, right_of, entries, greatest_of};
ghost use Rattle.resv_tree.specs.Entries.{moved, amount, CanMove, Each};
ghost use Rattle.resv_tree.specs.Parts.{IsMadeOf, IsSeenAs, IsOwing, IsMoved};

use crate::entry::Entry;
use crate::kept::Kept;
use crate::owed::hand;
use crate::sums::Sums;
use crate::told::{greatest, top_in};
use radio_bands::Band;
use std::alloc::Allocator;

/// A tree, or a side of one: nothing, or its node at the top.
pub(crate) type Link<A> = Option<Box<Node<A>, A>>;

/// A member with what stands before it and behind it, and what it keeps of the tree of which it is the top. Only what makes a
/// node (`forks`) computes all of that; `renew` and `owe` write in its place what it keeps of own hours.
#[derive(Drop)]
pub(crate) struct Node<A: Allocator + Clone> {
    pub(crate) left: Link<A>,
    pub(crate) entry: Entry,
    pub(crate) right: Link<A>,
    pub(crate) kept: Kept,
}

/// The parts of a node behind a reference.
pub(crate) struct Parts<'a, A: Allocator + Clone> {
    pub(crate) left: &'a Link<A>,
    pub(crate) entry: Entry,
    pub(crate) right: &'a Link<A>,
}

impl<A: Allocator + Clone> Node<A> {
    /// A node that stands in no tree yet.
    pub(crate) fn apart(entry: Entry) -> Self
        ensures { entry_of result ≡ entry }
    {
        Node {
            left: None,
            entry,
            right: None,
            kept: Kept::NONE,
        }
    }

    /// Its member, by value.
    pub(crate) fn entry(&self) -> Entry
        ensures { result ≡ entry_of self.now }
    {
        self.entry
    }

    /// What it keeps of the tree of which it is the top, by value.
    pub(crate) fn kept(&self) -> Kept
        ensures { result ≡ kept_of self.now }
    {
        self.kept
    }

    /// Owes to all below it so much more, and then so much less.
    pub(crate) fn owe(&mut self, more: &Sums, less: &Sums)
        requires whole { IsWhole (shape self.old) }
        requires fits { (band : SubBand) → greatest_of (shape self.old) band - quarters_in less.now band
            + quarters_in more.now band ≤ max (quarters_in more.now band) (2 ^ 32 - 1) }
        requires covered { Each (CanMove (quarters_in more.now) (quarters_in less.now)) (entries (shape self.old)) }
        ensures { IsMoved (shape self.new) (shape self.old) (quarters_in more.now) (quarters_in less.now) }
    {
        let there = self.kept.sums;
        self.kept.greatest = self.kept.greatest.moved(more, less, &there);
        self.kept.owes = true;
    }

    /// Has an entry whose own hour has so much more, and then so much less, both in one sub-band alone.
    pub(crate) fn move_entry(&mut self, band: Band, more: &Sums, less: &Sums)
        requires only { IsOnly band (quarters_in more.now) (quarters_in less.now) }
        requires fits { (entry_of self.old).own - amount (quarters_in less.now) (entry_of self.old).reservation
            + amount (quarters_in more.now) (entry_of self.old).reservation
            ≤ max (amount (quarters_in more.now) (entry_of self.old).reservation) (2 ^ 32 - 1) }
        ensures entry { entry_of self.new ≡ moved (quarters_in more.now) (quarters_in less.now) (entry_of self.old) }
        ensures left { left_of self.new ≡ left_of self.old }
        ensures right { right_of self.new ≡ right_of self.old }
        ensures kept { kept_of self.new ≡ kept_of self.old }
    {
        self.entry = self.entry.moved_only(band, more, less);
    }
}

/// The parts of a tree, left in it; its top may owe them a part of their own hours.
pub(crate) fn look<'a, A: Allocator + Clone>(node: &'a Node<A>) -> Parts<'a, A>
    requires { IsWhole (shape node.now) }
    ensures seen { IsSeenAs (shape node.now) (shape_of result.left.now) result.entry (shape_of result.right.now) }
    ensures owing { IsOwing (shape node.now) (shape_of result.left.now) result.entry (shape_of result.right.now) }
{
    Parts {
        left: &node.left,
        entry: node.entry,
        right: &node.right,
    }
}

/// The parts of a tree, taken out of it. What its top owes is handed down to them.
pub(crate) fn open<A: Allocator + Clone>(
    mut top: Box<Node<A>, A>,
) -> (Link<A>, Box<Node<A>, A>, Link<A>)
    requires { IsWhole (shape top.value) }
    ensures made { IsMadeOf (shape top.value) (shape_of result.0) (entry_of result.1.value) (shape_of result.2) }
    ensures kept { IsKept (shape_of result.0) (entry_of result.1.value) (shape_of result.2) (kept_of result.1.value) }
    ensures greatest { (band : SubBand) → quarters_in (kept_of result.1.value).greatest band
        ≡ greatest_of (shape top.value) band }
{
    settle(&mut top);
    part(top)
}

/// The parts of a tree as they stand in it.
fn part<A: Allocator + Clone>(mut top: Box<Node<A>, A>) -> (Link<A>, Box<Node<A>, A>, Link<A>)
    ensures { shape top.value
        ≡ Fork (shape_of result.0) (entry_of result.1.value) (shape_of result.2) (kept_of result.1.value) }
{
    let left = top.left.take();
    let right = top.right.take();
    (left, top, right)
}

/// Hands down to a node's entry and its two sides what it owes them; what it keeps stays.
pub(crate) fn settle<A: Allocator + Clone>(node: &mut Node<A>)
    requires { IsWhole (shape node.old) }
    ensures made { IsMadeOf (shape node.old) (left_of node.new) (entry_of node.new) (right_of node.new) }
    ensures kept { IsKept (left_of node.new) (entry_of node.new) (right_of node.new) (kept_of node.new) }
    ensures same { kept_of node.new ≡ kept_of node.old }
{
    if !node.kept.owes {
        return;
    }
    let more = node.kept.greatest;
    let less = greatest_about(&node.left, &node.entry, &node.right);
    hand(&mut node.left, &more, &less);
    hand(&mut node.right, &more, &less);
    node.entry = node.entry.moved(&more, &less);
}

/// The greatest of an entry's own hour and of what the tops of its two sides keep, in each sub-band.
pub(crate) fn greatest_about<A: Allocator + Clone>(
    left: &Link<A>,
    entry: &Entry,
    right: &Link<A>,
) -> Sums
    ensures { (band : SubBand) → quarters_in result band ≡ top_of (shape_of left.now) entry.now (shape_of right.now) band }
{
    let sides = greatest(left).greater(greatest(right));
    Sums::own(entry).greater(&sides)
}

/// Writes what a node keeps of own hours, once these alone have changed below it, and in this sub-band alone.
pub(crate) fn renew<A: Allocator + Clone>(node: &mut Node<A>, band: Band)
    requires left { IsWhole (left_of node.old) }
    requires right { IsWhole (right_of node.old) }
    requires sides { HasSides (kept_of node.old) (left_of node.old) (entry_of node.old) (right_of node.old) }
    requires others { (other : SubBand) → is_same other band ≡ false → quarters_in (kept_of node.old).greatest other
        ≡ top_of (left_of node.old) (entry_of node.old) (right_of node.old) other }
    ensures made { IsMadeOf (shape node.new) (left_of node.old) (entry_of node.old) (right_of node.old) }
    ensures whole { IsWhole (shape node.new) }
{
    let greatest = top_in(&node.left, &node.entry, &node.right, band);
    node.kept.greatest.put(band, greatest);
    node.kept.owes = false;
}
