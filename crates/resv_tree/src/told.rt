// What is told of a tree by what its top keeps, so that no other node is looked at.
ghost use Rattle.std.specs.Prelude.{◌≡◌, ◌≤◌};
ghost use Rattle.radio_bands.specs.declared.band.Band.{Band as SubBand};
ghost use Rattle.resv_list.specs.Reservations.{net};
ghost use Rattle.resv_tree.specs.Sums.{quarters_in, sum_in as sum_of};
ghost use Rattle.resv_tree.specs.Shape.{shape_of, height_of, count_of, kept_sum, greatest_of, top_of};
ghost use Rattle.resv_tree.specs.Shape.{members_of, IsWhole, TellsOf};

use crate::entry::Entry;
use crate::kept::Kept;
use crate::node::Link;
use crate::sums::Sums;
use radio_bands::Band;
use std::alloc::Allocator;

/// What the top of the tree keeps.
pub(crate) fn kept<A: Allocator + Clone>(link: &Link<A>) -> Kept
    ensures { TellsOf result (shape_of link.now) }
{
    match link {
        None => Kept::NONE,
        Some(node) => node.kept,
    }
}

/// What the top of the tree keeps of own hours, left in it.
pub(crate) fn greatest<'a, A: Allocator + Clone>(link: &'a Link<A>) -> &'a Sums
    ensures { (band : SubBand) → quarters_in result.now band ≡ greatest_of (shape_of link.now) band }
{
    match link {
        None => &Sums::NONE,
        Some(node) => &node.kept.greatest,
    }
}

/// How many levels the tree has.
pub(crate) fn height<A: Allocator + Clone>(link: &Link<A>) -> u32
    ensures value { result ≡ height_of (shape_of link.now) }
    ensures bounded { IsWhole (shape_of link.now) → result ≤ count_of (shape_of link.now) }
{
    levels(link) as u32
}

/// The same, as a node keeps it.
pub(crate) fn levels<A: Allocator + Clone>(link: &Link<A>) -> u8
    ensures { result ≡ height_of (shape_of link.now) }
{
    match link {
        None => 0,
        Some(node) => node.kept.height,
    }
}

/// How many members the tree has.
pub(crate) fn count<A: Allocator + Clone>(link: &Link<A>) -> usize
    ensures { result ≡ count_of (shape_of link.now) }
{
    match link {
        None => 0,
        Some(node) => node.kept.count as usize,
    }
}

/// The airtime of the tree's members in each sub-band.
pub(crate) fn sums<A: Allocator + Clone>(link: &Link<A>) -> Sums
    ensures { (band : SubBand) → sum_of result band ≡ kept_sum (shape_of link.now) band }
{
    match link {
        None => Sums::NONE,
        Some(node) => node.kept.sums,
    }
}

/// The airtime of the tree's members in one sub-band, in microseconds.
pub(crate) fn sum_in<A: Allocator + Clone>(link: &Link<A>, band: Band) -> u64
    ensures { result ≡ kept_sum (shape_of link.now) band }
{
    match link {
        None => 0,
        Some(node) => node.kept.sums.in_band(band),
    }
}

/// The airtime of the tree's members, in microseconds.
#[tactic(auto, using(crate::proofs::SumLemmas::totals))]
pub(crate) fn airtime<A: Allocator + Clone>(link: &Link<A>) -> u64
    requires whole { IsWhole (shape_of link.now) }
    ensures { result ≡ net (members_of (shape_of link.now)) }
{
    sums(link).total()
}

/// The greatest own hour of the tree's members of one sub-band, in quarters of the shortest symbol; 0 where there is none.
pub(crate) fn greatest_in<A: Allocator + Clone>(link: &Link<A>, band: Band) -> u32
    ensures { result ≡ greatest_of (shape_of link.now) band }
{
    greatest(link).quarters(band)
}

/// The greatest of an entry's own hour and of what the tops of its two sides keep, in one sub-band.
pub(crate) fn top_in<A: Allocator + Clone>(
    left: &Link<A>,
    entry: &Entry,
    right: &Link<A>,
    band: Band,
) -> u32
    ensures { result ≡ top_of (shape_of left.now) entry.now (shape_of right.now) band }
{
    let sides = greatest_in(left, band).max(greatest_in(right, band));
    Sums::own_in(entry, band).max(sides)
}
