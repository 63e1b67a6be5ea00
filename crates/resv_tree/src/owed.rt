// What a node owes to what stands below it.
ghost use Rattle.std.specs.Prelude.{◌+◌, ◌-◌, ◌≤◌, ◌^◌, max};
ghost use Rattle.radio_bands.specs.declared.band.Band.{Band as SubBand};
ghost use Rattle.resv_tree.specs.Entries.{CanMove, Each};
ghost use Rattle.resv_tree.specs.Parts.{IsMoved};
ghost use Rattle.resv_tree.specs.Shape.{shape_of, entries, IsWhole, greatest_of};
ghost use Rattle.resv_tree.specs.Sums.{quarters_in};

use crate::node::Link;
use crate::sums::Sums;
use std::alloc::Allocator;

/// In the tree the own hour of each member has so much more, and then so much less; only its top is written, which owes that
/// to all below it.
pub(crate) fn hand<A: Allocator + Clone>(link: &mut Link<A>, more: &Sums, less: &Sums)
    requires whole { IsWhole (shape_of link.old) }
    requires fits { (band : SubBand) → greatest_of (shape_of link.old) band - quarters_in less.now band
        + quarters_in more.now band ≤ max (quarters_in more.now band) (2 ^ 32 - 1) }
    requires covered { Each (CanMove (quarters_in more.now) (quarters_in less.now)) (entries (shape_of link.old)) }
    ensures { IsMoved (shape_of link.new) (shape_of link.old) (quarters_in more.now) (quarters_in less.now) }
{
    let Some(top) = link else { return };
    top.owe(more, less);
}
