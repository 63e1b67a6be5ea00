ghost use Rattle.std.specs.Prelude.{◌≡◌, ◌+◌, ◌≤◌, ◌<◌, ◌^◌, map, true};
ghost use Rattle.radio_bands.specs.declared.band.Band.{Band as SubBand};
ghost use Rattle.resv_tree.specs.Entries.{IsByKey, Each, moved_in, CanMoveIn};
ghost use Rattle.resv_tree.specs.Shape.{shape_of, entries, IsWhole, count_of, height_of, greatest_of};
ghost use Rattle.resv_tree.specs.Sums.{quarters_in, IsOnly};

use crate::node::{Link, renew, settle};
use crate::owed::hand;
use crate::sums::Sums;
use radio_bands::Band;
use resv_list::MAX_MEMBERS;
use std::alloc::Allocator;

/// The end of a stretch without one.
const NO_END: u64 = u64::MAX;

/// In the tree the own hour of each member that begins from `from` on and before `to` has so much more, and then so much less,
/// both in one sub-band alone; takes no memory. Below a node of the stretch only one of its ends is left on either side, so it is
/// two walks at most, and each tree beside them that lies within is written at its top alone.
#[tactic(auto, using(crate::proofs::StretchLemmas::shifting))]
pub(crate) fn shift<A: Allocator + Clone>(
    link: &mut Link<A>,
    from: u64,
    to: u64,
    band: Band,
    more: &Sums,
    less: &Sums,
)
    requires whole { IsWhole (shape_of link.old) }
    requires by_key { IsByKey (entries (shape_of link.old)) }
    requires room { count_of (shape_of link.old) ≤ MAX_MEMBERS }
    requires fits { (band : SubBand) → greatest_of (shape_of link.old) band + quarters_in more.now band < 2 ^ 32 }
    requires covered { Each (CanMoveIn from to (quarters_in more.now) (quarters_in less.now)) (entries (shape_of link.old)) }
    requires only { IsOnly band (quarters_in more.now) (quarters_in less.now) }
    ensures entries { entries (shape_of link.new)
        ≡ map (moved_in from to (quarters_in more.now) (quarters_in less.now)) (entries (shape_of link.old)) }
    ensures count { count_of (shape_of link.new) ≡ count_of (shape_of link.old) }
    ensures height { height_of (shape_of link.new) ≡ height_of (shape_of link.old) }
    ensures whole { IsWhole (shape_of link.new) }
{
    if is_endless(from, to) {
        return hand(link, more, less);
    }
    let Some(top) = link else { return };
    let node = &mut **top;
    settle(node);
    let start = node.entry().reservation.start;
    if start < from {
        shift(&mut node.right, from, to, band, more, less);
        return renew(node, band);
    }
    if to <= start {
        shift(&mut node.left, from, to, band, more, less);
        return renew(node, band);
    }
    shift(&mut node.left, from, NO_END, band, more, less);
    shift(&mut node.right, 0, to, band, more, less);
    node.move_entry(band, more, less);
    renew(node, band);
}

/// Whether the stretch leaves out no moment that a member begins at.
fn is_endless(from: u64, to: u64) -> bool
    ensures start { result ≡ true → from ≡ 0 }
    ensures end { result ≡ true → to ≡ 18446744073709551615 }
{
    from == 0 && to == NO_END
}
