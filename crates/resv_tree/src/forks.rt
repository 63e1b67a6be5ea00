// Nodes that are made of their two sides, with all that they keep; none takes memory.
ghost use Rattle.std.specs.Prelude.{◌≡◌, ◌+◌, ◌<◌};
ghost use Rattle.radio_bands.specs.declared.band.Band.{Band as SubBand};
ghost use Rattle.resv_list.specs.Reservations.{airtime_in};
ghost use Rattle.resv_tree.specs.Entries.{own_in};
ghost use Rattle.resv_tree.specs.Sums.{quarters_in, sum_in};
ghost use Rattle.resv_tree.specs.Shape.{Leaf, shape, shape_of, entry_of, kept_of, height_of, count_of};
ghost use Rattle.resv_tree.specs.Shape.{IsWhole, IsLevel, IsBeside, HasSides, top_of};
ghost use Rattle.resv_tree.specs.Parts.{IsMadeOf, LacksOne};

use crate::kept::Kept;
use crate::node::{Link, Node, greatest_about};
use crate::sums::Sums;
use crate::told::{kept, levels};
use resv_list::MAX_MEMBERS;
use std::alloc::Allocator;

/// The tree of these parts; takes no memory.
pub(crate) fn fork<A: Allocator + Clone>(
    left: Link<A>,
    top: Box<Node<A>, A>,
    right: Link<A>,
) -> Box<Node<A>, A>
    requires left { IsWhole (shape_of left) }
    requires right { IsWhole (shape_of right) }
    requires level { IsLevel (shape_of left) (shape_of right) }
    requires room { count_of (shape_of left) + count_of (shape_of right) < MAX_MEMBERS }
    ensures made { IsMadeOf (shape result.value) (shape_of left) (entry_of top.value) (shape_of right) }
    ensures whole { IsWhole (shape result.value) }
{
    let entry = top.entry;
    let (before, behind) = (kept(&left), kept(&right));
    let kept = Kept {
        height: before.height.max(behind.height) + 1,
        left_height: before.height,
        right_height: behind.height,
        count: before.count + behind.count + 1,
        owes: false,
        sums: Sums::around(&before.sums, &entry.reservation, &behind.sums),
        greatest: greatest_about(&left, &entry, &right),
    };
    with_sides(left, top, right, kept)
}

/// The tree of a node whose sides were taken out of it, with another left side than the one of which `old` tells; of
/// the right one it looks at the top alone, and takes no memory.
pub(crate) fn with_left<A: Allocator + Clone>(
    left: Link<A>,
    top: Box<Node<A>, A>,
    old: &Kept,
    right: Link<A>,
) -> Box<Node<A>, A>
    requires left { IsWhole (shape_of left) }
    requires right { IsWhole (shape_of right) }
    requires level { IsLevel (shape_of left) (shape_of right) }
    requires height { (kept_of top.value).right_height ≡ height_of (shape_of right) }
    requires beside { IsBeside (kept_of top.value) (shape_of right) (entry_of top.value) old.now }
    requires room { count_of (shape_of left) + count_of (shape_of right) < MAX_MEMBERS }
    ensures made { IsMadeOf (shape result.value) (shape_of left) (entry_of top.value) (shape_of right) }
    ensures whole { IsWhole (shape result.value) }
{
    let (entry, all, new) = (top.entry, top.kept, kept(&left));
    let kept = Kept {
        height: new.height.max(all.right_height) + 1,
        left_height: new.height,
        right_height: all.right_height,
        count: all.count - old.count + new.count,
        owes: false,
        sums: all.sums.exchanged(&old.sums, &new.sums),
        greatest: greatest_about(&left, &entry, &right),
    };
    with_sides(left, top, right, kept)
}

/// The same with another right side; of the left one it looks at the top alone.
pub(crate) fn with_right<A: Allocator + Clone>(
    left: Link<A>,
    top: Box<Node<A>, A>,
    old: &Kept,
    right: Link<A>,
) -> Box<Node<A>, A>
    requires left { IsWhole (shape_of left) }
    requires right { IsWhole (shape_of right) }
    requires level { IsLevel (shape_of left) (shape_of right) }
    requires height { (kept_of top.value).left_height ≡ height_of (shape_of left) }
    requires beside { IsBeside (kept_of top.value) (shape_of left) (entry_of top.value) old.now }
    requires room { count_of (shape_of left) + count_of (shape_of right) < MAX_MEMBERS }
    ensures made { IsMadeOf (shape result.value) (shape_of left) (entry_of top.value) (shape_of right) }
    ensures whole { IsWhole (shape result.value) }
{
    let (entry, all, new) = (top.entry, top.kept, kept(&right));
    let kept = Kept {
        height: all.left_height.max(new.height) + 1,
        left_height: all.left_height,
        right_height: new.height,
        count: all.count - old.count + new.count,
        owes: false,
        sums: all.sums.exchanged(&old.sums, &new.sums),
        greatest: greatest_about(&left, &entry, &right),
    };
    with_sides(left, top, right, kept)
}

/// The tree of one node alone, of whose entry this is the airtime and the own hour; takes no memory.
pub(crate) fn lone<A: Allocator + Clone>(
    node: Box<Node<A>, A>,
    airtime: &Sums,
    own: &Sums,
) -> Box<Node<A>, A>
    requires airtime { (band : SubBand) → sum_in airtime.now band ≡ airtime_in band (entry_of node.value).reservation }
    requires own { (band : SubBand) → quarters_in own.now band ≡ own_in band (entry_of node.value) }
    ensures made { IsMadeOf (shape result.value) Leaf (entry_of node.value) Leaf }
    ensures whole { IsWhole (shape result.value) }
{
    with_sides(None, node, None, Kept::NONE.grown(0, 0, airtime, own))
}

/// The tree of a node whose sides were taken out of it, once one entry more stands in one of them, of which this is the airtime
/// and the own hour; of the sides it looks at the heights alone, and takes no memory.
pub(crate) fn with_one_more<A: Allocator + Clone>(
    left: Link<A>,
    top: Box<Node<A>, A>,
    right: Link<A>,
    airtime: &Sums,
    own: &Sums,
) -> Box<Node<A>, A>
    requires left { IsWhole (shape_of left) }
    requires right { IsWhole (shape_of right) }
    requires level { IsLevel (shape_of left) (shape_of right) }
    requires lacks { LacksOne (kept_of top.value) (shape_of left) (entry_of top.value) (shape_of right)
        (sum_in airtime.now) (quarters_in own.now) }
    requires room { count_of (shape_of left) + count_of (shape_of right) < MAX_MEMBERS }
    ensures made { IsMadeOf (shape result.value) (shape_of left) (entry_of top.value) (shape_of right) }
    ensures whole { IsWhole (shape result.value) }
{
    let kept = top.kept.grown(levels(&left), levels(&right), airtime, own);
    with_sides(left, top, right, kept)
}

/// The node with these sides, of which it keeps this.
fn with_sides<A: Allocator + Clone>(
    left: Link<A>,
    mut top: Box<Node<A>, A>,
    right: Link<A>,
    kept: Kept,
) -> Box<Node<A>, A>
    requires left { IsWhole (shape_of left) }
    requires right { IsWhole (shape_of right) }
    requires sides { HasSides kept (shape_of left) (entry_of top.value) (shape_of right) }
    requires greatest { (band : SubBand) → quarters_in kept.greatest band
        ≡ top_of (shape_of left) (entry_of top.value) (shape_of right) band }
    ensures made { IsMadeOf (shape result.value) (shape_of left) (entry_of top.value) (shape_of right) }
    ensures whole { IsWhole (shape result.value) }
{
    let entry = top.entry;
    *top = Node {
        left,
        entry,
        right,
        kept,
    };
    top
}
