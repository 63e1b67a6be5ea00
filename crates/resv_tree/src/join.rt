ghost use Rattle.std.specs.Prelude.{◌≡◌, ◌+◌, ◌≤◌, ◌<◌, ◌&&◌, nat_le};
ghost use Rattle.resv_tree.specs.Shape.{shape, shape_of, entry_of, kept_of, IsWhole, IsBeside, height_of, count_of};
ghost use Rattle.resv_tree.specs.Parts.{IsMadeOf, IsJoined, LacksOne};
ghost use Rattle.resv_tree.specs.Sums.{quarters_in, sum_in};

use crate::forks::{fork, with_left, with_one_more, with_right};
use crate::kept::Kept;
use crate::node::{Link, Node, open};
use crate::sums::Sums;
use crate::told::height;
use resv_list::MAX_MEMBERS;
use std::alloc::Allocator;

/// The tree of two sides, of any heights, and a node between them: it goes down the higher side until both are
/// level, and balances on the way back.
pub(crate) fn join<A: Allocator + Clone>(
    left: Link<A>,
    middle: Box<Node<A>, A>,
    right: Link<A>,
) -> Box<Node<A>, A>
    requires left { IsWhole (shape_of left) }
    requires right { IsWhole (shape_of right) }
    requires room { count_of (shape_of left) + count_of (shape_of right) < MAX_MEMBERS }
    ensures { IsJoined (shape result.value) (shape_of left) (entry_of middle.value) (shape_of right) }
{
    let (left_height, right_height) = (height(&left), height(&right));
    if left_height > right_height + 1 {
        let (outer, top, inner) = open_high(left);
        let joined = join(inner, middle, right);
        return balance(outer, top, Some(joined));
    }
    if right_height > left_height + 1 {
        let (inner, top, outer) = open_high(right);
        let joined = join(left, middle, inner);
        return balance(Some(joined), top, outer);
    }
    fork(left, middle, right)
}

/// The tree of a node whose sides were taken out of it, with another left side than the one of which `old` tells. Where
/// the sides are level it looks at nothing to the right.
pub(crate) fn join_left<A: Allocator + Clone>(
    left: Link<A>,
    top: Box<Node<A>, A>,
    old: &Kept,
    right: Link<A>,
) -> Box<Node<A>, A>
    requires left { IsWhole (shape_of left) }
    requires right { IsWhole (shape_of right) }
    requires height { (kept_of top.value).right_height ≡ height_of (shape_of right) }
    requires beside { IsBeside (kept_of top.value) (shape_of right) (entry_of top.value) old.now }
    requires room { count_of (shape_of left) + count_of (shape_of right) < MAX_MEMBERS }
    ensures { IsJoined (shape result.value) (shape_of left) (entry_of top.value) (shape_of right) }
{
    if are_level(height(&left), top.kept().right_height as u32) {
        return with_left(left, top, old, right);
    }
    join(left, top, right)
}

/// The same with another right side; where the sides are level it looks at nothing to the left.
pub(crate) fn join_right<A: Allocator + Clone>(
    left: Link<A>,
    top: Box<Node<A>, A>,
    old: &Kept,
    right: Link<A>,
) -> Box<Node<A>, A>
    requires left { IsWhole (shape_of left) }
    requires right { IsWhole (shape_of right) }
    requires height { (kept_of top.value).left_height ≡ height_of (shape_of left) }
    requires beside { IsBeside (kept_of top.value) (shape_of left) (entry_of top.value) old.now }
    requires room { count_of (shape_of left) + count_of (shape_of right) < MAX_MEMBERS }
    ensures { IsJoined (shape result.value) (shape_of left) (entry_of top.value) (shape_of right) }
{
    if are_level(top.kept().left_height as u32, height(&right)) {
        return with_right(left, top, old, right);
    }
    join(left, top, right)
}

/// The same where one of the sides has one entry more than what is kept, of which this is the airtime and the own hour; where the
/// sides are level it looks at their heights alone.
pub(crate) fn grow<A: Allocator + Clone>(
    left: Link<A>,
    top: Box<Node<A>, A>,
    right: Link<A>,
    airtime: &Sums,
    own: &Sums,
) -> Box<Node<A>, A>
    requires left { IsWhole (shape_of left) }
    requires right { IsWhole (shape_of right) }
    requires lacks { LacksOne (kept_of top.value) (shape_of left) (entry_of top.value) (shape_of right)
        (sum_in airtime.now) (quarters_in own.now) }
    requires room { count_of (shape_of left) + count_of (shape_of right) < MAX_MEMBERS }
    ensures { IsJoined (shape result.value) (shape_of left) (entry_of top.value) (shape_of right) }
{
    if are_level(height(&left), height(&right)) {
        return with_one_more(left, top, right, airtime, own);
    }
    join(left, top, right)
}

/// Whether neither height is more than one above the other.
fn are_level(left: u32, right: u32) -> bool
    ensures { result ≡ nat_le left (right + 1) && nat_le right (left + 1) }
{
    left.abs_diff(right) <= 1
}

/// The tree of two sides, of which one may be two levels higher, and a node between them.
fn balance<A: Allocator + Clone>(
    left: Link<A>,
    middle: Box<Node<A>, A>,
    right: Link<A>,
) -> Box<Node<A>, A>
    requires left { IsWhole (shape_of left) }
    requires right { IsWhole (shape_of right) }
    requires not_higher { height_of (shape_of left) ≤ height_of (shape_of right) + 2 }
    requires not_lower { height_of (shape_of right) ≤ height_of (shape_of left) + 2 }
    requires room { count_of (shape_of left) + count_of (shape_of right) < MAX_MEMBERS }
    ensures { IsJoined (shape result.value) (shape_of left) (entry_of middle.value) (shape_of right) }
{
    let (left_height, right_height) = (height(&left), height(&right));
    if left_height > right_height + 1 {
        return rotate_right(left, middle, right);
    }
    if right_height > left_height + 1 {
        return rotate_left(left, middle, right);
    }
    fork(left, middle, right)
}

/// The same where the left side is two levels higher.
fn rotate_right<A: Allocator + Clone>(
    left: Link<A>,
    middle: Box<Node<A>, A>,
    right: Link<A>,
) -> Box<Node<A>, A>
    requires left { IsWhole (shape_of left) }
    requires right { IsWhole (shape_of right) }
    requires higher { height_of (shape_of left) ≡ height_of (shape_of right) + 2 }
    requires room { count_of (shape_of left) + count_of (shape_of right) < MAX_MEMBERS }
    ensures { IsJoined (shape result.value) (shape_of left) (entry_of middle.value) (shape_of right) }
{
    let (outer, top, inner) = open_high(left);
    if height(&inner) <= height(&outer) {
        let lower = fork(inner, middle, right);
        return fork(outer, top, Some(lower));
    }
    let (near, inmost, far) = open_high(inner);
    let before = fork(outer, top, near);
    let behind = fork(far, middle, right);
    fork(Some(before), inmost, Some(behind))
}

/// The same where the right side is two levels higher.
fn rotate_left<A: Allocator + Clone>(
    left: Link<A>,
    middle: Box<Node<A>, A>,
    right: Link<A>,
) -> Box<Node<A>, A>
    requires left { IsWhole (shape_of left) }
    requires right { IsWhole (shape_of right) }
    requires higher { height_of (shape_of right) ≡ height_of (shape_of left) + 2 }
    requires room { count_of (shape_of left) + count_of (shape_of right) < MAX_MEMBERS }
    ensures { IsJoined (shape result.value) (shape_of left) (entry_of middle.value) (shape_of right) }
{
    let (inner, top, outer) = open_high(right);
    if height(&inner) <= height(&outer) {
        let lower = fork(left, middle, inner);
        return fork(Some(lower), top, outer);
    }
    let (far, inmost, near) = open_high(inner);
    let before = fork(left, middle, far);
    let behind = fork(near, top, outer);
    fork(Some(before), inmost, Some(behind))
}

/// The parts of a tree that is higher than another.
fn open_high<A: Allocator + Clone>(link: Link<A>) -> (Link<A>, Box<Node<A>, A>, Link<A>)
    requires whole { IsWhole (shape_of link) }
    requires high { 0 < height_of (shape_of link) }
    ensures { IsMadeOf (shape_of link) (shape_of result.0) (entry_of result.1.value) (shape_of result.2) }
{
    let Some(top) = link else { unreachable!() };
    open(top)
}
