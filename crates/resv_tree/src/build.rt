// A tree that is made of a list by start at once.
ghost use Rattle.std.specs.Prelude.{◌≡◌, ◌≤◌, length, IfOk};
ghost use Rattle.resv_tree.specs.Filling.{IsBuilt};
ghost use Rattle.resv_tree.specs.Shape.{shape_of, entry_of};

use crate::entry::Entry;
use crate::forks::fork;
use crate::hours::Hours;
use crate::node::{Link, Node};
use std::alloc::{AllocError, Allocator};

/// A tree of the next `count` members: half of them stand to the left of its top. Where there is no memory for all of them,
/// what was made is dropped.
pub(crate) fn build<A: Allocator + Clone>(
    hours: &mut Hours,
    count: usize,
    alloc: &A,
) -> Result<Link<A>, AllocError>
    requires { count ≤ length hours.old.left.now }
    ensures { IfOk result (λ link. IsBuilt (shape_of link) hours.old.left.now hours.new.left.now count) }
{
    if count == 0 {
        return Ok(None);
    }
    let left = build(hours, count / 2, alloc)?;
    let top = made(hours.next(), alloc)?;
    let right = build(hours, count - 1 - count / 2, alloc)?;
    Ok(Some(fork(left, top, right)))
}

/// A node of its own for an entry.
fn made<A: Allocator + Clone>(entry: Entry, alloc: &A) -> Result<Box<Node<A>, A>, AllocError>
    ensures { IfOk result (λ node. entry_of node.value ≡ entry) }
{
    let Ok(node) = Box::new(alloc.clone()?, Node::apart(entry)) else {
        return Err(AllocError);
    };
    Ok(node)
}
