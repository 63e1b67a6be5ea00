ghost use Rattle.std.specs.Prelude.{◌≡◌, ◌<◌, OnOk, vec_len, vec_capacity};

use crate::HeardCopy;
use std::alloc::{AllocError, Allocator};

/// One gathering. Its bytes stand in the index, at the place `text`.
#[derive(Drop)]
pub(crate) struct Stored<A: Allocator> {
    pub(crate) text: usize,
    /// When it opened, in microseconds of the server's clock.
    pub(crate) opened: u64,
    pub(crate) closed: bool,
    /// In the order in which they joined.
    pub(crate) copies: Vec<HeardCopy, A>,
}

/// Makes room for one copy more: room for as many as there are, from the first on. Most uplinks have two copies, and a
/// vector's own first growth takes room for four. A refusal changes nothing.
pub(crate) fn make_room<A: Allocator>(copies: &mut Vec<HeardCopy, A>) -> Result<(), AllocError>
    ensures same { copies.new.items ≡ copies.old.items }
    ensures len { vec_len copies.new ≡ vec_len copies.old }
    ensures room { OnOk result (vec_len copies.new < vec_capacity copies.new) }
{
    let held = copies.len();
    if held < copies.capacity() {
        return Ok(());
    }
    copies.reserve_exact(held.max(1))
}
