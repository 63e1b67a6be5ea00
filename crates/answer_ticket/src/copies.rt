ghost use Rattle.std.specs.Prelude.{◌≡◌};

use std::alloc::Allocator;
use std::marker::Model;
use uplink_gather::HeardCopy;

/// Copies of an uplink on an allocator, seen as their list.
#[derive(Drop)]
pub struct Copies<A: Allocator> {
    items: Vec<HeardCopy, A>,
}

impl<A: Allocator> Model for Copies<A> {
    ghost use Rattle.std.specs.Prelude.{List};
    ghost use Rattle.uplink_gather.specs.declared.heard.HeardCopy.{HeardCopy as Copy};

    ghost Value = { List Copy };

    ghost view = { λ c. c.items.items };
}

impl<A: Allocator> Copies<A> {
    /// The copies of a vector; takes no memory.
    pub fn new(items: Vec<HeardCopy, A>) -> Self
        ensures { result ≡ items.items }
    {
        Copies { items }
    }

    /// The copies, in the order of the vector; takes no memory.
    pub fn as_slice(&self) -> &[HeardCopy]
        ensures { result.now ≡ self.now }
    {
        self.items.as_slice()
    }
}
