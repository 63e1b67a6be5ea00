ghost use Rattle.std.specs.Prelude.{◌≡◌};

use std::alloc::Allocator;
use std::marker::Model;

/// Bytes on an allocator, seen as their list.
#[derive(Drop)]
pub struct Bytes<A: Allocator> {
    items: Vec<u8, A>,
}

impl<A: Allocator> Model for Bytes<A> {
    ghost use Rattle.std.specs.Prelude.{ℕ, List};

    ghost Value = { List ℕ };

    ghost view = { λ b. b.items.items };
}

impl<A: Allocator> Bytes<A> {
    /// The bytes of a vector; takes no memory.
    pub fn new(items: Vec<u8, A>) -> Self
        ensures { result ≡ items.items }
    {
        Bytes { items }
    }

    /// The bytes; takes no memory.
    pub fn as_slice(&self) -> &[u8]
        ensures { result.now ≡ self.now }
    {
        self.items.as_slice()
    }
}
