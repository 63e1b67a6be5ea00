ghost use Rattle.std.specs.Prelude.{◌≡◌, [], IfOk, OnErr};
ghost use Rattle.uplink_gather.specs.Indexed.{number_of, text_at, Renews};

use crate::text::{Sought, Text};
use indexmap::IndexMap;
use std::alloc::{AllocError, Allocator};
use std::hash::BuildHasher;
use std::marker::Model;

/// Each text of bytes that was ever heard, with the number of its newest gathering, by a hash of the
/// bytes. A text keeps the place at which it was first put.
#[derive(Drop)]
pub(crate) struct Newest<S: BuildHasher, A: Allocator> {
    numbers: IndexMap<Text<A>, u64, S, A>,
}

impl<S: BuildHasher, A: Allocator> Model for Newest<S, A> {
    ghost use Rattle.std.specs.Prelude.{ℕ, List, map};

    ghost Value = { List (List ℕ × ℕ) };

    ghost view = { λ n. map (λ e. (e.0.bytes.items, e.1)) n.numbers.entries };
}

impl<S: BuildHasher, A: Allocator + Copy> Newest<S, A> {
    /// No texts; takes no memory.
    pub(crate) fn new(alloc: A, hasher: S) -> Self
        ensures { result ≡ [] }
    {
        Newest {
            numbers: IndexMap::with_hasher(alloc, hasher),
        }
    }

    /// Leads from these bytes to this number, and answers their place. A refusal changes nothing. The bytes are copied even
    /// where they stand there, so that one look-up serves.
    pub(crate) fn renew(&mut self, bytes: &[u8], number: u64) -> Result<usize, AllocError>
        ensures renewed { IfOk result (Renews self.old self.new bytes.now number) }
        ensures refused { OnErr result (self.new ≡ self.old) }
    {
        let text = Vec::from_slice(*self.numbers.allocator(), bytes)?;
        let (place, _) = self.numbers.insert_full(Text { bytes: text }, number)?;
        Ok(place)
    }
}

impl<S: BuildHasher, A: Allocator> Newest<S, A> {
    /// The number of the newest gathering of these bytes.
    pub(crate) fn number_of(&self, bytes: &[u8]) -> Option<u64>
        ensures { result ≡ number_of bytes.now self.now }
    {
        self.numbers.get(Sought { bytes }).copied()
    }

    /// The bytes at a place, and none past the end.
    pub(crate) fn text(&self, place: usize) -> &[u8]
        ensures { result.now ≡ text_at self.now place }
    {
        match self.numbers.get_index(place) {
            Some((text, _)) => text.bytes.as_slice(),
            None => &[],
        }
    }
}
