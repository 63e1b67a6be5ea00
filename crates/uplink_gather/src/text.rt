// Bytes as keys of an index.
ghost use Rattle.std.specs.Prelude.{[], ◌∷◌};
ghost use Rattle.std.proofs.Common.{ap};
ghost use Rattle.std.specs.Cmp.{on_equiv, on_per, partial_equiv_from_equiv};
ghost use Rattle.std.specs.Cmp.Lexicographic.{bytes_decides, nat_list_eq_equiv};
ghost use Rattle.std.specs.Str.{bytes_eq};

use indexmap::Equivalent;
use std::alloc::Allocator;
use std::hash::{Hash, Hasher};

/// The bytes of an uplink as an index keeps them. A hasher takes them by one write; the bytes of a vector it takes one by one.
#[derive(Drop)]
pub(crate) struct Text<A: Allocator> {
    pub(crate) bytes: Vec<u8, A>,
}

impl<A: Allocator> PartialEq for Text<A> {
    ghost eq = { λ x y. bytes_eq x.bytes.items y.bytes.items };

    ghost laws = { on_per (λ x. x.bytes.items) (partial_equiv_from_equiv nat_list_eq_equiv) };

    fn eq(&self, other: &Self) -> bool {
        self.bytes.as_slice() == other.bytes.as_slice()
    }
}

impl<A: Allocator> Eq for Text<A> {
    ghost laws = { on_equiv (λ x. x.bytes.items) nat_list_eq_equiv };
}

impl<A: Allocator> Hash for Text<A> {
    ghost hash_input = { λ x. x.bytes.items ∷ [] };

    ghost respects_eq = { λ x y same. ap (λ bytes. bytes ∷ []) ((bytes_decides x.bytes.items y.bytes.items).0 same) };

    fn hash<H: Hasher>(&self, state: &mut H) {
        state.write(self.bytes.as_slice());
    }
}

/// Bytes that are looked for.
#[derive(Clone, Copy)]
pub(crate) struct Sought<'b> {
    pub(crate) bytes: &'b [u8],
}

impl PartialEq for Sought<'_> {
    ghost eq = { λ x y. bytes_eq x.bytes.now y.bytes.now };

    ghost laws = { on_per (λ x. x.bytes.now) (partial_equiv_from_equiv nat_list_eq_equiv) };

    fn eq(&self, other: &Self) -> bool {
        self.bytes == other.bytes
    }
}

impl Eq for Sought<'_> {
    ghost laws = { on_equiv (λ x. x.bytes.now) nat_list_eq_equiv };
}

impl Hash for Sought<'_> {
    ghost hash_input = { λ x. x.bytes.now ∷ [] };

    ghost respects_eq = { λ x y same. ap (λ bytes. bytes ∷ []) ((bytes_decides x.bytes.now y.bytes.now).0 same) };

    fn hash<H: Hasher>(&self, state: &mut H) {
        state.write(self.bytes);
    }
}

impl<A: Allocator> Equivalent<Text<A>> for Sought<'_> {
    ghost equivalent = { λ q k. bytes_eq q.bytes.now k.bytes.items };

    ghost respects_hash = { λ q k same. ap (λ bytes. bytes ∷ []) ((bytes_decides q.bytes.now k.bytes.items).0 same) };

    ghost respects_eq = { λ q x y. nat_list_eq_equiv.congr q.bytes.now x.bytes.items y.bytes.items };

    fn equivalent(&self, key: &Text<A>) -> bool {
        self.bytes == key.bytes.as_slice()
    }
}
