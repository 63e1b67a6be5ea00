ghost use Rattle.std.specs.Prelude.{◌≡◌, ◌+◌, ◌-◌, ◌<◌, ◌≤◌, nat_lt, if◌then◌else◌, Some, None, Err, IfOk, IfErr, IsErr, ◌↔◌};
ghost use Rattle.air_ledger.specs.Tills.{all_parts, together, gathered, parts_of, IsOver};

use crate::{Ledger, PARTS};
use std::alloc::Allocator;
use std::marker::Model;
use std::sync::ledger::{Book, Share};

/// Some parts of a ledger, at least one, and the airtime that was counted with them, in microseconds. Contracts see both;
/// a program sees the parts alone. A till takes part in one ledger, which its type names.
#[derive(Drop)]
pub struct Till<B: Ledger> {
    share: Share<B>,
    parts: u32,
}

impl<B: Ledger> Model for Till<B> {
    ghost use Rattle.std.specs.Prelude.{◌≡◌, ◌≤◌};
    ghost use Rattle.air_ledger.specs.Tills.{Holding, all_parts};

    ghost Value = { Holding };

    ghost view = { λ t. record { parts = t.parts; amount = t.share.amount } };

    ghost invariant = { λ t. (t.share.parts ≡ t.parts) × ((1 ≤ t.parts) × (t.parts ≤ all_parts)) };
}

impl<B: Ledger> Till<B> {
    /// A till of this share.
    pub(crate) fn new(share: Share<B>, parts: u32) -> Self
        requires same { share.parts ≡ parts }
        requires some { 1 ≤ parts }
        requires most { parts ≤ all_parts }
        ensures { result ≡ record { parts = parts; amount = share.amount } }
    {
        Till { share, parts }
    }

    /// Counts an airtime in the book of the ledger.
    pub(crate) fn count(&mut self, book: &mut Book<B>, airtime: u64)
        ensures total { book.new.total ≡ book.old.total + airtime }
        ensures amount { self.new ≡ record self.old { amount = self.old.amount + airtime } }
    {
        book.add(&mut self.share, airtime);
    }

    /// Tells that the amount of all parts is the book's total.
    pub(crate) fn show(&mut self, book: &mut Book<B>)
        ensures whole { self.old.parts ≡ B.parts → self.old.amount ≡ book.old.total }
        ensures total { book.new.total ≡ book.old.total }
        ensures same { self.new ≡ self.old }
    {
        book.audit(&mut self.share);
    }

    /// How many parts of the ledger it has, 1 to 65,536. Takes no memory.
    pub fn parts(&self) -> u32
        ensures parts { result ≡ self.now.parts }
        ensures some { 1 ≤ result }
        ensures most { result ≤ all_parts }
    {
        self.parts
    }

    /// A till with one of its parts, of which it has more than one, and no amount. Takes no memory.
    pub fn split(&mut self) -> Till<B>
        requires { 1 < self.old.parts }
        ensures new { result ≡ record { parts = 1; amount = 0 } }
        ensures left { self.new ≡ record self.old { parts = self.old.parts - 1 } }
    {
        self.parts -= 1;
        Till::new(self.share.split_off(1, 0), 1)
    }

    /// Takes in another till; together they have at most 65,536 parts. Takes no memory.
    pub fn join(&mut self, other: Till<B>)
        requires { self.old.parts + other.parts ≤ all_parts }
        ensures { self.new ≡ together self.old other }
    {
        let Till { share, parts } = other;
        self.share.merge(share);
        self.parts += parts;
    }

    /// How many parts some tills have together; `None` where these are more than a ledger has. Takes no memory.
    pub fn parts_together(tills: &[Till<B>]) -> Option<u32>
        ensures { result ≡ (if nat_lt all_parts (parts_of tills.now) then None else Some (parts_of tills.now)) }
    {
        let mut parts = 0;
        for till in tills {
            parts += till.parts();
            if parts > PARTS {
                return None;
            }
        }
        Some(parts)
    }

    /// All tills as one. Err with the tills as they were where there are none, or where they have more than 65,536 parts.
    /// Takes no memory.
    pub fn gather<A: Allocator>(tills: Vec<Till<B>, A>) -> Result<Till<B>, Vec<Till<B>, A>>
        ensures whole { IfOk result (λ till. till ≡ gathered tills.items) }
        ensures over { IsErr result ↔ IsOver tills.items }
        ensures back { IfErr result (λ back. back.items ≡ tills.items) }
    {
        if Till::parts_together(tills.as_slice()).is_none() {
            return Err(tills);
        }
        let mut tills = tills;
        let Some(mut whole) = tills.pop() else {
            return Err(tills);
        };
        while let Some(till) = tills.pop() {
            whole.join(till);
        }
        Ok(whole)
    }
}
