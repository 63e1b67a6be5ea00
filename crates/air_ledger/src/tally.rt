ghost use Rattle.std.specs.Prelude.{◌≡◌, ◌+◌, ◌≤◌, ◌^◌};
ghost use Rattle.air_ledger.specs.Tills.{all_parts};

use crate::{Ledger, Till};
use std::marker::Model;
use std::sync::ledger::Book;

/// All airtime that was counted in a ledger of 65,536 parts, in microseconds. Contracts see it as that number.
#[derive(Drop)]
pub struct Tally<B: Ledger> {
    book: Book<B>,
    total: u64,
}

impl<B: Ledger> Model for Tally<B> {
    ghost use Rattle.std.specs.Prelude.{◌≡◌, ℕ};
    ghost use Rattle.air_ledger.specs.Tills.{all_parts};

    ghost Value = { ℕ };

    ghost view = { λ t. t.total };

    ghost invariant = { λ t. (t.book.total ≡ t.total) × (B.parts ≡ all_parts) };
}

impl<B: Ledger> Tally<B> {
    /// A tally of a ledger in which nothing was counted.
    pub(crate) fn new(book: Book<B>) -> Self
        requires total { book.total ≡ 0 }
        requires parts { B.parts ≡ all_parts }
        ensures { result ≡ 0 }
    {
        Tally { book, total: 0 }
    }

    /// What was counted, in microseconds. Takes no memory.
    pub fn total(&self) -> u64
        ensures { result ≡ self.now }
    {
        self.total
    }

    /// Counts an airtime, in microseconds, with a till of the same ledger; the total stays within 2^62. Takes no memory.
    pub fn add(&mut self, till: &mut Till<B>, airtime: u64)
        requires { self.old + airtime ≤ 2 ^ 62 }
        ensures total { self.new ≡ self.old + airtime }
        ensures amount { till.new ≡ record till.old { amount = till.old.amount + airtime } }
    {
        till.count(&mut self.book, airtime);
        self.total += airtime;
    }

    /// Tells of a till with all parts of the ledger that its amount is the total; changes nothing. Takes no memory.
    pub fn audit(&mut self, till: &mut Till<B>)
        requires { till.old.parts ≡ all_parts }
        ensures whole { till.old.amount ≡ self.old }
        ensures total { self.new ≡ self.old }
        ensures till { till.new ≡ till.old }
    {
        till.show(&mut self.book);
    }
}
