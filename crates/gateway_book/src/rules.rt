// The same book under other rules.
ghost use Rattle.std.specs.Prelude.{◌≡◌, ◌↔◌, IsTrue, IsOk, IfOk, IfErr};
ghost use Rattle.resv_list.specs.Reservations.{start_of};
ghost use Rattle.gateway_book.specs.Book.{IsBookList, with_rules};
ghost use Rattle.gateway_book.specs.Disjoint.{rested_from};
ghost use Rattle.gateway_book.specs.Lawful.{AreApart};
ghost use Rattle.gateway_book.specs.Spaced.{SpacedFrom};

use crate::overlap::rested_from;
use crate::{GatewayBook, open_fault};
use resv_list::Roster;

impl<R: Roster> GatewayBook<R> {
    /// The book under another cap, 1 to 65,536 transmissions, and another gap, 0 to 100,000 microseconds. An `Err` hands it back as
    /// it was: the cap or the gap is outside, the book keeps more than the cap, or two of its transmissions are closer than
    /// the gap. It looks at each transmission where the gap grows, and takes no memory.
    pub fn with_rules(self, cap: u32, gap: u32) -> Result<Self, Self>
        ensures kept { IsOk result ↔ IsBookList (record { cap = cap; gap = gap }) self.floor self.booked self.list }
        ensures changed { IfOk result (λ b. b ≡ with_rules self (record { cap = cap; gap = gap })) }
        ensures refused { IfErr result (λ b. b ≡ self) }
    {
        if !self.may_have(cap, gap) {
            return Err(self);
        }
        Ok(GatewayBook { cap, gap, ..self })
    }

    /// Whether the book may have these rules.
    fn may_have(&self, cap: u32, gap: u32) -> bool
        ensures { IsTrue result ↔ IsBookList (record { cap = cap; gap = gap }) self.now.floor self.now.booked self.now.list }
    {
        open_fault(cap, gap).is_none() && self.roster.len() <= cap as usize && self.keeps_gap(gap)
    }

    /// Whether there is this gap between each two transmissions, in microseconds.
    fn keeps_gap(&self, gap: u32) -> bool
        ensures { IsTrue result ↔ AreApart gap self.now.list }
    {
        gap <= self.gap || are_spaced(&self.roster, gap)
    }
}

/// Whether each member begins no earlier than the gap behind the one before it has passed.
fn are_spaced<R: Roster>(roster: &R, gap: u32) -> bool
    ensures { IsTrue result ↔ SpacedFrom start_of (rested_from gap) 0 (R.list roster.now) }
{
    let mut rested = 0;
    let mut from = 0;
    while let Some(member) = roster.first_from(from) {
        if member.start < rested {
            return false;
        }
        rested = rested_from(&member, gap);
        from = member.start + 1;
    }
    true
}
