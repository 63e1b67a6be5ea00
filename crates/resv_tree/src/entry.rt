ghost use Rattle.std.specs.Prelude.{◌≡◌, ◌+◌, ◌-◌, ◌≤◌, ◌^◌, max};
ghost use Rattle.resv_tree.specs.Sums.{quarters_in, IsOnly};
ghost use Rattle.resv_tree.specs.Entries.{amount, moved};

use crate::sums;
use crate::sums::Sums;
use radio_bands::Band;
use resv_list::Reservation;

/// What a node keeps of one member; its key is its start.
#[derive(Clone, Copy)]
pub(crate) struct Entry {
    pub(crate) reservation: Reservation,
    /// The airtime of the member's own hour: what begins of its sub-band within the hour that opens at its start, in
    /// quarters of the shortest symbol, less what the nodes above still owe it.
    pub(crate) own: u32,
}

impl Entry {
    /// The entry with so much more, and then so much less, in its own hour, by its sub-band.
    pub(crate) fn moved(&self, more: &Sums, less: &Sums) -> Entry
        requires fits { self.now.own - amount (quarters_in less.now) self.now.reservation
            + amount (quarters_in more.now) self.now.reservation
            ≤ max (amount (quarters_in more.now) self.now.reservation) (2 ^ 32 - 1) }
        ensures { result ≡ moved (quarters_in more.now) (quarters_in less.now) self.now }
    {
        let band = self.reservation.band();
        Entry {
            reservation: self.reservation,
            own: sums::moved(self.own, more.quarters(band), less.quarters(band)),
        }
    }

    /// The same where there is more and less in one sub-band alone.
    pub(crate) fn moved_only(&self, band: Band, more: &Sums, less: &Sums) -> Entry
        requires fits { self.now.own - amount (quarters_in less.now) self.now.reservation
            + amount (quarters_in more.now) self.now.reservation
            ≤ max (amount (quarters_in more.now) self.now.reservation) (2 ^ 32 - 1) }
        requires only { IsOnly band (quarters_in more.now) (quarters_in less.now) }
        ensures { result ≡ moved (quarters_in more.now) (quarters_in less.now) self.now }
    {
        if !self.reservation.is_in(band) {
            return *self;
        }
        let own = sums::moved(self.own, more.quarters(band), less.quarters(band));
        Entry {
            reservation: self.reservation,
            own,
        }
    }
}
