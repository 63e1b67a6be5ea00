ghost use Rattle.std.specs.Prelude.{◌≡◌, ◌+◌, ◌-◌, ◌*◌, ◌≤◌, ◌<◌, ◌^◌, ◌≢◌, max, if◌then◌else◌};
ghost use Rattle.radio_bands.specs.declared.band.Band.{Band as SubBand};
ghost use Rattle.resv_list.specs.Reservations.{airtime_in};
ghost use Rattle.resv_tree.specs.Entries.{own_in};

use crate::entry::Entry;
use radio_bands::Band;
use resv_list::Reservation;

/// A quarter of the shortest symbol, in microseconds. A time on air is a whole number of them at each data rate: every symbol is
/// the shortest one a whole number of times, and the preamble ends with a quarter of a symbol.
pub(crate) const QUARTER_US: u64 = 128;

/// The airtime of some members in each sub-band, in quarters of the shortest symbol, so that 65,536 members have room.
#[derive(Clone, Copy)]
pub(crate) struct Sums {
    k: u32,
    l: u32,
    m: u32,
    n: u32,
    p: u32,
    q: u32,
}

impl Sums {
    ghost use Rattle.resv_tree.specs.Sums.{sum_in, quarters_in, sum_of_all, is_same};

    /// The sums of no member.
    pub(crate) const NONE: Sums = Sums {
        k: 0,
        l: 0,
        m: 0,
        n: 0,
        p: 0,
        q: 0,
    };

    /// The airtime in the sub-band, in microseconds.
    pub(crate) fn in_band(&self, band: Band) -> u64
        ensures { result ≡ sum_in self.now band }
    {
        QUARTER_US * self.quarters(band) as u64
    }

    /// The same in quarters.
    pub(crate) fn quarters(&self, band: Band) -> u32
        ensures { result ≡ quarters_in self.now band }
    {
        match band {
            Band::K => self.k,
            Band::L => self.l,
            Band::M => self.m,
            Band::N => self.n,
            Band::P => self.p,
            Band::Q => self.q,
        }
    }

    /// The airtime in all sub-bands, in microseconds.
    pub(crate) fn total(&self) -> u64
        ensures { result ≡ sum_of_all self.now }
    {
        let first = self.k as u64 + self.l as u64 + self.m as u64;
        QUARTER_US * (first + self.n as u64 + self.p as u64 + self.q as u64)
    }

    /// The sums of two sides and the member between them.
    pub(crate) fn around(left: &Sums, entry: &Reservation, right: &Sums) -> Sums
        requires fits { (band : SubBand) → sum_in left.now band + sum_in right.now band + 2 ^ 22 ≤ 2 ^ 39 }
        ensures value { (band : SubBand) → sum_in result band
            ≡ sum_in left.now band + airtime_in band entry.now + sum_in right.now band }
        ensures short { (band : SubBand) → airtime_in band entry.now < 2 ^ 22 }
    {
        let mut sums = left.plus(right);
        sums.add(entry);
        sums
    }

    /// The sums of two sides.
    pub(crate) fn plus(&self, other: &Sums) -> Sums
        requires fits { (band : SubBand) → sum_in self.now band + sum_in other.now band < 2 ^ 39 }
        ensures { (band : SubBand) → sum_in result band ≡ sum_in self.now band + sum_in other.now band }
    {
        Sums {
            k: self.plus_in(other, Band::K),
            l: self.plus_in(other, Band::L),
            m: self.plus_in(other, Band::M),
            n: self.plus_in(other, Band::N),
            p: self.plus_in(other, Band::P),
            q: self.plus_in(other, Band::Q),
        }
    }

    /// The same in one sub-band.
    fn plus_in(&self, other: &Sums, band: Band) -> u32
        requires fits { sum_in self.now band + sum_in other.now band < 2 ^ 39 }
        ensures { 128 * result ≡ sum_in self.now band + sum_in other.now band }
    {
        self.quarters(band) + other.quarters(band)
    }

    /// Takes in one member more, which has airtime in its own sub-band alone.
    fn add(&mut self, member: &Reservation)
        requires fits { (band : SubBand) → sum_in self.old band + 2 ^ 22 ≤ 2 ^ 39 }
        ensures value { (band : SubBand) → sum_in self.new band ≡ sum_in self.old band + airtime_in band member.now }
        ensures short { (band : SubBand) → airtime_in band member.now < 2 ^ 22 }
    {
        let band = member.band();
        let airtime = (member.airtime() / QUARTER_US) as u32;
        self.put(band, self.quarters(band) + airtime);
    }

    /// These sums, of which `old` is a part, with `new` in place of that part.
    pub(crate) fn exchanged(&self, old: &Sums, new: &Sums) -> Sums
        requires covers { (band : SubBand) → sum_in old.now band ≤ sum_in self.now band }
        requires fits { (band : SubBand) → sum_in self.now band + sum_in new.now band < 2 ^ 39 + sum_in old.now band }
        ensures { (band : SubBand) → sum_in result band ≡ sum_in self.now band - sum_in old.now band + sum_in new.now band }
    {
        Sums {
            k: self.exchanged_in(old, new, Band::K),
            l: self.exchanged_in(old, new, Band::L),
            m: self.exchanged_in(old, new, Band::M),
            n: self.exchanged_in(old, new, Band::N),
            p: self.exchanged_in(old, new, Band::P),
            q: self.exchanged_in(old, new, Band::Q),
        }
    }

    /// The same in one sub-band.
    fn exchanged_in(&self, old: &Sums, new: &Sums, band: Band) -> u32
        requires covers { sum_in old.now band ≤ sum_in self.now band }
        requires fits { sum_in self.now band + sum_in new.now band < 2 ^ 39 + sum_in old.now band }
        ensures { 128 * result ≡ sum_in self.now band - sum_in old.now band + sum_in new.now band }
    {
        self.quarters(band) - old.quarters(band) + new.quarters(band)
    }

    /// The airtime of the entry's own hour in its own sub-band, and 0 in each other one.
    pub(crate) fn own(entry: &Entry) -> Sums
        ensures { (band : SubBand) → quarters_in result band ≡ own_in band entry.now }
    {
        let mut sums = Sums::NONE;
        sums.put(entry.reservation.band(), entry.own);
        sums
    }

    /// The same in one sub-band.
    pub(crate) fn own_in(entry: &Entry, band: Band) -> u32
        ensures { result ≡ own_in band entry.now }
    {
        if entry.reservation.is_in(band) {
            entry.own
        } else {
            0
        }
    }

    /// Has another amount in one sub-band.
    pub(crate) fn put(&mut self, band: Band, amount: u32)
        ensures { (other : SubBand) → quarters_in self.new other
            ≡ (if is_same other band then amount else quarters_in self.old other) }
    {
        match band {
            Band::K => self.k = amount,
            Band::L => self.l = amount,
            Band::M => self.m = amount,
            Band::N => self.n = amount,
            Band::P => self.p = amount,
            Band::Q => self.q = amount,
        }
    }

    /// The greater ones.
    pub(crate) fn greater(&self, other: &Sums) -> Sums
        ensures { (band : SubBand) → quarters_in result band ≡ max (quarters_in self.now band) (quarters_in other.now band) }
    {
        Sums {
            k: self.k.max(other.k),
            l: self.l.max(other.l),
            m: self.m.max(other.m),
            n: self.n.max(other.n),
            p: self.p.max(other.p),
            q: self.q.max(other.q),
        }
    }

    /// So much more, and then so much less, in each sub-band in which there is something.
    pub(crate) fn moved(&self, more: &Sums, less: &Sums, there: &Sums) -> Sums
        requires fits { (band : SubBand) → quarters_in self.now band - quarters_in less.now band + quarters_in more.now band
            ≤ max (quarters_in more.now band) (2 ^ 32 - 1) }
        ensures some { (band : SubBand) → sum_in there.now band ≢ 0
            → quarters_in result band ≡ quarters_in self.now band + quarters_in more.now band - quarters_in less.now band }
        ensures none { (band : SubBand) → sum_in there.now band ≡ 0 → quarters_in result band ≡ 0 }
    {
        Sums {
            k: self.moved_in(more, less, there, Band::K),
            l: self.moved_in(more, less, there, Band::L),
            m: self.moved_in(more, less, there, Band::M),
            n: self.moved_in(more, less, there, Band::N),
            p: self.moved_in(more, less, there, Band::P),
            q: self.moved_in(more, less, there, Band::Q),
        }
    }

    /// The same in one sub-band.
    fn moved_in(&self, more: &Sums, less: &Sums, there: &Sums, band: Band) -> u32
        requires fits { quarters_in self.now band - quarters_in less.now band + quarters_in more.now band
            ≤ max (quarters_in more.now band) (2 ^ 32 - 1) }
        ensures some { sum_in there.now band ≢ 0
            → result ≡ quarters_in self.now band + quarters_in more.now band - quarters_in less.now band }
        ensures none { sum_in there.now band ≡ 0 → result ≡ 0 }
    {
        if there.in_band(band) == 0 {
            return 0;
        }
        moved(
            self.quarters(band),
            more.quarters(band),
            less.quarters(band),
        )
    }
}

/// So much more, and then so much less; the sum itself need not fit.
pub(crate) fn moved(amount: u32, more: u32, less: u32) -> u32
    requires fits { amount - less + more ≤ max more (2 ^ 32 - 1) }
    ensures { result ≡ amount + more - less }
{
    if more >= less {
        return amount + (more - less);
    }
    amount.saturating_sub(less - more)
}
