ghost use Rattle.std.specs.Prelude.{◌≡◌, ◌+◌, ◌≤◌, ◌↔◌, [], IsOk, IfOk, IfErr, OnOk, OnErr, MatchOption, IsOkUnless, IsOkAnd};
ghost use Rattle.std.specs.Option.{option_and_then};
ghost use Rattle.gateway_book.specs.Answer.{IsAsked, refusal_of, overfull};
ghost use Rattle.gateway_book.specs.Lawful.{AreApart, IsLawful};
ghost use Rattle.gateway_book.specs.Book.{Admits, IsBookList, trial_book};
ghost use Rattle.gateway_book.specs.Opening.{open_fault};
ghost use Rattle.gateway_book.specs.Book.{terms_of, state_of, with_booked, with_cancelled, ticked, airtime_answer, totals_of};
ghost use Rattle.gateway_book.specs.Remembers.{Remembers};
ghost use Rattle.radio_bands.specs.Band.{band_of};
ghost use Rattle.resv_list.specs.Reservations.{airtime_us};
ghost use Rattle.gateway_book.specs.Busiest.{IsBusiestAnswer, busiest_of};
ghost use Rattle.gateway_book.specs.Step.{book_step, cancel_answer, cancel_step, tick_step};

use crate::ask::fitted;
use crate::busiest::busiest_hour;
use crate::cancel::named;
use crate::duty::full_hour;
use crate::{Ask, CancelFault, MAX_CAP, MAX_GAP, OpenFault, Refusal, Totals, open_fault};
use radio_bands::Band;
use resv_list::{HOUR, Reservation, Roster, airtime_of};
use std::alloc::{AllocError, Allocator};
use std::marker::Model;

/// The greatest total of booked airtime, in microseconds.
const TOTAL_LIMIT: u64 = 1 << 62;

/// A growth was refused: there was no memory.
pub type NoMemory = AllocError;

/// The airtime book of one gateway, over any roster: which transmissions it has reserved. Its type
/// keeps that every member is fit, that members at different places are disjoint with the gateway's gap between them, that in
/// each sub-band the airtime that begins in an hour, wherever the hour opens, is within the band's limit (this
/// project's profile of ETSI EN 300 220-2, duty cycle over one hour, with its sub-bands), and that the
/// booked airtime is the sum of what was cancelled, what was retired and what is kept. It keeps just what began
/// no more than an hour before its floor. Moments are in microseconds of the gateway's clock.
#[derive(Drop)]
pub struct GatewayBook<R: Roster> {
    pub(crate) roster: R,
    pub(crate) id: u16,
    pub(crate) cap: u32,
    pub(crate) gap: u32,
    pub(crate) floor: u64,
    pub(crate) booked: u64,
    pub(crate) cancelled: u64,
    pub(crate) retired: u64,
}

impl<R: Roster> Model for GatewayBook<R> {
    ghost use Rattle.gateway_book.specs.Book.{Book, IsSound};

    ghost Value = { Book };

    ghost view = { λ b. record {
      id = b.id;
      rules = record { cap = b.cap; gap = b.gap };
      floor = b.floor;
      list = R.list b.roster;
      booked =
          b.booked;
      cancelled = b.cancelled;
      retired = b.retired;
    } };

    ghost invariant = { λ b. IsSound (record {
      id = b.id;
      rules = record { cap = b.cap; gap = b.gap };
      floor = b.floor;
      list = R.list b.roster;
      booked = b.booked;
      cancelled = b.cancelled;
      retired = b.retired;
    }) };
}

impl<R: Roster> GatewayBook<R> {
    /// An empty book of gateway `id` that keeps at most `cap` transmissions, 1 to 65,536, with at least `gap` microseconds, 0
    /// to 100,000, between the end of one and the start of the next, over an empty roster. Where the cap or the gap is outside,
    /// the roster is dropped.
    pub fn new(roster: R, id: u16, cap: u32, gap: u32) -> Result<Self, OpenFault>
    where
        R: Drop,
        requires { R.list roster ≡ [] }
        ensures opened { IsOk result ↔ ((1 ≤ cap) × (cap ≤ MAX_CAP) × (gap ≤ MAX_GAP)) }
        ensures fault { IfErr result (λ fault. open_fault (record { cap = cap; gap = gap }) ≡ Some fault) }
        ensures empty { IfOk result (λ b. b ≡ record {
          id = id;
          rules = record { cap = cap; gap = gap };
          floor = 0;
          list = [];
          booked = 0;
          cancelled = 0;
          retired = 0;
        }) }
    {
        if let Some(fault) = open_fault(cap, gap) {
            return Err(fault);
        }
        Ok(GatewayBook {
            roster,
            id,
            cap,
            gap,
            floor: 0,
            booked: 0,
            cancelled: 0,
            retired: 0,
        })
    }

    /// A book to try asks on, over an empty roster: with another's list and cap, and its gap, floor and booked airtime in
    /// microseconds, it answers as that one does. What it doesn't keep of what was booked is retired. A roster that found no
    /// memory is dropped.
    pub fn trial(
        roster: R,
        id: u16,
        cap: u32,
        gap: u32,
        floor: u64,
        booked: u64,
        list: &[Reservation],
    ) -> Result<Self, NoMemory>
    where
        R: Drop,
        requires empty { R.list roster ≡ [] }
        requires listed { IsBookList (record { cap = cap; gap = gap }) floor booked list.now }
        ensures { IfOk result (λ b. b ≡ trial_book id (record { cap = cap; gap = gap }) floor booked list.now) }
    {
        let roster = roster.filled(list)?;
        Ok(GatewayBook {
            roster,
            id,
            cap,
            gap,
            floor,
            booked,
            cancelled: 0,
            retired: booked - airtime_of(list),
        })
    }

    /// The gateway's number.
    pub fn id(&self) -> u16
        ensures { result ≡ self.now.id }
    {
        self.id
    }

    /// How many transmissions the book may keep.
    pub fn cap(&self) -> u32
        ensures { result ≡ self.now.rules.cap }
    {
        self.cap
    }

    /// The gap that the book keeps between two transmissions, in microseconds.
    pub fn gap(&self) -> u32
        ensures { result ≡ self.now.rules.gap }
    {
        self.gap
    }

    /// Reserves what is asked for, or answers the first refusal that holds, in the order of `Refusal`;
    /// `NoMemory` comes last, where the roster found none. A refusal changes nothing.
    pub fn book(&mut self, ask: Ask) -> Result<Reservation, Refusal>
        ensures answer { MatchOption (refusal_of (terms_of self.old) self.old.list ask) (IsOkUnless result Refusal.NoMemory)
            (λ refusal. result ≡ Err refusal) }
        ensures asked { IfOk result (IsAsked ask) }
        ensures booked { IfOk result (λ r. self.new ≡ with_booked self.old r) }
        ensures step { OnOk result (state_of self.new ≡ book_step self.old.rules (state_of self.old) ask) }
        ensures refused { OnErr result (self.new ≡ self.old) }
    {
        let reservation = self.admitted(ask)?;
        match self.add(reservation) {
            Ok(()) => Ok(reservation),
            Err(_) => Err(Refusal::NoMemory),
        }
    }

    /// The reservation that an ask becomes if there is memory, or its refusal.
    pub(crate) fn admitted(&self, ask: Ask) -> Result<Reservation, Refusal>
        ensures answer { MatchOption (refusal_of (terms_of self.now) self.now.list ask) (IsOkAnd result (IsAsked ask))
            (λ refusal. result ≡ Err refusal) }
        ensures admits { IfOk result (Admits self.now) }
    {
        let reservation = fitted(ask)?;
        if ask.start < self.floor {
            return Err(Refusal::Passed);
        }
        if let Some(start) = self.first_overlap(&reservation) {
            return Err(Refusal::Taken { start });
        }
        if let Some(refusal) = self.duty_full(&reservation) {
            return Err(refusal);
        }
        if self.roster.len() >= self.cap as usize {
            return Err(Refusal::Full);
        }
        if reservation.airtime() > TOTAL_LIMIT - self.booked {
            return Err(Refusal::TotalsFull);
        }
        Ok(reservation)
    }

    /// The refusal of what would overfill an hour of its sub-band.
    pub(crate) fn duty_full(&self, reservation: &Reservation) -> Option<Refusal>
        ensures { result ≡ option_and_then (overfull self.now.list reservation.now.start (airtime_us reservation.now))
            (band_of reservation.now.freq_hz reservation.now.rate) }
    {
        let band = reservation.band();
        let hour = full_hour(&self.roster, band, reservation.start, reservation.airtime())?;
        Some(Refusal::DutyFull {
            band,
            from: hour.from,
            spent: hour.spent,
        })
    }

    /// Takes the transmission with this number and this start out of the book, and answers its airtime
    /// in microseconds. What begins no later than the floor has begun, whether or not it is there. A
    /// fault changes nothing.
    pub fn cancel(&mut self, number: u64, start: u64) -> Result<u64, CancelFault>
        ensures answer { result ≡ airtime_answer (cancel_answer self.old.floor self.old.list number start) }
        ensures cancelled { IfOk result (λ airtime. self.new ≡ with_cancelled self.old number start airtime) }
        ensures step { state_of self.new ≡ cancel_step (state_of self.old) number start }
        ensures refused { OnErr result (self.new ≡ self.old) }
    {
        if start <= self.floor {
            return Err(CancelFault::Begun);
        }
        match named(&self.roster, number, start) {
            None => Err(CancelFault::NotHere),
            Some(member) => {
                self.roster.remove(start);
                self.cancelled += member.airtime();
                Ok(member.airtime())
            }
        }
    }

    /// Raises the floor to `now`, in microseconds of the gateway's clock; it never falls. Nothing that
    /// begins before the floor is booked, and nothing that begins no later is cancelled. What began more than
    /// an hour before the floor is retired: no later answer to an ask, a cancel or a tick depends on it (`law_forgetting`).
    /// Takes no memory.
    pub fn tick(&mut self, now: u64)
        ensures ticked { self.new ≡ ticked self.old now }
        ensures step { Remembers self.new (tick_step (state_of self.old) now) }
    {
        self.floor = self.floor.max(now);
        let dropped = self.roster.drop_before(self.floor.saturating_sub(HOUR));
        self.retired += dropped.airtime;
    }

    /// What the book has counted.
    pub fn totals(&self) -> Totals
        ensures totals { result ≡ totals_of self.now }
        ensures balanced { result.booked ≡ result.cancelled + result.retired + result.kept_airtime }
    {
        Totals {
            booked: self.booked,
            cancelled: self.cancelled,
            retired: self.retired,
            kept_airtime: self.booked - self.cancelled - self.retired,
            kept: self.roster.len(),
            floor: self.floor,
        }
    }

    /// The busiest hour of a sub-band: where it opens, the start of a kept transmission of the band, and
    /// the airtime that begins in it, both in microseconds. No hour has more; of those that open at such a
    /// start and have as much the first is answered. `None` where no transmission of the band is kept.
    pub fn busiest(&self, band: Band) -> Option<(u64, u64)>
        ensures hour { IsBusiestAnswer self.now.list band result }
        ensures value { result ≡ busiest_of self.now.list band }
    {
        busiest_hour(&self.roster, band)
    }

    /// What the book keeps, by start. Err(NoMemory) where the one growth of the list was refused.
    pub fn list<A: Allocator>(&self, alloc: A) -> Result<Vec<Reservation, A>, NoMemory>
        ensures members { IfOk result (λ members. members.items ≡ self.now.list) }
        ensures lawful { IsLawful self.now.rules.gap self.now.list }
        ensures disjoint { AreApart 0 self.now.list }
        ensures whole { IsBookList self.now.rules self.now.floor self.now.booked self.now.list }
    {
        self.roster.members(alloc)
    }

    /// The roster of what the book keeps, by which a caller goes over it without a list of its own.
    pub fn roster(&self) -> &R
        ensures { R.list result.now ≡ self.now.list }
    {
        &self.roster
    }

    /// What every book keeps, as a law of this one: its list is one that a book with its rules, its floor and its booked
    /// airtime may keep. A call does nothing.
    pub fn law_whole(&self)
        ensures { IsBookList self.now.rules self.now.floor self.now.booked self.now.list }
    {
        let _kept = &self.roster;
    }
}
