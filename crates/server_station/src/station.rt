ghost use Rattle.std.specs.Prelude.{◌≡◌, ◌+◌, ◌<◌, ◌≤◌, ◌↔◌, true, false, Err, IfOk, IfErr, OnOk, OnErr, IfSome, IsSome, IsNone};
ghost use Rattle.std.specs.Prelude.{MatchBool, MatchOption};
ghost use Rattle.answer_ticket.specs.Ended.{IsOfCandidate, gateway_of};
ghost use Rattle.server_desk.specs.Airtime.{airtime_of_ending};
ghost use Rattle.server_desk.specs.Desk.{desk_of};
ghost use Rattle.server_desk.specs.UsualLimits.{usual_limits};
ghost use Rattle.server_desk.specs.World.{opening};
ghost use Rattle.server_desk.specs.Register.{is_among};
ghost use Rattle.server_station.specs.Stations.{AreInOrder, gateway_to_try, WasQueued, WasHeard, WasPassed};
ghost use Rattle.server_station.specs.Stations.{WasTaken};
ghost use Rattle.server_station.specs.Stations.{WasTried, WasAsked, WasTicked, WereCounted, IsBehind};

use crate::gate::is_let_in;
use crate::place::{Place, place_numbered, places_of};
use crate::{Blank, Gate, Ledger, NoMemory, Office, PARTS, Till, TotalsFault};
use air_ledger::begin;
use answer_ticket::{Outcome, Receipt, Stub, Ticket, Tried};
use gateway_book::{CancelFault, Totals};
use server_desk::{
    Book, Desk, DeskFault, DeskHeard, Heard1, QueueFault, Settings, TakeFault, USUAL_LIMITS,
};
use std::alloc::{Allocator, Global};
use std::hash::BuildHasher;
use std::marker::Model;
use std::sync::{Mutex, MutexGuard, Wait};

/// A server for several threads: the desk with the ledger's tally behind one lock, and each gateway's book behind its own.
/// Each call waits for one of these locks, but for `new` and `finish`; `answer` waits for several, one after another, and holds
/// none from one to the next. Seen as the numbers of its gateways; its type keeps that they rise, so that no two are the same.
#[derive(Drop)]
pub struct Station<B: Ledger, S: BuildHasher, A: Allocator + Copy = Global> {
    pub(crate) office: Mutex<Office<B, S, A>>,
    /// By the gateways' numbers.
    pub(crate) places: Vec<Place<A>, A>,
}

impl<B: Ledger, S: BuildHasher, A: Allocator + Copy> Model for Station<B, S, A> {
    ghost use Rattle.std.specs.Prelude.{ℕ, List};
    ghost use Rattle.std.specs.List.Sorted.{IsStrictlyIncreasing};

    ghost Value = { List ℕ };

    ghost view = { λ s. s.places.items };

    ghost invariant = { λ s. IsStrictlyIncreasing s.places.items };
}

impl<B: Ledger, S: BuildHasher + Clone, A: Allocator + Copy> Station<B, S, A> {
    /// A station with these settings that has heard nothing, and the till with all parts of its ledger. It gathers at most
    /// 4,096 uplinks at a time and 1,000,000 in all, of each at most 64 copies. The blank is this ledger's, and has 65,536
    /// parts. Err(NoMemory) where a growth was refused.
    pub fn new<C: Allocator>(
        alloc: A,
        hasher: S,
        settings: &Settings<C>,
        blank: Blank,
    ) -> Result<(Self, Till<B>), NoMemory>
        requires name { blank.name ≡ B.name }
        requires parts { blank.parts ≡ B.parts }
        requires all { blank.parts ≡ PARTS }
        ensures gateways { IfOk result (λ made. AreInOrder settings.now.gateways made.0) }
        ensures till { IfOk result (λ made. made.1 ≡ record { parts = PARTS; amount = 0 }) }
    {
        let desk = opening_desk(alloc, hasher, settings)?;
        let places = places_of(alloc, settings.gateways())?;
        let (tally, till) = begin(blank);
        let office = Mutex::new(Office::new(desk, tally));
        Ok((Station { office, places }, till))
    }
}

impl<B: Ledger, S: BuildHasher, A: Allocator + Copy> Station<B, S, A> {
    /// Queues a payload, as the desk's `queue`.
    pub fn queue<R: Wait>(
        &self,
        rt: &R,
        addr: u32,
        port: u8,
        payload: &[u8],
    ) -> Result<usize, QueueFault>
        ensures { WasQueued addr (port, payload.now) result }
    {
        self.office.lock(rt).queue(addr, port, payload)
    }

    /// Takes in a copy of an uplink, as the desk's `hear`.
    pub fn hear<R: Wait>(
        &self,
        rt: &R,
        bytes: &[u8],
        heard: Heard1,
        arrived: u64,
    ) -> Result<DeskHeard, DeskFault>
        ensures { WasHeard bytes.now heard arrived result }
    {
        self.office.lock(rt).hear(bytes, heard, arrived)
    }

    /// Gives a ticket, as the desk's `take`.
    pub fn take<R: Wait>(&self, rt: &R, n: u64) -> Result<Ticket<A>, TakeFault>
        ensures { WasTaken n result }
    {
        self.office.lock(rt).take(n)
    }

    /// Closes the least gathering that is due, as the desk's `pass`. Takes no memory.
    pub fn pass<R: Wait>(&self, rt: &R, now: u64) -> Option<u64>
        ensures { WasPassed now result }
    {
        self.office.lock(rt).pass(now)
    }

    /// Settles an answer, as the desk's `settle`, and counts its airtime with the till. Takes no memory.
    pub fn settle<R: Wait>(&self, rt: &R, stub: Stub, till: &mut Till<B>) -> Result<Outcome, Stub>
        ensures kept { IfOk result (λ outcome. outcome ≡ stub) }
        ensures booked { IfOk result (λ outcome. IsOfCandidate outcome.result) }
        ensures counted { OnOk result (till.new ≡ record till.old { amount = till.old.amount + airtime_of_ending stub.result }) }
        ensures rose { IfOk result (λ outcome. IsSome (gateway_of outcome.result) ↔ (till.old.amount < till.new.amount)) }
        ensures back { IfErr result (λ back. back ≡ stub) }
        ensures refused { OnErr result (till.new ≡ till.old) }
    {
        self.office.lock(rt).settle(stub, till)
    }

    /// Tries a ticket once on the book of its gateway, as `Ticket::try_on`; `Wrong` where the station has no such gateway.
    pub fn try_once<R: Wait>(&self, rt: &R, ticket: Ticket<A>) -> Tried<A>
        ensures { MatchBool (is_among self.now (gateway_to_try ticket)) (WasTried ticket result)
            (result ≡ Tried.Wrong ticket) }
    {
        match self.place_of(ticket.gateway()) {
            Some(place) => ticket.try_on(&mut place.book.lock(rt)),
            None => Tried::Wrong(ticket),
        }
    }

    /// Gives the book of the gateway with this number, once its lock is free and the gate lets the caller ask it; where the gate
    /// didn't let it in in time, that is counted. `None` where the station has no such gateway.
    pub(crate) fn enter<R: Wait, G: Gate>(
        &self,
        rt: &R,
        gate: &G,
        gateway: u16,
        overrun: &mut u64,
    ) -> Option<MutexGuard<'_, Book<A>>>
        ensures here { IsSome result ↔ (is_among self.now gateway ≡ true) }
        ensures overrun { overrun.old ≤ overrun.new }
        ensures once { overrun.new ≤ overrun.old + 1 }
    {
        let place = self.place_of(gateway)?;
        let book = place.book.lock(rt);
        if !is_let_in(gate, gateway) {
            *overrun = overrun.saturating_add(1);
        }
        Some(book)
    }

    /// Cancels what a receipt names, as the book's `cancel`, and answers its airtime in microseconds; `NotHere` where the
    /// station has no such gateway. Takes no memory.
    pub fn cancel<R: Wait>(&self, rt: &R, receipt: &Receipt<A>) -> Result<u64, CancelFault>
        ensures { MatchBool (is_among self.now receipt.now.gateway)
            (WasAsked receipt.now.number receipt.now.reservation.start result) (result ≡ Err CancelFault.NotHere) }
    {
        match self.place_of(receipt.gateway) {
            Some(place) => place
                .book
                .lock(rt)
                .cancel(receipt.number, receipt.reservation.start),
            None => Err(CancelFault::NotHere),
        }
    }

    /// Raises a gateway's floor, as the book's `tick`, and answers it; `None` where the station has no such gateway. Moments
    /// are in microseconds of the gateway's clock. Takes no memory.
    pub fn tick<R: Wait>(&self, rt: &R, gateway: u16, now: u64) -> Option<u64>
        ensures unknown { IsNone result ↔ (is_among self.now gateway ≡ false) }
        ensures floor { IfSome result (λ floor. now ≤ floor) }
        ensures ticked { IfSome result (WasTicked now) }
    {
        let place = self.place_of(gateway)?;
        let mut book = place.book.lock(rt);
        book.tick(now);
        Some(book.totals().floor)
    }

    /// What a gateway's book has counted, by someone who saw so much airtime booked there, in microseconds. `Behind` where
    /// less is booked now. Takes no memory.
    pub fn totals<R: Wait>(&self, rt: &R, gateway: u16, seen: u64) -> Result<Totals, TotalsFault>
        ensures unknown { (result ≡ Err TotalsFault.UnknownGateway) ↔ (is_among self.now gateway ≡ false) }
        ensures fresh { IfOk result (λ totals. seen ≤ totals.booked) }
        ensures told { IfOk result WereCounted }
        ensures balanced { IfOk result (λ totals. totals.booked ≡ totals.cancelled + totals.retired + totals.kept_airtime) }
        ensures behind { IfErr result (λ fault. IsBehind seen fault) }
    {
        let Some(place) = self.place_of(gateway) else {
            return Err(TotalsFault::UnknownGateway);
        };
        let totals = place.book.lock(rt).totals();
        if totals.booked < seen {
            return Err(TotalsFault::Behind {
                booked: totals.booked,
            });
        }
        Ok(totals)
    }

    /// The gateway with this number.
    fn place_of(&self, gateway: u16) -> Option<&Place<A>>
        ensures { MatchOption result (is_among self.now gateway ≡ false)
            (λ place. (is_among self.now gateway ≡ true) × (place.now ≡ gateway)) }
    {
        place_numbered(&self.places, gateway)
    }
}

/// A desk of these settings, of which nothing was heard yet, with the usual limits.
fn opening_desk<S: BuildHasher + Clone, A: Allocator + Copy, C: Allocator>(
    alloc: A,
    hasher: S,
    settings: &Settings<C>,
) -> Result<Desk<S, A>, NoMemory>
    ensures { IfOk result (λ desk. desk ≡ desk_of (opening settings.now usual_limits)) }
{
    Desk::new(alloc, hasher, settings, USUAL_LIMITS)
}
