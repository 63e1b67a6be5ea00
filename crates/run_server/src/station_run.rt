// A run on a station with workers: what the events ask for, one after another.
ghost use Rattle.std.specs.Prelude.{◌≡◌, ◌+◌, ◌^◌, ◌<◌, IfOk, vec_len};
ghost use Rattle.air_ledger.specs.Tills.{all_parts};
ghost use Rattle.server_core.specs.Engine.{IsDoneButPass};
ghost use Rattle.server_station.specs.Stations.{AreInOrder};
ghost use Rattle.run_server.specs.WorkersRun.{run_state, shift_state, IsDone, IsShiftDone, AreDone, HasOpened, IsStaffed};

use crate::receipts::Receipts;
use gateway_book::Totals;
use server_core::{Book, Entry, Event, NoMemory, Settings, do_all_but_pass};
use server_workers::{Blank, Ledger, PARTS, Station, Till};
use std::alloc::Global;
use std::hash::BuildHasher;
use std::sync::Wait;
use std::thread::Threads;

/// What a run left: the lines that answer its events, what each gateway's book has counted, beside the gateway's number, and the
/// books.
#[derive(Drop)]
pub struct Played {
    /// The lines, each with the place of its event: a run counts these from 0, a server that listens from 1.
    pub entries: Vec<Entry<Global>>,
    /// By the gateways' numbers; for the clauses alone, which speak of them.
    pub totals: Vec<(u16, Totals)>,
    /// In the same order.
    pub books: Vec<Book<Global>>,
}

/// A station at work, the till with all parts of its ledger, what was booked, and the lines that were told and not taken
/// out.
#[derive(Drop)]
pub struct Shift<B: Ledger, S: BuildHasher> {
    /// In a box, since a shift is handed on by value where a `pass` is due.
    pub(crate) station: Box<Station<B, S>>,
    pub(crate) till: Till<B>,
    pub(crate) receipts: Receipts,
    pub(crate) entries: Vec<Entry<Global>>,
    pub(crate) workers: u8,
    ghost whole: { till.parts ≡ all_parts },
    ghost staffed: { IsStaffed workers },
}

impl<B: Ledger, S: BuildHasher + Clone + Drop> Shift<B, S> {
    /// A station with these settings that has heard nothing, for 1 to 16 workers, and room for so many receipts; with more, their
    /// list grows. Devices and uplinks are looked up through this hasher and a clone of it. Err(NoMemory) where a growth was
    /// refused.
    pub fn new(
        alloc: Global,
        hasher: S,
        settings: &Settings<Global>,
        workers: u8,
        blank: Blank,
        room: usize,
    ) -> Result<Self, NoMemory>
        requires name { blank.name ≡ B.name }
        requires parts { blank.parts ≡ B.parts }
        requires all { blank.parts ≡ PARTS }
        requires staffed { IsStaffed workers }
        ensures workers { IfOk result (λ shift. shift.workers ≡ workers) }
        ensures gateways { IfOk result (λ shift. AreInOrder settings.now.gateways shift.station.value) }
        ensures none { IfOk result (λ shift. HasOpened (run_state shift.till shift.receipts shift.entries.items)) }
    {
        let (station, till) = Station::new(alloc, hasher, settings, blank)?;
        Ok(Shift {
            station: Box::new(alloc, station)?,
            till,
            receipts: Receipts::with_room(alloc, room)?,
            entries: Vec::new(alloc),
            workers,
        })
    }
}

impl<B: Ledger + Send + Sync, S: BuildHasher + Drop + Send + Sync> Shift<B, S>
where
    S::Hasher: Send + Sync,
{
    /// Does what these events ask for, one after another, of which the first has this place, counted from 0: their lines go
    /// behind those that were told. Each event is dropped once it is answered. Err(NoMemory) where a growth was refused; the
    /// shift is gone then.
    pub fn answer_all<R: Threads + Wait + Sync>(
        self,
        rt: &R,
        alloc: Global,
        first: usize,
        events: Vec<Event<Global>>,
    ) -> Result<Self, NoMemory>
        requires { first + vec_len events < 2 ^ 64 }
        ensures station { IfOk result (λ shift. shift.station.value ≡ self.station.value) }
        ensures workers { IfOk result (λ shift. shift.workers ≡ self.workers) }
        ensures done { IfOk result (λ shift. AreDone self.station.value first events.items
            (run_state self.till self.receipts self.entries.items)
            (run_state shift.till shift.receipts shift.entries.items)) }
    {
        let mut shift = self;
        let mut place = first;
        for event in events {
            let left = shift.use_up(rt, place, event)?;
            if let Some(now) = left {
                shift = shift.pass(rt, alloc, place, now)?;
            }
            place += 1;
        }
        Ok(shift)
    }

    /// Does what the event at this place asks for, as `do_all_but_pass` does, and drops it.
    fn use_up<R: Wait>(
        &mut self,
        rt: &R,
        place: usize,
        event: Event<Global>,
    ) -> Result<Option<u64>, NoMemory>
        ensures { IfOk result (IsDoneButPass IsShiftDone place event
            (shift_state self.old.station.value self.old.workers
            (run_state self.old.till self.old.receipts self.old.entries.items))
            (shift_state self.new.station.value self.new.workers
            (run_state self.new.till self.new.receipts self.new.entries.items))) }
    {
        do_all_but_pass(self, rt, place, &event)
    }

    /// Does what this event asks for: its lines go behind those that were told, each with this place. Err(NoMemory) where a
    /// growth was refused; the shift is gone then.
    pub fn answer<R: Threads + Wait + Sync>(
        self,
        rt: &R,
        alloc: Global,
        place: usize,
        event: &Event<Global>,
    ) -> Result<Self, NoMemory>
        ensures station { IfOk result (λ shift. shift.station.value ≡ self.station.value) }
        ensures workers { IfOk result (λ shift. shift.workers ≡ self.workers) }
        ensures done { IfOk result (λ shift. IsDone self.station.value place event.now
            (run_state self.till self.receipts self.entries.items)
            (run_state shift.till shift.receipts shift.entries.items)) }
    {
        let mut shift = self;
        match do_all_but_pass(&mut shift, rt, place, event)? {
            None => Ok(shift),
            Some(now) => shift.pass(rt, alloc, place, now),
        }
    }
}
