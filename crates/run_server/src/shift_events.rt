// What the kinds of event ask for on a station with workers, all but `Pass`: no call here starts a thread.
ghost use Rattle.std.specs.Prelude.{◌≡◌, ◌++◌, ◌∷◌, [], OnOk, ⊤};
ghost use Rattle.server_core.specs.Entries.{entry_at};
ghost use Rattle.run_server.specs.Bookings.{booked_for, IsCancelTold};
ghost use Rattle.run_server.specs.WorkersRun.{run_state, shift_state, floor_line, IsShiftDone};

use crate::station_run::Shift;
use gateway_book::CancelFault;
use server_core::{Engine, Entry, Heard1, Line, NoMemory, cancelled_line, heard_line, queued_line};
use server_workers::Ledger;
use std::alloc::Global;
use std::hash::BuildHasher;
use std::mem::replace;
use std::sync::Wait;

impl<B: Ledger, S: BuildHasher, R: Wait> Engine<Global, R> for Shift<B, S> {
    ghost is_ready = { λ shift. ⊤ };

    ghost has_done = { λ place e old new. IsShiftDone place e
        (shift_state old.station.value old.workers (run_state old.till old.receipts old.entries.items))
        (shift_state new.station.value new.workers (run_state new.till new.receipts new.entries.items)) };

    fn queue(
        &mut self,
        rt: &R,
        place: usize,
        addr: u32,
        port: u8,
        payload: &[u8],
    ) -> Result<(), NoMemory> {
        let answer = self.station.queue(rt, addr, port, payload);
        self.tell(place, queued_line(addr, answer)?)
    }

    fn hear(
        &mut self,
        rt: &R,
        place: usize,
        bytes: &[u8],
        heard: Heard1,
        arrived: u64,
    ) -> Result<(), NoMemory> {
        let answer = self.station.hear(rt, bytes, heard, arrived);
        self.tell(place, heard_line(answer)?)
    }

    fn tick(&mut self, rt: &R, place: usize, gateway: u16, now: u64) -> Result<(), NoMemory> {
        let floor = self.station.tick(rt, gateway, now);
        self.tell(place, floor_line(gateway, floor))
    }

    fn cancel(&mut self, rt: &R, place: usize, number: u64) -> Result<(), NoMemory> {
        let line = self.cancelled(rt, number);
        self.tell(place, line)
    }

    fn tell_bad(&mut self, _rt: &R, place: usize, line: u64) -> Result<(), NoMemory> {
        self.tell(place, Line::Bad { line })
    }
}

impl<B: Ledger, S: BuildHasher> Shift<B, S> {
    /// Takes the lines out that were told.
    pub fn take_lines(&mut self, alloc: Global) -> Vec<Entry<Global>>
        ensures station { self.new.station.value ≡ self.old.station.value }
        ensures workers { self.new.workers ≡ self.old.workers }
        ensures till { self.new.till ≡ self.old.till }
        ensures receipts { self.new.receipts ≡ self.old.receipts }
        ensures taken { result.items ≡ self.old.entries.items }
        ensures none { self.new.entries.items ≡ [] }
    {
        replace(&mut self.entries, Vec::new(alloc))
    }

    /// Tells a line.
    pub(crate) fn tell(&mut self, place: usize, line: Line<Global>) -> Result<(), NoMemory>
        ensures station { self.new.station.value ≡ self.old.station.value }
        ensures workers { self.new.workers ≡ self.old.workers }
        ensures till { self.new.till ≡ self.old.till }
        ensures receipts { self.new.receipts ≡ self.old.receipts }
        ensures told { OnOk result (self.new.entries.items ≡ self.old.entries.items ++ entry_at place line ∷ []) }
    {
        Ok(self.entries.push(Entry { event: place, line })?)
    }

    /// Cancels what was booked for the uplink with this number.
    fn cancelled<R: Wait>(&mut self, rt: &R, number: u64) -> Line<Global>
        ensures station { self.new.station.value ≡ self.old.station.value }
        ensures workers { self.new.workers ≡ self.old.workers }
        ensures till { self.new.till ≡ self.old.till }
        ensures entries { self.new.entries ≡ self.old.entries }
        ensures told { IsCancelTold self.old.station.value number (booked_for number self.old.receipts)
            self.old.receipts self.new.receipts result }
    {
        let Some(at) = self.receipts.place_of(number) else {
            return Line::NotCancelled {
                number,
                fault: CancelFault::NotHere,
            };
        };
        let answer = self.station.cancel(rt, self.receipts.receipt_at(at));
        if answer.is_ok() {
            self.receipts.mark(at);
        }
        cancelled_line(number, answer)
    }
}

/// The line for a gateway's floor, if the station has the gateway.
fn floor_line(gateway: u16, floor: Option<u64>) -> Line<Global>
    ensures { result ≡ floor_line gateway floor }
{
    match floor {
        Some(floor) => Line::Floor { gateway, floor },
        None => Line::NotTicked,
    }
}
