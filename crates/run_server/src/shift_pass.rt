// A shift closes what is due and has it answered.
ghost use Rattle.std.specs.Prelude.{◌≡◌, IfOk, OnOk};
ghost use Rattle.run_server.specs.Bookings.{HasMore};
ghost use Rattle.run_server.specs.WorkersRun.{run_state, WereClosed, HasPassed, HasTold};

use crate::pass_answers::Answer;
use crate::station_pass::{Answered, Told, answer_with_workers};
use crate::station_run::Shift;
use server_core::{Line, NoMemory};
use server_workers::{Ledger, ServeCause};
use std::alloc::Global;
use std::hash::BuildHasher;
use std::sync::Wait;
use std::thread::Threads;

/// For how many numbers there is room before their list grows.
const NUMBERS_AT_ONCE: usize = 64;

impl<B: Ledger + Send + Sync, S: BuildHasher + Drop + Send + Sync> Shift<B, S>
where
    S::Hasher: Send + Sync,
{
    /// Closes all gatherings that are due, and answers their uplinks.
    pub(crate) fn pass<R: Threads + Wait + Sync>(
        self,
        rt: &R,
        alloc: Global,
        place: usize,
        now: u64,
    ) -> Result<Self, NoMemory>
        ensures station { IfOk result (λ shift. shift.station.value ≡ self.station.value) }
        ensures workers { IfOk result (λ shift. shift.workers ≡ self.workers) }
        ensures done { IfOk result (λ shift. HasPassed self.station.value place now
            (run_state self.till self.receipts self.entries.items)
            (run_state shift.till shift.receipts shift.entries.items)) }
    {
        let numbers = self.closed(rt, alloc, now)?;
        if numbers.as_slice().is_empty() {
            return Ok(self);
        }
        let Shift {
            station,
            till,
            receipts,
            entries,
            workers,
        } = self;
        let Answered { till, ran, told } = answer_with_workers(
            rt,
            alloc,
            &station,
            numbers.as_slice(),
            till,
            workers,
        );
        let is_outside = matches!(ran, Err(ServeCause::Workers));
        prove!(!is_outside); // As many are asked for as a station may have.
        let told = told?;
        let mut shift = Shift {
            station,
            till,
            receipts,
            entries,
            workers,
        };
        shift.take_in(alloc, place, told)?;
        Ok(shift)
    }

    /// Takes in what is told of the uplinks that one `pass` closed.
    fn take_in(&mut self, alloc: Global, place: usize, told: Told) -> Result<(), NoMemory>
        ensures station { self.new.station.value ≡ self.old.station.value }
        ensures workers { self.new.workers ≡ self.old.workers }
        ensures till { self.new.till ≡ self.old.till }
        ensures told { OnOk result (HasTold place told.answers.items self.old.entries.items self.new.entries.items) }
        ensures kept { OnOk result (HasMore told.booked.items self.old.receipts self.new.receipts) }
    {
        let Told { answers, booked } = told;
        self.tell_all(place, answers)?;
        self.receipts.add_all(alloc, booked)?;
        Ok(())
    }

    /// Closes the gatherings that are due until none is, and gives their numbers, each once in rising order.
    fn closed<R: Wait>(&self, rt: &R, alloc: Global, now: u64) -> Result<Vec<u64>, NoMemory>
        ensures { IfOk result (λ numbers. WereClosed now numbers.items) }
    {
        let mut numbers = Vec::with_capacity(alloc, NUMBERS_AT_ONCE)?;
        for _ in rt.forever() {
            let Some(number) = self.station.pass(rt, now) else {
                break;
            };
            numbers.push(number)?;
        }
        numbers.sort_unstable();
        // A station gives no number twice; that these rise is then told by the list alone.
        numbers.dedup();
        Ok(numbers)
    }

    /// Tells the answers of a `pass`.
    fn tell_all(&mut self, place: usize, answers: Vec<Answer>) -> Result<(), NoMemory>
        ensures station { self.new.station.value ≡ self.old.station.value }
        ensures workers { self.new.workers ≡ self.old.workers }
        ensures till { self.new.till ≡ self.old.till }
        ensures receipts { self.new.receipts ≡ self.old.receipts }
        ensures told { OnOk result (HasTold place answers.items self.old.entries.items self.new.entries.items) }
    {
        for answer in answers {
            let Answer {
                number,
                line,
                frame,
            } = answer;
            self.tell(place, line)?;
            if let Some(bytes) = frame {
                self.tell(place, Line::Frame { number, bytes })?;
            }
        }
        Ok(())
    }
}
