// Workers at a station, and what they tell.

use crate::done::{Done, DoneAlone, Told, done_alone, done_by};
use crate::gates::{Narrow, Shut};
use crate::meeting::Meeting;
use crate::posts::Post;
use crossbeam_channel::{Receiver, bounded};
use server_workers::{Gate, Ledger, NoGate, PARTS, Served, Worked, serve, work};
use std::alloc::Global;
use std::sync::Wait;
use std::test::Fail;
use std::thread::Threads;
use test_asserts::equal_at;

/// Who works, and what is told then.
#[derive(Clone, Copy)]
pub(crate) enum Shift {
    /// Workers at no gate: what they did, or why nobody served.
    Crew(Crew, Told<'static>),
    /// Workers, 2 or 3, who meet at as many gateways: what they did, whether all were inside at once, and how many left each
    /// gateway.
    Meeting(Crew, Done<'static>, [u64; 4]),
    /// Workers at a gate where each takes its time: what they did, and whether two asked at once.
    Slow(Crew, Done<'static>, bool),
    /// Workers whom no gate lets in: what they did.
    ShutOut(Crew, Done<'static>),
    /// One with room for so many numbers, at these: what it did.
    Alone(u32, &'static [u64], DoneAlone<'static>),
    /// One with room for so many numbers, at these and then at those of another channel, whom no gate lets in: what it did.
    One(u32, (&'static [u64], &'static [u64]), DoneAlone<'static>),
}

/// The numbers from the one to the other, and how many workers take them up.
pub(crate) type Crew = (u64, u64, u8);

impl<B: Ledger + Send + Sync, R: Threads + Wait + Sync> Post<'_, B, R> {
    /// Workers answer, by the step at this place: what they tell is compared.
    pub(crate) fn work(&mut self, place: usize, shift: Shift) -> Result<(), Fail> {
        match shift {
            Shift::Crew(crew, told) => self.serve(place, crew, &NoGate, told),
            Shift::Meeting(crew, done, met) => {
                let meeting = Meeting::new(crew.2);
                self.serve(place, crew, &meeting, Ok(done))?;
                equal_at(&place, &meeting.told(), &met)
            }
            Shift::Slow(crew, done, is_crowded) => {
                let narrow = Narrow::new();
                self.serve(place, crew, &narrow, Ok(done))?;
                equal_at(&place, &narrow.was_crowded(), &is_crowded)
            }
            Shift::ShutOut(crew, done) => self.serve(place, crew, &Shut::new(0), Ok(done)),
            Shift::Alone(room, numbers, done) => {
                self.work_alone(place, room, (numbers, &[]), &NoGate, done)
            }
            Shift::One(room, channels, done) => {
                self.work_alone(place, room, channels, &Shut::new(0), done)
            }
        }
    }

    /// The same while a ticket for the uplink with this number is out.
    pub(crate) fn work_beside(
        &mut self,
        place: usize,
        number: u64,
        shift: Shift,
    ) -> Result<(), Fail> {
        let ticket = self.station.take(self.rt, number)?;
        let worked = self.work(place, shift);
        let _ = self.ended(ticket.give_up(), true);
        worked
    }

    /// Workers serve at a gate, and their till and their receipts are kept: what they tell is compared.
    fn serve<G: Gate + Sync>(
        &mut self,
        place: usize,
        (first, last, workers): Crew,
        gate: &G,
        told: Told<'static>,
    ) -> Result<(), Fail> {
        let numbers = numbers_of(self.alloc, first, last)?;
        let till = self.tills.pop().ok_or("there is a till")?;
        if till.parts() <= 16 {
            return Err(Fail::from("it has too few parts"));
        }
        match serve(
            self.rt,
            self.alloc,
            &self.station,
            &numbers,
            till,
            workers,
            gate,
        ) {
            Ok(served) => {
                equal_at(&place, &Ok(done_by(&served, &numbers)), &told)?;
                self.keep(served)
            }
            Err(fault) => {
                equal_at(&place, &Err((fault.cause, fault.till.parts())), &told)?;
                Ok(self.tills.push(fault.till)?)
            }
        }
    }
}

/// The numbers from the one to the other.
fn numbers_of(alloc: Global, first: u64, last: u64) -> Result<Vec<u64>, Fail> {
    let mut numbers = Vec::new(alloc);
    for number in first..=last {
        numbers.push(number)?;
    }
    Ok(numbers)
}

impl<B: Ledger, R: Wait> Post<'_, B, R> {
    /// Keeps the till and the receipts of workers.
    fn keep(&mut self, served: Served<B>) -> Result<(), Fail> {
        let Served {
            till,
            mut receipts,
            ..
        } = served;
        self.tills.push(till)?;
        self.receipts.append(&mut receipts)?;
        Ok(())
    }

    /// One worker with room for so many numbers works at those of one channel and then at those of another: what it did is
    /// compared.
    fn work_alone<G: Gate>(
        &mut self,
        place: usize,
        room: u32,
        (numbers, others): (&[u64], &[u64]),
        gate: &G,
        done: DoneAlone<'static>,
    ) -> Result<(), Fail> {
        let worked = self.hired(room)?;
        let (worked, left) = self.worked_at(worked, numbers, gate)?;
        let (worked, left_of_others) = self.worked_at(worked, others, gate)?;
        let told = done_alone(&worked, [left, left_of_others]);
        equal_at(&place, &told, &done)?;
        self.dismiss(worked)
    }

    /// A worker works at some numbers: what it has done so far, and the first number that is left.
    fn worked_at<G: Gate>(
        &self,
        worked: Worked<B>,
        numbers: &[u64],
        gate: &G,
    ) -> Result<(Worked<B>, Option<u64>), Fail> {
        let numbers = channel_of(self.rt, self.alloc, numbers)?;
        let worked = work(self.rt, &self.station, &numbers, gate, worked);
        Ok((worked, numbers.recv(self.rt).ok()))
    }

    /// A worker who has done nothing, with room for so many numbers.
    fn hired(&mut self, room: u32) -> Result<Worked<B>, Fail> {
        let till = self.tills.last_mut().ok_or("there is a till")?;
        if till.parts() < 2 {
            return Err(Fail::from("it has one part"));
        }
        let worked = Worked::new(self.alloc, till.split(), room);
        Ok(worked.ok().ok_or("there is memory")?)
    }

    /// Keeps the receipts of a worker, whose till is joined with the last one.
    fn dismiss(&mut self, worked: Worked<B>) -> Result<(), Fail> {
        let Worked {
            till,
            mut receipts,
            ..
        } = worked;
        self.receipts.append(&mut receipts)?;
        let last = self.tills.last_mut().ok_or("there is a till")?;
        if last.parts().saturating_add(till.parts()) > PARTS {
            return Err(Fail::from("they have too many parts"));
        }
        last.join(till);
        Ok(())
    }
}

/// Some numbers in a channel that is closed.
fn channel_of<R: Wait>(rt: &R, alloc: Global, numbers: &[u64]) -> Result<Receiver<u64>, Fail> {
    let (sender, receiver) = bounded(alloc, 8)?;
    for number in numbers {
        sender.send(rt, *number).ok().ok_or("there is room")?;
    }
    Ok(receiver)
}
