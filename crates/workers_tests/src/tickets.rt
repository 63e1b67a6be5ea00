// Tickets at a station, and what becomes of them.

use crate::gates::{Log, Shut, audited};
use crate::posts::{Post, TestStation};
use answer_ticket::{Ending, Outcome, Stub, Ticket};
use server_workers::{Gate, Handled, Ledger, NoGate, Till};
use std::alloc::Global;
use std::sync::Wait;
use std::test::Fail;
use test_asserts::equal_at;
use worked_inputs::{booked, last_refused, next_refused};

/// How an answer ended that was settled, and how many tries the gate didn't let in.
type End = (Option<Ending>, u64);

/// At which gate a station answers, and what is told then.
#[derive(Clone, Copy)]
pub(crate) enum Answer {
    /// At none: how the answer ends.
    Freely(End),
    /// At one that notes who goes where: how the answer ends, and what was noted.
    Logged(End, u64),
    /// At one that lets in whoever asks for the time of this number, nobody where it is 0: how the answer ends, and how often the
    /// gate was asked for each gateway.
    ShutOut(u64, End, [u64; 2]),
    /// At one that asks the station when the worker has left: what is booked then.
    Audited(u64),
}

/// What becomes of a ticket.
#[derive(Clone, Copy)]
pub(crate) enum Fate {
    /// It is booked at once and settled.
    Settled,
    /// It is booked at once, and not settled.
    Booked,
    /// It is given up and settled.
    GivenUp,
    /// It is given up, and not settled.
    Lost,
    /// It is refused once and then given up, and not settled.
    RefusedAndLost,
    /// It is refused once, booked and settled.
    RefusedAndSettled,
    /// It is refused twice, by the last try too, and settled.
    RefusedTwice,
}

/// Whether a stub was settled, and the outcome.
type Ended = (bool, Outcome);

impl<B: Ledger, R: Wait> Post<'_, B, R> {
    /// The uplink with this number is answered, by the step at this place: what is told then is compared.
    pub(crate) fn answer(&mut self, place: usize, number: u64, answer: Answer) -> Result<(), Fail> {
        match answer {
            Answer::Freely(end) => equal_at(&place, &self.answer_at(number, &NoGate)?, &end),
            Answer::Logged(end, calls) => {
                equal_at(&place, &self.answer_logged(number)?, &(end, calls))
            }
            Answer::ShutOut(opens, end, asked) => {
                equal_at(&place, &self.answer_shut_out(number, opens)?, &(end, asked))
            }
            Answer::Audited(booked) => equal_at(&place, &self.answer_audited(number)?, &booked),
        }
    }

    /// How an answer ends, and who went where meanwhile.
    fn answer_logged(&mut self, number: u64) -> Result<(End, u64), Fail> {
        let log = Log::new();
        let end = self.answer_at(number, &log)?;
        Ok((end, log.calls()))
    }

    /// How an answer ends, and how often the gate was asked for each gateway.
    fn answer_shut_out(&mut self, number: u64, opens: u64) -> Result<(End, [u64; 2]), Fail> {
        let shut = Shut::new(opens);
        let end = self.answer_at(number, &shut)?;
        Ok((end, shut.asked()))
    }

    /// What the station told the gate that is booked when the worker had left.
    fn answer_audited(&mut self, number: u64) -> Result<u64, Fail> {
        let till = self.tills.last_mut().ok_or("there is a till")?;
        let (_, [_, booked]) = audited(self.rt, &self.station, till, number);
        Ok(booked)
    }

    /// Answers at a gate.
    fn answer_at<G: Gate>(&mut self, number: u64, gate: &G) -> Result<End, Fail> {
        let till = self.tills.last_mut().ok_or("there is a till")?;
        let mut overrun = 0;
        let handled = self
            .station
            .answer(self.rt, gate, number, till, &mut overrun);
        Ok((self.kept(handled)?, overrun))
    }

    /// Keeps a receipt; how the answer ended.
    fn kept(&mut self, handled: Handled<Global>) -> Result<Option<Ending>, Fail> {
        match handled {
            Handled::Settled(outcome, Some(receipt)) => {
                self.receipts.push(receipt)?;
                Ok(Some(outcome.result))
            }
            Handled::Settled(outcome, None) => Ok(Some(outcome.result)),
            _ => Ok(None),
        }
    }
}

impl<B: Ledger, R: Wait> Post<'_, B, R> {
    /// A ticket is taken for the uplink with this number: what becomes of it.
    pub(crate) fn take(&mut self, number: u64, fate: Fate) -> Result<Ended, Fail> {
        match fate {
            Fate::Settled => self.book(number, true),
            Fate::Booked => self.book(number, false),
            Fate::GivenUp => self.give_up(number, true),
            Fate::Lost => self.give_up(number, false),
            Fate::RefusedAndLost => self.give_up_late(number),
            Fate::RefusedAndSettled => self.book_late(number),
            Fate::RefusedTwice => self.use_up(number),
        }
    }

    /// A ticket is booked at once.
    fn book(&mut self, number: u64, is_settled: bool) -> Result<Ended, Fail> {
        let ticket = self.station.take(self.rt, number)?;
        self.try_last(ticket, is_settled)
    }

    /// A ticket is booked once it was refused.
    fn book_late(&mut self, number: u64) -> Result<Ended, Fail> {
        let ticket = self.refused(number)?;
        self.try_last(ticket, true)
    }

    /// A ticket is booked, and its receipt kept.
    fn try_last(&mut self, ticket: Ticket<Global>, is_settled: bool) -> Result<Ended, Fail> {
        let tried = self.station.try_once(self.rt, ticket);
        let (stub, receipt) = booked(tried).ok_or("it is booked")?;
        let ended = self.ended(stub, is_settled);
        self.receipts.push(receipt)?;
        Ok(ended)
    }

    /// A ticket that was refused once.
    fn refused(&self, number: u64) -> Result<Ticket<Global>, Fail> {
        let ticket = self.station.take(self.rt, number)?;
        let tried = self.station.try_once(self.rt, ticket);
        let (ticket, _) = next_refused(tried).ok_or("it is refused")?;
        Ok(ticket)
    }

    /// A ticket is given up at once.
    fn give_up(&mut self, number: u64, is_settled: bool) -> Result<Ended, Fail> {
        let ticket = self.station.take(self.rt, number)?;
        Ok(self.ended(ticket.give_up(), is_settled))
    }

    /// A ticket is given up once it was refused.
    fn give_up_late(&mut self, number: u64) -> Result<Ended, Fail> {
        let ticket = self.refused(number)?;
        Ok(self.ended(ticket.give_up(), false))
    }

    /// A ticket is refused twice, and has no try left then.
    fn use_up(&mut self, number: u64) -> Result<Ended, Fail> {
        let ticket = self.refused(number)?;
        let tried = self.station.try_once(self.rt, ticket);
        let (stub, _) = last_refused(tried).ok_or("it is refused to the last")?;
        Ok(self.ended(stub, true))
    }

    /// Ends a stub, by settling it if that is wanted and the station takes it: whether it did, and the outcome.
    pub(crate) fn ended(&mut self, stub: Stub, is_settled: bool) -> Ended {
        if !is_settled {
            return (false, stub.end());
        }
        match self.tills.last_mut() {
            Some(till) => settled(self.rt, &self.station, stub, till),
            None => (false, stub.end()),
        }
    }
}

/// Ends a stub, by settling it if the station takes it: whether it did, and the outcome.
fn settled<B: Ledger, R: Wait>(
    rt: &R,
    station: &TestStation<B>,
    stub: Stub,
    till: &mut Till<B>,
) -> Ended {
    match station.settle(rt, stub, till) {
        Ok(outcome) => (true, outcome),
        Err(stub) => (false, stub.end()),
    }
}
