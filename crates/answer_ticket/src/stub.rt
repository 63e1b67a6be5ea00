ghost use Rattle.std.specs.Prelude.{◌≡◌};
ghost use Rattle.answer_ticket.specs.Ended.{gateway_of, IsWithinLongest, IsOfCandidate};

use crate::{Ending, Outcome};
use std::marker::Model;

/// What is left of a ticket that was booked, refused to the last or given up: how the answer ended. It can't be
/// copied or dropped.
pub struct Stub {
    outcome: Outcome,
}

impl Model for Stub {
    ghost use Rattle.answer_ticket.specs.declared.outcome.Outcome.{Outcome as Ended};
    ghost use Rattle.answer_ticket.specs.Ended.{IsWithinLongest, IsOfCandidate};

    ghost Value = { Ended };

    ghost view = { λ s. s.outcome };

    ghost invariant = { λ s. IsWithinLongest s.outcome.result × IsOfCandidate s.outcome.result };
}

impl Stub {
    /// The stub of the ticket with this number.
    pub(crate) fn new(number: u64, ending: Ending) -> Self
        requires short { IsWithinLongest ending }
        requires booked { IsOfCandidate ending }
        ensures { result ≡ record { number = number; result = ending } }
    {
        Stub {
            outcome: Outcome {
                number,
                result: ending,
            },
        }
    }

    /// The number of the uplink's gathering; takes no memory.
    pub fn number(&self) -> u64
        ensures kept { IsWithinLongest self.now.result }
        ensures booked { IsOfCandidate self.now.result }
        ensures number { result ≡ self.now.number }
    {
        self.outcome.number
    }

    /// The gateway whose book has the answer; `None` where the answer was not booked. Takes no memory.
    pub fn gateway(&self) -> Option<u16>
        ensures kept { IsWithinLongest self.now.result }
        ensures gateway { result ≡ gateway_of self.now.result }
    {
        match self.outcome.result {
            Ending::Answered { gateway, .. } => Some(gateway),
            _ => None,
        }
    }

    /// Spends the stub and tells how the answer ended; takes no memory.
    pub fn end(self) -> Outcome
        ensures kept { IsWithinLongest self.result }
        ensures booked { IsOfCandidate self.result }
        ensures outcome { result ≡ self }
    {
        let Stub { outcome } = self;
        outcome
    }
}
