// An uplink is answered, once.

ghost use Rattle.std.specs.Prelude.{◌≡◌, OnOk, IsTrue};
ghost use Rattle.server_desk.specs.Settling.{may_settle};
ghost use Rattle.server_core.specs.Schedule.{answer_steps};
ghost use Rattle.server_core.specs.Server.{seen, with_lines, Makes, AreHere, IsBetweenCalls, ids_of};
ghost use Rattle.server_core.specs.Tries.{end_lines, IsSettled, IsGivenTo, IsAnswered};

use crate::lines::not_taken_line;
use crate::server::Server;
use crate::{Line, NoMemory, Step};
use answer_ticket::{Ending, Outcome, Receipt, Ticket, TriedOut};
use std::alloc::Allocator;
use std::hash::BuildHasher;

impl<S: BuildHasher, A: Allocator + Copy> Server<S, A> {
    /// Asks for a ticket for the uplink with this number. If one is given, it is tried until it is booked or refused to
    /// the last, and settled.
    pub(crate) fn answer(&mut self, place: usize, number: u64) -> Result<(), NoMemory>
        requires { IsBetweenCalls (seen self.old) }
        ensures ready { OnOk result (IsBetweenCalls (seen self.new)) }
        ensures gathered { OnOk result (self.new.desk.reg.gathered ≡ self.old.desk.reg.gathered) }
        ensures made { OnOk result (Makes place (λ w. answer_steps w number) (seen self.old) (seen self.new)) }
    {
        self.did(Step::Take { number })?;
        match self.desk.take(number) {
            Ok(ticket) => self.work(place, ticket),
            Err(fault) => self.told(place, not_taken_line(number, fault)?),
        }
    }

    /// Tries a ticket that was just given, and settles it.
    fn work(&mut self, place: usize, ticket: Ticket<A>) -> Result<(), NoMemory>
        requires first { ticket.at ≡ 0 }
        requires here { AreHere self.old.desk.ids ticket.job }
        requires books { ids_of self.old.books.items ≡ self.old.desk.ids }
        requires given { IsGivenTo self.old.desk.known ticket.job.number }
        ensures { OnOk result (IsAnswered place ticket.job (seen self.old) (seen self.new)) }
    {
        let ended = self.tried(ticket)?;
        self.settle(place, ended)
    }

    /// Settles what is left of a ticket, and tells how the answer ended.
    fn settle(&mut self, place: usize, ended: TriedOut<A>) -> Result<(), NoMemory>
        requires { IsTrue (may_settle self.old.desk.ids self.old.desk.known ended.stub.number ended.stub.result) }
        ensures { OnOk result (IsSettled place ended (seen self.old) (seen self.new)) }
    {
        let TriedOut { stub, receipt } = ended;
        match self.desk.settle(stub) {
            Ok(outcome) => {
                self.did(Step::Settle {
                    number: outcome.number,
                })?;
                self.tell(place, outcome, receipt)
            }
            // The ticket is out, and its gateway is one of the desk's.
            Err(stub) => {
                let _ = stub.end();
                unreachable!()
            }
        }
    }

    /// Tells how an answer ended.
    fn tell(
        &mut self,
        place: usize,
        outcome: Outcome,
        receipt: Option<Receipt<A>>,
    ) -> Result<(), NoMemory>
        ensures { OnOk result
            (seen self.new ≡ with_lines place (end_lines outcome.number outcome.result receipt) (seen self.old)) }
    {
        let number = outcome.number;
        match (outcome.result, receipt) {
            (Ending::Answered { carried, .. }, Some(receipt)) => {
                let candidate = receipt.candidate(carried);
                self.told(place, Line::Send { number, candidate })?;
                self.told(
                    place,
                    Line::Frame {
                        number,
                        bytes: receipt.frame,
                    },
                )
            }
            (Ending::Unanswered(refusal), _) => {
                self.told(place, Line::Unanswered { number, refusal })
            }
            _ => Ok(()),
        }
    }
}
