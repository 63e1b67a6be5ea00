// The answer to an uplink is settled.

ghost use Rattle.std.specs.Prelude.{◌≡◌, ◌+◌, ◌≤◌, true, Ok, Err, IfOk, MatchBool, OnOk};
ghost use Rattle.answer_ticket.specs.Ended.{IsWithinLongest, IsOfCandidate};
ghost use Rattle.uplink_gather.specs.Gatherings.{numbered};
ghost use Rattle.server_desk.specs.Settling.{may_settle, has_carried, sent_of, kept_by};
ghost use Rattle.server_desk.specs.Airtime.{airtime_of_ending, settled_limit};
ghost use Rattle.server_desk.specs.Desk.{desk_settle, desk_settled, total_of};

use crate::Desk;
use crate::airtimes::raise;
use crate::answers::{Known, Sent, numbered};
use crate::hearing::has_gateway;
use answer_ticket::{Ending, Outcome, Stub};
use std::alloc::Allocator;
use std::hash::BuildHasher;

impl<S: BuildHasher, A: Allocator> Desk<S, A> {
    /// Settles the answer that this stub ended, and tells how it ended. `Err` hands the stub back, and nothing changes,
    /// where no ticket or stub of its number is out, or where the answer was booked on a gateway that isn't in the
    /// desk's settings. A payload that was booked is taken off its device's queue. Takes no memory.
    pub fn settle(&mut self, stub: Stub) -> Result<Outcome, Stub>
        ensures answer { MatchBool (may_settle self.old.ids self.old.known stub.number stub.result) (result ≡ Ok stub)
            (result ≡ Err stub) }
        ensures step { self.new ≡ desk_settle self.old stub.number stub.result }
        ensures booked { IfOk result (λ outcome. IsOfCandidate outcome.result) }
        ensures total { OnOk result (total_of self.new ≡ total_of self.old + airtime_of_ending stub.result) }
        ensures limit { OnOk result (total_of self.new ≤ settled_limit) }
    {
        if !self.may_settle(&stub) {
            return Err(stub);
        }
        let outcome = stub.end();
        self.end(&outcome);
        Ok(outcome)
    }

    /// What the settled answer of number `n` keeps; `None` where it isn't settled, or nothing was booked. Takes no memory.
    pub fn sent(&self, n: u64) -> Option<Sent>
        ensures { result ≡ kept_by (numbered n self.now.known) }
    {
        match numbered(&self.known, n) {
            Some(Known::Done(sent)) => sent,
            _ => None,
        }
    }

    /// Whether a ticket or stub of the stub's number is out, and its gateway, if it has one, in the settings.
    fn may_settle(&self, stub: &Stub) -> bool
        ensures { result ≡ may_settle self.now.ids self.now.known stub.now.number stub.now.result }
    {
        let is_out = matches!(numbered(&self.known, stub.number()), Some(Known::Pending));
        let gateway = stub.gateway();
        is_out && gateway.is_none_or(|gateway| has_gateway(&self.gateways, gateway))
    }

    /// The answer is settled that ended so.
    fn end(&mut self, outcome: &Outcome)
        requires out { may_settle self.old.ids self.old.known outcome.now.number outcome.now.result ≡ true }
        requires short { IsWithinLongest outcome.now.result }
        ensures step { self.new ≡ desk_settled outcome.now.result outcome.now.number self.old }
        ensures total { total_of self.new ≡ total_of self.old + airtime_of_ending outcome.now.result }
        ensures limit { total_of self.new ≤ settled_limit }
    {
        let place = outcome.number as usize - 1;
        let device = self.asked[place].device;
        self.devices[device].settle(has_carried(&outcome.result));
        let sent = sent_of(&outcome.result);
        raise(&self.gateways, &mut self.answered, sent);
        self.known[place] = Known::Done(sent);
    }
}

/// Whether the answer took the payload at the head of its device's queue with it.
fn has_carried(ending: &Ending) -> bool
    ensures { result ≡ has_carried ending.now }
{
    match ending {
        Ending::Answered { carried, .. } => *carried,
        _ => false,
    }
}

/// What a settled answer keeps.
fn sent_of(ending: &Ending) -> Option<Sent>
    ensures { result ≡ sent_of ending.now }
{
    match ending {
        Ending::Answered {
            gateway,
            start,
            airtime,
            ..
        } => Some(Sent {
            gateway: *gateway,
            start: *start,
            airtime: *airtime,
        }),
        _ => None,
    }
}
