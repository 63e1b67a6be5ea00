// The search for the earliest start: from a refused start it goes on at the next one that what refused it leaves open.
ghost use Rattle.std.specs.Prelude.{◌≡◌, ◌≤◌, Some};
ghost use Rattle.resv_list.specs.Fit.{last_end};
ghost use Rattle.gateway_book.specs.Answer.{refusal_of};
ghost use Rattle.gateway_book.specs.Book.{terms_of};
ghost use Rattle.gateway_book.specs.Duty.{after_full_hour};
ghost use Rattle.gateway_book.specs.Earliest.{IsEarliest, IsNextStart};
ghost use Rattle.gateway_book.specs.EarliestValue.{earliest_of};

use crate::overlap::rested_from;
use crate::{Ask, GatewayBook, Refusal};
use radio_bands::Band;
use resv_list::{HOUR, Roster};

impl<R: Roster> GatewayBook<R> {
    /// The least start from `not_before` to `last`, both included and in microseconds of the gateway's clock, at which `book`
    /// would accept what is asked for, memory aside; `None` where there is none. The ask's own start is not looked at. The
    /// limits are those of `book`: duty cycle over one hour after ETSI EN 300 220-2, annex B, in the sub-bands of LoRaWAN
    /// Regional Parameters RP002, EU863-870. Takes no memory, and looks at transmissions by the roster's look-ups alone: it
    /// tries only the least allowed start, ends of transmissions plus the gap, and starts of transmissions plus an hour
    /// (`law_earliest_candidates`).
    ///
    /// A start that is tried costs a few of these look-ups, and at most two are tried for each transmission that is passed: the
    /// end of one that stands too close, and an hour after one whose hour is full. So the cost rises in proportion to how many
    /// are passed before the first free place: it is least where the first start is free or lies in one full hour, which is
    /// left in one step, and greatest where each of many transmissions opens a full hour, or none leaves room behind it.
    pub fn earliest(&self, ask: Ask, not_before: u64, last: u64) -> Option<u64>
        ensures answer { IsEarliest (terms_of self.now) self.now.list ask not_before last result }
        ensures value { result ≡ earliest_of (terms_of self.now) self.now.list ask not_before last }
    {
        let mut start = not_before.max(self.floor);
        while start <= last {
            let next = self.next_start(Ask { start, ..ask })?;
            if next == start {
                return Some(start);
            }
            start = next;
        }
        None
    }

    /// The ask's own start where it is accepted, or else a later one before which it isn't; `None` where it is accepted
    /// neither at its own start nor later.
    fn next_start(&self, ask: Ask) -> Option<u64>
        requires { self.now.floor ≤ ask.start }
        ensures { IsNextStart (terms_of self.now) self.now.list ask result }
    {
        match self.admitted(ask) {
            Ok(_) => Some(ask.start),
            Err(refusal) => self.after_refusal(ask, refusal),
        }
    }

    /// The same where it is refused: when what overlaps it has ended and its gap has passed, or what comes after a full hour.
    /// No other refusal passes with time.
    fn after_refusal(&self, ask: Ask, refusal: Refusal) -> Option<u64>
        requires late { self.now.floor ≤ ask.start }
        requires refused { refusal_of (terms_of self.now) self.now.list ask ≡ Some refusal }
        ensures { IsNextStart (terms_of self.now) self.now.list ask result }
    {
        match refusal {
            Refusal::Taken { start } => {
                let member = self.roster.first_from(start)?;
                Some(rested_from(&member, self.gap))
            }
            Refusal::DutyFull { band, from, .. } => {
                after_full_hour(&self.roster, band, ask.start, from)
            }
            _ => None,
        }
    }
}

/// Where to look on after a full hour that opens at `from` and holds `start`. A member's own hour is left at its end. Where it
/// is the start's own, the first member of the band from there on has an hour as full, and what begins before is in both.
fn after_full_hour<R: Roster>(roster: &R, band: Band, start: u64, from: u64) -> Option<u64>
    requires { start ≤ last_end }
    ensures { result ≡ after_full_hour (R.list roster.now) band start from }
{
    if from < start {
        return Some(from + HOUR);
    }
    let member = roster.first_over(band, start, start + HOUR, 0)?;
    Some(member.start + HOUR)
}
