// What is done at a station: a ticket is taken and tried, and an uplink is answered.

use crate::gates::audited;
use crate::growth::stations::{AtWork, takes};
use crate::growth::tickets::{Gone, booked_in, is_wanted, shown_by};
use crate::posts::totals_at;
use answer_ticket::{Ticket, Tried};
use gateway_book::Totals;
use refusing_alloc::{Refuser, asked_of, is_as_asked, same};
use server_core::TakeFault;
use server_workers::{Handled, Ledger, Station, Till};
use std::alloc::Allocator;
use std::sync::Wait;
use std::test::Fail;
use worked_inputs::WorkedHasher;

/// Takes the ticket of the second uplink and tries it with the growth of this number refused; once more what found no memory.
fn tried_at<B: Ledger, A: Allocator + Copy, R: Wait>(
    rt: &R,
    alloc: &Refuser,
    station: &Station<B, WorkedHasher, A>,
    number: u64,
) -> Result<Gone, Fail> {
    let before = totals_at(rt, station);
    alloc.refuse(number);
    match station.take(rt, 2) {
        Ok(ticket) => Ok(tried_once(rt, alloc, station, ticket, before)),
        Err(fault) => {
            let asked = asked_of(alloc);
            let ticket = station.take(rt, 2)?;
            let is_told = fault == TakeFault::NoMemory;
            let seen = (
                shown_by(&ticket),
                is_told && totals_at(rt, station) == before,
            );
            Ok((asked, Some(seen), booked_in(station.try_once(rt, ticket))))
        }
    }
}

/// Tries a ticket, and once more if it comes back; the books were so before.
fn tried_once<B: Ledger, A: Allocator + Copy, R: Wait>(
    rt: &R,
    alloc: &Refuser,
    station: &Station<B, WorkedHasher, A>,
    ticket: Ticket<A>,
    before: [Option<Totals>; 2],
) -> Gone {
    let tried = station.try_once(rt, ticket);
    let asked = asked_of(alloc);
    match tried {
        Tried::NoMemory(back) => {
            let seen = (shown_by(&back), totals_at(rt, station) == before);
            (asked, Some(seen), booked_in(station.try_once(rt, back)))
        }
        tried => (asked, None, booked_in(tried)),
    }
}

/// The second uplink's answer, which carries a payload, is booked in the end: whether there was such a growth.
fn is_tried_without<B: Ledger, A: Allocator + Copy, R: Wait>(
    rt: &R,
    alloc: &Refuser,
    station: &Station<B, WorkedHasher, A>,
    number: u64,
) -> Result<bool, Fail> {
    station.queue(rt, 2, 9, &[1, 2, 3])?;
    let gone = tried_at(rt, alloc, station, number)?;
    let booked = match totals_at(rt, station) {
        [Some(first), Some(second)] => (first.booked, second.booked),
        _ => (0, 0),
    };
    same(booked, (46_336, 0))?;
    is_wanted(number, gone, ((2, 1, 0), 16))
}

/// A ticket is taken, and tried until it is booked.
#[derive(Drop)]
struct Tries;

impl AtWork for Tries {
    fn is_refused<B: Ledger, A: Allocator + Copy, R: Wait>(
        &self,
        rt: &R,
        alloc: &Refuser,
        _own: A,
        station: Station<B, WorkedHasher, A>,
        _till: Till<B>,
        number: u64,
    ) -> Result<bool, Fail> {
        is_tried_without(rt, alloc, &station, number)
    }
}

// Refuses `server_desk` `Desk::take` (the station calls it): 2: the copies, and the candidates; 1 more for a payload.
// Refuses `server_office` `Office::take` (the station calls it): as the desk's.
// Refuses `server_station` `Station::take` (without a payload in `a_worker_leaves_where_a_try_finds_no_memory`): as
// the desk's.
// Refuses `server_station` `Station::try_once`: 2, as `Ticket::try_on`.
/// It takes three growths to take it, of which one is the payload's, and two to try it.
#[test]
fn a_ticket_is_taken_and_tried(rt: HostRuntime) -> Result<(), Fail> {
    takes(&rt, rt.alloc(), 2, &Tries, 5)
}

/// An uplink is answered at a gate that notes who goes where, and asks what is booked: who has a ticket goes to gateway 1 and
/// leaves it, with its lock free, whether the try found memory or not.
#[derive(Drop)]
struct Answers;

impl AtWork for Answers {
    fn is_refused<B: Ledger, A: Allocator + Copy, R: Wait>(
        &self,
        rt: &R,
        alloc: &Refuser,
        _own: A,
        station: Station<B, WorkedHasher, A>,
        till: Till<B>,
        number: u64,
    ) -> Result<bool, Fail> {
        let mut till = till;
        alloc.refuse(number);
        let (handled, noted) = audited(rt, &station, &mut till, 2);
        let asked = asked_of(alloc);
        let (is_starved, wanted) = match handled {
            Handled::Settled(_, Some(_)) | Handled::Stray(_, Some(_)) => (false, [16, 41_216]),
            Handled::Settled(_, None) | Handled::Stray(_, None) => (true, [16, 0]),
            Handled::NotTaken(_) => (true, [0, 0]),
        };
        same(noted, wanted)?;
        is_as_asked(asked, number, is_starved, false)
    }
}

#[test]
fn a_worker_leaves_where_a_try_finds_no_memory(rt: HostRuntime) -> Result<(), Fail> {
    takes(&rt, rt.alloc(), 2, &Answers, 4)
}
