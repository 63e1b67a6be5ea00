// A station that answered is finished.
ghost use Rattle.std.specs.Prelude.{◌<◌};

use crate::growth::stations::{AtWork, takes};
use crate::posts::totals_at;
use answer_ticket::Receipt;
use gateway_book::Totals;
use refusing_alloc::{Refuser, asked_of, is_as_asked, same};
use server_workers::{Closing, FinishCause, FinishFault, Handled, Ledger, NoGate, Station, Till};
use std::alloc::Allocator;
use std::sync::Wait;
use std::test::Fail;
use worked_inputs::WorkedHasher;

/// Answers an uplink, and files its receipt if it is booked.
fn file<B: Ledger, A: Allocator + Copy, R: Wait>(
    rt: &R,
    station: &Station<B, WorkedHasher, A>,
    till: &mut Till<B>,
    number: u64,
    receipts: &mut Vec<Receipt<A>, A>,
) -> Result<(), Fail> {
    match station.answer(rt, &NoGate, number, till, &mut 0) {
        Handled::Settled(_, Some(receipt)) => Ok(receipts.push(receipt)?),
        _ => Ok(()),
    }
}

/// Two tills, and the receipts of what was counted with them.
type Counted<B, A> = (Vec<Till<B>, A>, Vec<Receipt<A>, A>);

/// Answers two uplinks, each with another till.
fn answered<B: Ledger, A: Allocator + Copy, R: Wait>(
    rt: &R,
    memory: A,
    station: &Station<B, WorkedHasher, A>,
    till: Till<B>,
) -> Result<Counted<B, A>, Fail>
    requires { 16 < till.parts }
{
    let mut till = till;
    let mut other = till.split();
    let mut receipts = Vec::new(memory);
    file(rt, station, &mut till, 1, &mut receipts)?;
    file(rt, station, &mut other, 2, &mut receipts)?;
    let mut tills = Vec::new(memory);
    tills.push(till)?;
    tills.push(other)?;
    Ok((tills, receipts))
}

/// What a station came to: the airtime that was booked, and that of all totals; how many totals and books there are; and what the
/// desk says of both gateways.
pub(crate) type Came = (u64, u64, [usize; 2], [Option<u64>; 2]);

const CAME: Came = (82_432, 82_432, [2, 2], [Some(41_216), Some(41_216)]);

/// What these gateways have booked together.
fn booked_in_all(totals: &[(u16, Totals)]) -> u64 {
    let mut booked = 0u64;
    for (_, totals) in totals {
        booked = booked.saturating_add(totals.booked);
    }
    booked
}

fn came_to<A: Allocator + Copy>(closing: &Closing<WorkedHasher, A>) -> Came {
    let desk = &closing.desk;
    (
        closing.booked,
        booked_in_all(&closing.totals),
        [closing.totals.len(), closing.books.len()],
        [desk.answered(1), desk.answered(2)],
    )
}

/// What is handed back of a station that isn't finished for want of memory: whether that is told, what its books have counted,
/// and how many parts each of its two tills has.
type Back = (bool, [Option<Totals>; 2], Option<[u32; 2]>);

/// How many parts each of two tills has.
fn parts_of<B: Ledger>(tills: &[Till<B>]) -> Option<[u32; 2]> {
    match tills {
        [first, second] => Some([first.parts(), second.parts()]),
        _ => None,
    }
}

/// Finishes a station: what it came to.
pub(crate) fn finish<B: Ledger, A: Allocator + Copy>(
    memory: A,
    station: Station<B, WorkedHasher, A>,
    tills: Vec<Till<B>, A>,
    receipts: &[Receipt<A>],
) -> Result<Came, FinishFault<B, WorkedHasher, A>> {
    match station.finish(memory, tills, receipts) {
        Ok(closing) => Ok(came_to(&closing)),
        Err(fault) => Err(fault),
    }
}

/// What was handed back, and what the station came to once it was finished, if it found memory.
fn finished_again<B: Ledger, A: Allocator + Copy, R: Wait>(
    rt: &R,
    memory: A,
    receipts: &[Receipt<A>],
    fault: FinishFault<B, WorkedHasher, A>,
) -> (Back, Option<Came>) {
    let is_told = fault.cause == FinishCause::NoMemory;
    let totals = totals_at(rt, &fault.station);
    let back = (is_told, totals, parts_of(&fault.tills));
    let came = finish(memory, fault.station, fault.tills, receipts).ok();
    (back, came)
}

/// Finishes a station with the growth of this number refused, and once more if there was one, which is told.
fn is_finished_without<B: Ledger, A: Allocator + Copy, R: Wait>(
    rt: &R,
    alloc: &Refuser,
    station: Station<B, WorkedHasher, A>,
    memory: A,
    tills: Vec<Till<B>, A>,
    receipts: &[Receipt<A>],
    number: u64,
) -> Result<bool, Fail> {
    let before = (true, totals_at(rt, &station), Some([65_535, 1]));
    alloc.refuse(number);
    let finished = finish(memory, station, tills, receipts);
    let asked = asked_of(alloc);
    let (is_starved, told) = match finished {
        Ok(came) => (false, (before, Some(came))),
        Err(fault) => (true, finished_again(rt, memory, receipts, fault)),
    };
    is_closed((asked, number), is_starved, told, before)
}

/// Whether a station wasn't finished at once, where so many growths were asked for, by the number of the one that was refused;
/// what was handed back then is as it was before, and in the end all was booked.
fn is_closed(
    (asked, number): (u64, u64),
    is_starved: bool,
    told: (Back, Option<Came>),
    before: Back,
) -> Result<bool, Fail> {
    same(told, (before, Some(CAME)))?;
    is_as_asked(asked, number, is_starved, false)
}

/// A station that answered an uplink on each gateway, each with another till, is finished: with all receipts, or with none, where
/// more is looked at.
#[derive(Drop)]
struct Finishes {
    are_given: bool,
}

impl AtWork for Finishes {
    fn is_refused<B: Ledger, A: Allocator + Copy, R: Wait>(
        &self,
        rt: &R,
        alloc: &Refuser,
        own: A,
        station: Station<B, WorkedHasher, A>,
        till: Till<B>,
        number: u64,
    ) -> Result<bool, Fail> {
        let (tills, mut receipts) = answered(rt, own, &station, till)?;
        if !self.are_given {
            receipts.clear();
        }
        is_finished_without(rt, alloc, station, own, tills, &receipts, number)
    }
}

// Refuses `book_audit` `compare` (`finish` calls it): by size: a byte for each receipt, in one, and the lists of the
// books up to the first that keeps what no receipt tells; where there is one, the lists of all, and one of all their
// members; only these last where the receipts don't rise by number.
// Refuses `server_station` `Station::finish`: by size: 6 for two gateways and two receipts, 7 where no receipt is
// given.
#[test]
fn a_station_is_finished(rt: HostRuntime) -> Result<(), Fail> {
    takes(&rt, rt.alloc(), 2, &Finishes { are_given: true }, 6)?;
    takes(&rt, rt.alloc(), 2, &Finishes { are_given: false }, 7)
}
