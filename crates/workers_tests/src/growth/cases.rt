// A call of a station whose growths are refused, with what comes before it and after it.

use crate::growth::calls::{Row, STARVED, answer_to};
use crate::growth::desk_cases::CASES;
use crate::growth::stations::{AtWork, takes};
use refusing_alloc::{Refuser, was_refused};
use server_workers::{Ledger, Station, Till};
use std::alloc::{Allocator, Global};
use std::sync::Wait;
use std::test::Fail;
use test_asserts::equal_at;
use worked_inputs::WorkedHasher;

/// When a call of a case is made.
pub(crate) enum Turn {
    /// At its place, with memory.
    Plain,
    /// At its place, with a growth refused. A case has one such call.
    Refused,
    /// At its place with memory, where that growth was asked for.
    Again,
}

/// A call whose growths are refused, amid others.
pub(crate) struct Case {
    pub(crate) name: &'static str,
    /// How many growths it takes.
    pub(crate) growths: u64,
    pub(crate) rows: &'static [(Turn, Row)],
}

/// No call makes so many growths.
const NONE: u64 = u64::MAX;

/// Makes a call of the case with this name, with the growth of this number refused: whether there was one. Else it answers as
/// ever.
fn is_refused_once<B: Ledger, A: Allocator + Copy, R: Wait>(
    rt: &R,
    memory: Global,
    alloc: &Refuser,
    station: &Station<B, WorkedHasher, A>,
    name: &'static str,
    row: &Row,
    number: u64,
) -> Result<bool, Fail> {
    alloc.refuse(number);
    let found = answer_to(rt, memory, station, row.0)?;
    let is_starved = found == STARVED;
    let wanted = if is_starved { STARVED } else { row.1 };
    equal_at(&(name, row.1), &found, &wanted)?;
    was_refused(alloc, number, is_starved, false)
}

/// A case, whose frames stand where no growth is refused.
#[derive(Drop)]
struct Calling<'c>(Global, &'c Case);

impl<'c> AtWork for Calling<'c> {
    /// Makes the calls of the case. Once the growth was refused, the call answers as ever, and so do those that change nothing,
    /// and those after it.
    fn is_refused<B: Ledger, A: Allocator + Copy, R: Wait>(
        &self,
        rt: &R,
        alloc: &Refuser,
        _own: A,
        station: Station<B, WorkedHasher, A>,
        _till: Till<B>,
        number: u64,
    ) -> Result<bool, Fail> {
        let mut is_starved = false;
        for (turn, row) in self.1.rows {
            let refused = match turn {
                Turn::Plain => NONE,
                Turn::Refused => number,
                Turn::Again if is_starved => NONE,
                Turn::Again => continue,
            };
            is_starved |= is_refused_once(rt, self.0, alloc, &station, self.1.name, row, refused)?;
        }
        Ok(is_starved)
    }
}

// Refuses `server_desk` `Desk::queue` (the station calls it): 1 for the payload, and by size.
// Refuses `server_desk` `Desk::hear` (the station calls it): by size: 10 for the first uplink, 2 for the second, 1
// for a second copy.
// Refuses `server_office` `Office::queue` (the station calls it): as the desk's.
// Refuses `server_office` `Office::hear` (the station calls it): as the desk's.
// Refuses `server_station` `Station::queue`: as the desk's.
// Refuses `server_station` `Station::hear`: as the desk's.
/// Payloads are queued and copies are heard, each with each of its growths refused.
#[test]
fn calls_of_a_station(rt: HostRuntime) -> Result<(), Fail> {
    for case in &CASES {
        takes(&rt, rt.alloc(), 0, &Calling(rt.alloc(), case), case.growths)?;
    }
    Ok(())
}
