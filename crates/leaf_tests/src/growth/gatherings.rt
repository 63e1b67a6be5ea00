// Gatherings of copies.

use crate::windows::copy;
use refusing_alloc::{Call, Refuser, Refusing, growths_of, same, was_refused};
use std::alloc::Allocator;
use std::hash::{BuildHasher, BuildHasherDefault, FoldHasher};
use std::test::Fail;
use test_asserts::{equal_at, holds_at};
use uplink_gather::{Gather, HearFault, Heard, Limits, Place};

const AMPLE: Limits = Limits {
    max_open: 16,
    max_ever: 64,
    max_copies: 16,
};

/// What is seen of the first gathering, and of what opens next: how many copies it has, whether it is due, whether no
/// other may open, and where this gateway's copy of this byte goes.
type Seen = (usize, Option<u64>, bool, Result<Place, HearFault>);

fn seen<S: BuildHasher, A: Allocator>(gather: &Gather<S, A>, byte: u8, gateway: u16) -> Seen {
    (
        gather.copies(1).len(),
        gather.due(1_000_000),
        gather.is_crowded(),
        gather.place(&[byte], gateway, 0),
    )
}

/// A gateway's copy of one byte, and what it is heard as.
type Row = (u8, u16, Heard);

/// The copy of this number: the first opens the first gathering, eight join it, and one of another byte opens the second.
fn row(number: u16) -> Row {
    match number {
        1 => (1, 1, Heard::Opened { n: 1 }),
        10 => (2, 1, Heard::Opened { n: 2 }),
        _ => joining(number),
    }
}

/// The copy of a gateway that joins the first gathering, which the gateways before it did.
fn joining(gateway: u16) -> Row {
    let copies = gateway as usize;
    (1, gateway, Heard::Joined { n: 1, copies })
}

/// A copy that is heard, which leaves what was gathered as it was where it is refused.
#[derive(Drop)]
struct Hearing<S: BuildHasher, A: Allocator>(Gather<S, A>, Row);

impl<S: BuildHasher, A: Allocator + Copy> Call for Hearing<S, A> {
    fn is_refused(&mut self, alloc: &Refuser, number: u64) -> Result<bool, Fail> {
        let (byte, gateway, wanted) = self.1;
        let before = seen(&self.0, byte, gateway);
        alloc.refuse(number);
        let heard = self.0.hear(&[byte], copy(gateway, 5_000_000, 0, -100), 0);
        let is_as_before = seen(&self.0, byte, gateway) == before;
        is_heard(alloc, number, heard, wanted, is_as_before)
    }
}

/// Whether a copy found no memory: where all is as it was before, and a growth was refused. Else it is heard as it is to be.
fn is_heard(
    alloc: &Refuser,
    number: u64,
    heard: Result<Heard, HearFault>,
    as_wanted: Heard,
    is_as_before: bool,
) -> Result<bool, Fail> {
    let is_starved = heard.is_err();
    let wanted = if is_starved {
        Err(HearFault::NoMemory)
    } else {
        Ok(as_wanted)
    };
    equal_at(&number, &(heard, is_as_before), &(wanted, is_starved))?;
    was_refused(alloc, number, is_starved, false)
}

/// Each growth of the copy of this row is refused once; one that opens takes one at least.
fn takes<C: Call>(alloc: &Refuser, hearing: &mut C, row: Row) -> Result<(), Fail> {
    match growths_of(alloc, hearing) {
        Ok(growths) => holds_at(&row, growths > 0 || row.1 > 1),
        Err(fail) => Err(fail),
    }
}

/// Nothing was taken for a new list of gatherings. Then each growth of ten copies is refused once.
fn gathers<S: BuildHasher, A: Allocator + Copy>(
    alloc: &Refuser,
    hearing: &mut Hearing<S, A>,
) -> Result<(), Fail> {
    let asked = alloc.asked();
    for number in 1..11 {
        hearing.1 = row(number);
        takes(alloc, hearing, row(number))?;
    }
    same((asked, hearing.0.copies(1).len()), (0, 9))
}

/// The same on a list that was just made.
fn gathers_anew<A: Allocator + Copy>(alloc: &Refuser, own: A) -> Result<(), Fail> {
    match Gather::new(own, BuildHasherDefault::<FoldHasher>::new(), AMPLE) {
        Ok(gather) => gathers(alloc, &mut Hearing(gather, row(1))),
        Err(fault) => Err(Fail::from(fault)),
    }
}

// Refuses `uplink_gather` `Gather::new` (none is counted): 0.
// Refuses `uplink_gather` `Gather::hear`: by size.
// Refuses `uplink_gather` `Gather::hear_at` (`hear` calls it): as `hear`.
#[test]
fn a_copy_that_opens_and_copies_that_join(rt: HostRuntime) -> Result<(), Fail> {
    let alloc = &Refusing::new(rt.alloc());
    gathers_anew(alloc, alloc)
}
