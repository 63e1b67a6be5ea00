// A station is finished.

ghost use Rattle.std.specs.Prelude.{◌≡◌, ◌≢◌, ◌≤◌, [], map, MatchBool, IfOk, IfErr, IsErrAnd, vec_len, vec_capacity};
ghost use Rattle.std.specs.List.Sorted.{IsStrictlyIncreasing};
ghost use Rattle.air_ledger.specs.Tills.{all_parts, parts_of, amount_of};
ghost use Rattle.server_desk.specs.Desk.{total_of};
ghost use Rattle.server_station.specs.Closings.{with_totals, IsClosed, IsHandedBack};

use crate::place::Place;
use crate::shelf::{ClosingLists, Shelf, part, put_back, take_out};
use crate::{Closing, FinishFault, Ledger, Office, PARTS, Station, Tally, Till};
use answer_ticket::Receipt;
use book_audit::{FinishCause, compare};
use server_desk::Desk;
use std::alloc::Allocator;
use std::hash::BuildHasher;
use std::sync::Mutex;

impl<B: Ledger, S: BuildHasher, A: Allocator + Copy> Station<B, S, A> {
    /// Ends the station: all parts of its ledger are in, each gateway has booked what its settled answers are on air for, so
    /// that all books together have booked the tills' amount, no number is kept twice, and the reservation of each of these
    /// receipts is kept, or its gateway's floor is more than an hour past it. Otherwise the first of these that fails is
    /// told, in the order of `FinishCause`, and the station and the tills are handed back as they were; `NoMemory` comes only
    /// where a growth was refused. Waits for nobody.
    pub fn finish(
        self,
        alloc: A,
        tills: Vec<Till<B>, A>,
        receipts: &[Receipt<A>],
    ) -> Result<Closing<S, A>, FinishFault<B, S, A>>
        ensures closed { IfOk result (λ closing. IsClosed self tills.items receipts.now closing.booked closing.desk
            closing.totals.items closing.books.items) }
        ensures missing { parts_of tills.items ≢ all_parts → IsErrAnd result (λ fault. fault.cause ≡ FinishCause.TillMissing) }
        ensures back { IfErr result (λ fault. IsHandedBack self tills.items receipts.now fault.station fault.tills.items fault.cause) }
    {
        if !are_all_in(&tills) {
            return Err(FinishFault::new(FinishCause::TillMissing, self, tills));
        }
        self.empty_books(alloc, tills, receipts)
    }

    /// The same where all parts of the ledger are in: the books leave their locks, and are compared.
    fn empty_books(
        self,
        alloc: A,
        tills: Vec<Till<B>, A>,
        receipts: &[Receipt<A>],
    ) -> Result<Closing<S, A>, FinishFault<B, S, A>>
        requires { parts_of tills.items ≡ all_parts }
        ensures closed { IfOk result (λ closing. IsClosed self tills.items receipts.now closing.booked closing.desk
            closing.totals.items closing.books.items) }
        ensures back { IfErr result (λ fault. IsHandedBack self tills.items receipts.now fault.station fault.tills.items fault.cause) }
    {
        let Station { office, mut places } = self;
        let Ok(mut lists) = ClosingLists::with_room(alloc, places.len()) else {
            let station = Station { office, places };
            return Err(FinishFault::new(FinishCause::NoMemory, station, tills));
        };
        take_out(&mut places, &mut lists.shelf);
        let (desk, tally) = office.into_inner().parted();
        compare_books(alloc, desk, tally, lists, places, tills, receipts)
    }
}

/// The same where the books stand beside their gateways' numbers: whether they go with the desk, with one another and with the
/// receipts.
fn compare_books<B: Ledger, S: BuildHasher, A: Allocator + Copy>(
    alloc: A,
    desk: Desk<S, A>,
    tally: Tally<B>,
    lists: ClosingLists<A>,
    places: Vec<Place<A>, A>,
    tills: Vec<Till<B>, A>,
    receipts: &[Receipt<A>],
) -> Result<Closing<S, A>, FinishFault<B, S, A>>
    requires tally { tally ≡ total_of desk }
    requires all_in { parts_of tills.items ≡ all_parts }
    requires no_totals { lists.totals.items ≡ [] }
    requires no_books { lists.books.items ≡ [] }
    requires totals_room { vec_len lists.shelf ≤ vec_capacity lists.totals }
    requires books_room { vec_len lists.shelf ≤ vec_capacity lists.books }
    requires empty { places.items ≡ [] }
    requires room { vec_len lists.shelf ≤ vec_capacity places }
    requires rising { IsStrictlyIncreasing (map (λ s. s.0) lists.shelf.items) }
    ensures closed { IfOk result (λ closing. IsClosed (map (λ s. s.0) lists.shelf.items) tills.items receipts.now closing.booked
        closing.desk closing.totals.items closing.books.items) }
    ensures back { IfErr result (λ fault. IsHandedBack (map (λ s. s.0) lists.shelf.items) tills.items receipts.now fault.station
        fault.tills.items fault.cause) }
{
    if let Err(cause) = compare(alloc, &desk, &lists.shelf, receipts) {
        let station = lock_again(desk, tally, lists.shelf, places);
        return Err(FinishFault::new(cause, station, tills));
    }
    Ok(close(desk, tally, tills, lists))
}

/// The station with its desk and its books behind locks again.
fn lock_again<B: Ledger, S: BuildHasher, A: Allocator + Copy>(
    desk: Desk<S, A>,
    tally: Tally<B>,
    shelf: Shelf<A>,
    mut places: Vec<Place<A>, A>,
) -> Station<B, S, A>
    requires tally { tally ≡ total_of desk }
    requires empty { places.items ≡ [] }
    requires room { vec_len shelf ≤ vec_capacity places }
    requires rising { IsStrictlyIncreasing (map (λ s. s.0) shelf.items) }
    ensures { result ≡ map (λ s. s.0) shelf.items }
{
    put_back(shelf, &mut places);
    let office = Mutex::new(Office::new(desk, tally));
    Station { office, places }
}

/// What comes of a station whose books were compared.
fn close<B: Ledger, S: BuildHasher, A: Allocator + Copy>(
    desk: Desk<S, A>,
    tally: Tally<B>,
    tills: Vec<Till<B>, A>,
    lists: ClosingLists<A>,
) -> Closing<S, A>
    requires tally { tally ≡ total_of desk }
    requires all_in { parts_of tills.items ≡ all_parts }
    requires no_totals { lists.totals.items ≡ [] }
    requires no_books { lists.books.items ≡ [] }
    requires totals_room { vec_len lists.shelf ≤ vec_capacity lists.totals }
    requires books_room { vec_len lists.shelf ≤ vec_capacity lists.books }
    ensures booked { result.booked ≡ amount_of tills.items }
    ensures answered { result.booked ≡ total_of desk }
    ensures desk { result.desk ≡ desk }
    ensures totals { result.totals.items ≡ map with_totals lists.shelf.items }
    ensures books { result.books.items ≡ map (λ s. s.1) lists.shelf.items }
{
    let ClosingLists {
        shelf,
        mut totals,
        mut books,
    } = lists;
    part(shelf, &mut totals, &mut books);
    Closing {
        booked: audit(tally, tills),
        totals,
        books,
        desk,
    }
}

/// The airtime that was counted with these tills, which is all that was counted.
fn audit<B: Ledger, A: Allocator + Copy>(mut tally: Tally<B>, tills: Vec<Till<B>, A>) -> u64
    requires { parts_of tills.items ≡ all_parts }
    ensures amount { result ≡ amount_of tills.items }
    ensures total { result ≡ tally }
{
    // They are some tills, and have no more parts than the ledger.
    let Ok(mut whole) = Till::gather(tills) else {
        unreachable!()
    };
    tally.audit(&mut whole);
    tally.total()
}

/// Whether tills have all parts of the ledger together.
fn are_all_in<B: Ledger>(tills: &[Till<B>]) -> bool
    ensures { MatchBool result (parts_of tills.now ≡ all_parts) (parts_of tills.now ≢ all_parts) }
{
    Till::parts_together(tills) == Some(PARTS)
}
