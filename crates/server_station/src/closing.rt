// What comes of a station that is finished.
ghost use Rattle.std.specs.Prelude.{◌≡◌};

use crate::{Ledger, Station, Till};
use book_audit::FinishCause;
use gateway_book::Totals;
use server_desk::{Book, Desk};
use std::alloc::{Allocator, Global};
use std::hash::BuildHasher;

/// What a station held, once all parts of its ledger are in and its books agree with its desk.
#[derive(Drop)]
pub struct Closing<S: BuildHasher, A: Allocator + Copy = Global> {
    /// The airtime of all settled answers, in microseconds.
    pub booked: u64,
    /// What each gateway's book has counted, beside the gateway's number, by number.
    pub totals: Vec<(u16, Totals), A>,
    /// The gateways' books, in the same order.
    pub books: Vec<Book<A>, A>,
    /// The desk, with all that it knows.
    pub desk: Desk<S, A>,
}

/// A station that isn't finished, as it was, with the tills as they came.
#[derive(Drop)]
pub struct FinishFault<B: Ledger, S: BuildHasher, A: Allocator + Copy = Global> {
    /// The first cause that holds; `NoMemory` may come before all others than `TillMissing`.
    pub cause: FinishCause,
    /// The station as it was.
    pub station: Station<B, S, A>,
    /// The tills as they came.
    pub tills: Vec<Till<B>, A>,
}

impl<B: Ledger, S: BuildHasher, A: Allocator + Copy> FinishFault<B, S, A> {
    /// The station and the tills with the cause.
    pub(crate) fn new(cause: FinishCause, station: Station<B, S, A>, tills: Vec<Till<B>, A>) -> Self
        ensures { result ≡ record { cause = cause; station = station; tills = tills } }
    {
        FinishFault {
            cause,
            station,
            tills,
        }
    }
}
