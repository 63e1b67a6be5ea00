ghost use Rattle.std.specs.Prelude.{◌≡◌, find, OnSome};
ghost use Rattle.resv_list.specs.Reservations.{without};
ghost use Rattle.gateway_book.specs.Step.{is_named, without_named};

use resv_list::{Reservation, Roster};
use thiserror::Error;

/// Why nothing was cancelled. Where both hold, the first is answered.
#[derive(Clone, Copy, Debug, PartialEq, Eq, Error)]
pub enum CancelFault {
    /// The start is not above the moment that the book was told last, so that it may be on air.
    #[error("the transmission begins no later than the book's floor")]
    Begun,
    /// No member has this number and begins at this moment.
    #[error("no transmission with this number and start is kept")]
    NotHere,
}

/// The member with this number and this start.
pub(crate) fn named<R: Roster>(roster: &R, number: u64, start: u64) -> Option<Reservation>
    ensures member { result ≡ find (is_named number start) (R.list roster.now) }
    ensures alone { OnSome result (without start (R.list roster.now) ≡ without_named (R.list roster.now) number start) }
{
    roster
        .first_from(start)
        .filter(|member| is_named(member, number, start))
}

/// Whether a member has this number and this start.
fn is_named(member: &Reservation, number: u64, start: u64) -> bool
    ensures { result ≡ is_named number start member.now }
{
    member.number == number && member.start == start
}
