// The hour that a picture shows.
ghost use Rattle.std.specs.Prelude.{◌≡◌, ◌≤◌};
ghost use Rattle.radio_bands.specs.Band.{limit_of};
ghost use Rattle.resv_list.specs.Reservations.{member_from};
ghost use Rattle.resv_list.specs.Reservations as reservations;
ghost use Rattle.gateway_book.specs.Duty.{is_within_hour};
ghost use Rattle.book_picture.specs.Hour.{latest_hour, opening_of, members_of_hour};

use gateway_book::GatewayBook;
use radio_bands::Band;
use resv_list::{HOUR, LAST_END, Reservation, Roster};

/// Where the hour of a picture opens: at the moment that is asked for, or where the hour opens that ends with the last
/// transmission. In microseconds of the gateway's clock.
pub(crate) fn opening_of<R: Roster>(book: &GatewayBook<R>, from: Option<u64>) -> u64
    ensures { result ≡ opening_of from book.now.list }
{
    match from {
        Some(moment) => moment,
        None => latest_hour(book),
    }
}

/// Where the hour opens that ends with the last transmission, in microseconds; 0 where none ends an hour behind the beginning.
fn latest_hour<R: Roster>(book: &GatewayBook<R>) -> u64
    ensures { result ≡ latest_hour book.now.list }
{
    book.law_whole();
    match book.roster().before(u64::MAX) {
        Some(last) => last.end().saturating_sub(HOUR),
        None => 0,
    }
}

/// Whether a moment lies in the hour that opens at `from`.
pub(crate) fn is_within_hour(moment: u64, from: u64) -> bool
    ensures { result ≡ is_within_hour moment from }
{
    from <= moment && moment - from < HOUR
}

/// The first transmission from `at` on of those that begin in the hour that opens at `from`.
pub(crate) fn first_of_hour<R: Roster>(roster: &R, from: u64, at: u64) -> Option<Reservation>
    ensures { result ≡ member_from at (members_of_hour (R.list roster.now) from) }
{
    let member = roster.first_from(at.max(from))?;
    is_within_hour(member.start, from).then_some(member)
}

/// The airtime of a sub-band that begins in the hour that opens at `from`, in microseconds.
pub(crate) fn spent_of<R: Roster>(book: &GatewayBook<R>, from: u64, band: Band) -> u64
    ensures spent { result ≡ reservations.spent book.now.list band from }
    ensures lawful { result ≤ limit_of band }
{
    book.law_whole();
    if from > LAST_END {
        return 0;
    }
    book.roster().spent(band, from, from + HOUR)
}
