// Members of rosters, and how they get in.
ghost use Rattle.std.specs.Prelude.{IsTrue};
ghost use Rattle.resv_list.specs.Reservations.{IsFree};

use radio_airtime::DataRate;
use resv_list::{Reservation, Roster, RosterFault};
use std::test::Fail;
use test_asserts::equal;

/// Twelve bytes with its start as its number.
fn made(start: u64, freq_hz: u32, rate: DataRate) -> Result<Reservation, Fail> {
    match Reservation::new(start, start, freq_hz, rate, 12) {
        Some(member) => Ok(member),
        None => Err(Fail::new("it is not fit")),
    }
}

/// Twelve bytes on 868.1 MHz at DR5: 41,216 microseconds on air.
pub(crate) fn in_m(start: u64) -> Result<Reservation, Fail> {
    made(start, 868_100_000, DataRate::Dr5)
}

/// The same in one of three sub-bands, each with its own rate, by the start.
pub(crate) fn mixed_at(start: u64) -> Result<Reservation, Fail> {
    match start % 3 {
        0 => made(start, 863_500_000, DataRate::Dr0),
        1 => made(start, 868_100_000, DataRate::Dr5),
        _ => made(start, 869_525_000, DataRate::Dr3),
    }
}

/// Whether no member of any roster begins at `start`.
fn is_free<R: Roster>(roster: &R, start: u64) -> bool
    ensures { IsTrue result → IsFree start (R.list roster.now) }
{
    match roster.first_from(start) {
        Some(member) => member.start != start,
        None => true,
    }
}

/// What any roster answers to one more; none where a member begins at its start.
pub(crate) fn inserted<R: Roster>(
    roster: &mut R,
    member: Reservation,
) -> Option<Result<(), (RosterFault, Reservation)>> {
    if is_free(roster, member.start) {
        Some(roster.insert(member))
    } else {
        None
    }
}

/// Puts one more into any roster.
pub(crate) fn put<R: Roster>(roster: &mut R, member: Reservation) -> Result<(), Fail> {
    equal(&inserted(roster, member), &Some(Ok(())))
}
