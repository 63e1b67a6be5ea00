ghost use Rattle.std.specs.Prelude.{◌≡◌, ◌≤◌, ◌<◌, Some, None, if◌then◌else◌, find};
ghost use Rattle.std.specs.Option.{option_map};
ghost use Rattle.resv_list.specs.Fit.{last_end};
ghost use Rattle.resv_list.specs.Reservations.{net};
ghost use Rattle.gateway_book.specs.Answer.{total_limit};
ghost use Rattle.gateway_book.specs.Duty.{would_pass, full_hour, opens_full, hour_from};

use radio_bands::{Band, limit_us};
use resv_list::{HOUR, Roster, reach};

/// An hour, and how full it is.
#[derive(Clone, Copy)]
pub(crate) struct FullHour {
    /// Where it opens, in microseconds.
    pub(crate) from: u64,
    /// The airtime of its band that begins in it, in microseconds.
    pub(crate) spent: u64,
}

/// The first hour that holds `start` and would pass the band's limit with so much more airtime, of those that open at the
/// start and at the starts of the band's members. Where the two hours round the start leave room, no single hour is looked
/// at.
pub(crate) fn full_hour<R: Roster>(
    roster: &R,
    band: Band,
    start: u64,
    airtime: u64,
) -> Option<FullHour>
    requires early { start ≤ last_end }
    requires short { airtime < 10000000 }
    requires bounded { net (R.list roster.now) ≤ total_limit }
    ensures { result ≡ option_map (hour_from (R.list roster.now) band) (full_hour (R.list roster.now) band start airtime) }
{
    let first = reach(start);
    let limit = limit_us(band);
    if airtime <= limit && roster.is_within(band, first, start + HOUR, limit - airtime) {
        return None;
    }
    match first_full(roster, band, start, airtime) {
        Some(hour) => Some(hour),
        None => overfull(roster, band, airtime, start),
    }
}

/// The first hour which holds `start`, would be overfull and is a member's own. Where the ask alone would pass the limit,
/// each hour that a member opens would be overfull: none of them is empty.
fn first_full<R: Roster>(roster: &R, band: Band, start: u64, airtime: u64) -> Option<FullHour>
    requires { start ≤ last_end }
    ensures { result ≡ option_map (λ r. hour_from (R.list roster.now) band r.start)
        (find (opens_full (R.list roster.now) band start airtime) (R.list roster.now)) }
{
    let first = reach(start);
    let room = limit_us(band).saturating_sub(airtime);
    let member = roster.first_over(band, first, start + 1, room)?;
    Some(hour_from(roster, band, member.start))
}

/// The hour that opens at `from`, if it would pass the band's limit with so much more airtime.
fn overfull<R: Roster>(roster: &R, band: Band, airtime: u64, from: u64) -> Option<FullHour>
    requires early { from ≤ last_end }
    requires short { airtime < 10000000 }
    requires bounded { net (R.list roster.now) ≤ total_limit }
    ensures { result ≡ (if would_pass (R.list roster.now) band airtime from then Some (hour_from (R.list roster.now) band from)
        else None) }
{
    let hour = hour_from(roster, band, from);
    (hour.spent + airtime > limit_us(band)).then_some(hour)
}

/// The hour that opens at `from`.
fn hour_from<R: Roster>(roster: &R, band: Band, from: u64) -> FullHour
    requires { from ≤ last_end }
    ensures { result ≡ hour_from (R.list roster.now) band from }
{
    let spent = roster.spent(band, from, from + HOUR);
    FullHour { from, spent }
}
