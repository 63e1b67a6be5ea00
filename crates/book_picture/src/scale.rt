// Where things stand in a picture, in its own units: 1,000,000 across are the hour, and 100,000 down are a row.
ghost use Rattle.std.specs.Prelude.{◌≡◌, ◌≤◌, ◌<◌};
ghost use Rattle.radio_bands.specs.Band.{limit_of};
ghost use Rattle.book_picture.specs.Scale.{row_of, across, width_of, bar_of};

use radio_bands::{Band, limit_us};
use resv_list::Reservation;

/// How many microseconds of the hour are one unit across.
pub(crate) const UNIT: u64 = 3_600;

/// How many units the whole hour is across, and the whole limit of a sub-band.
pub(crate) const WIDTH: u64 = 1_000_000;

/// How many units a row is down.
pub(crate) const ROW: u64 = 100_000;

/// How far below the top of its row a bar stands.
pub(crate) const BAR_DOWN: u64 = 34_000;

/// How far below it the marks stand.
pub(crate) const MARK_DOWN: u64 = 60_000;

/// The least width of a mark, in units: it can still be seen.
pub(crate) const LEAST_MARK: u64 = 1_000;

/// Which row is a sub-band's, from 0 on.
pub(crate) fn row_of(band: Band) -> u64
    ensures row { result ≡ row_of band }
    ensures last { result ≤ 5 }
{
    match band {
        Band::K => 0,
        Band::L => 1,
        Band::M => 2,
        Band::N => 3,
        Band::P => 4,
        Band::Q => 5,
    }
}

/// How far across a moment stands in the hour that opens at `from`.
pub(crate) fn across(from: u64, moment: u64) -> u64
    requires { from ≤ moment }
    ensures { result ≡ across from moment }
{
    (moment - from) / UNIT
}

/// How wide a transmission's mark is.
pub(crate) fn width_of(member: &Reservation) -> u64
    ensures { result ≡ width_of member.now }
{
    LEAST_MARK.max(member.airtime() / UNIT)
}

/// How wide the bar is of so much airtime, in microseconds.
pub(crate) fn bar_of(band: Band, spent: u64) -> u64
    requires { spent ≤ limit_of band }
    ensures { result ≡ bar_of band spent }
{
    spent * WIDTH / limit_us(band)
}
