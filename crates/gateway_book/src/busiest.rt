ghost use Rattle.std.specs.Prelude.{◌≡◌};
ghost use Rattle.gateway_book.specs.Busiest.{busiest_of};

use radio_bands::Band;
use resv_list::{LAST_END, Roster};

/// The busiest hour of a band: where it opens, and its airtime.
pub(crate) fn busiest_hour<R: Roster>(roster: &R, band: Band) -> Option<(u64, u64)>
    ensures { result ≡ busiest_of (R.list roster.now) band }
{
    let most = roster.most(band);
    if most == 0 {
        return None;
    }
    let member = roster.first_over(band, 0, LAST_END, most - 1)?;
    Some((member.start, most))
}
