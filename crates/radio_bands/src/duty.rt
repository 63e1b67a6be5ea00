ghost use Rattle.std.specs.Prelude.{◌≡◌};
ghost use Rattle.radio_bands.specs.Band.{limit_of};

use crate::Band;

/// How long a gateway may send in the sub-band within any hour, in microseconds: its duty cycle of
/// 0.1 %, 1 % or 10 % of 3,600,000,000 (ETSI EN 300 220-2, annex B, duty cycle over one hour).
pub fn limit_us(band: Band) -> u64
    ensures { result ≡ limit_of band }
{
    match band {
        Band::K | Band::N => 3_600_000,
        Band::L | Band::M | Band::Q => 36_000_000,
        Band::P => 360_000_000,
    }
}
