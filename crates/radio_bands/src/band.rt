ghost use Rattle.std.specs.Prelude.{◌≡◌, ◌↔◌, IsTrue};
ghost use Rattle.radio_airtime.specs.declared.data_rate.DataRate.{DataRate as Rate};
ghost use Rattle.radio_bands.specs.declared.band.Band.{Band as SubBand};

use radio_airtime::DataRate;

/// A sub-band of EU868 (ETSI EN 300 220-2, annex B). Letters, edges and duty cycles are this project's
/// profile.
#[derive(Clone, Copy, Debug, PartialEq, Eq, Hash, PartialOrd, Ord)]
pub enum Band {
    /// 863 to 865 MHz, 0.1 % of an hour.
    K,
    /// 865 to 868 MHz, 1 %.
    L,
    /// 868 to 868.6 MHz, 1 %.
    M,
    /// 868.7 to 869.2 MHz, 0.1 %.
    N,
    /// 869.4 to 869.65 MHz, 10 %.
    P,
    /// 869.7 to 870 MHz, 1 %.
    Q,
}

impl Band {
    ghost use Rattle.radio_bands.specs.Band.{low_of, high_of, LiesIn, lies_in, band_of};

    /// The sub-band that a channel lies in, half its bandwidth to either side of its centre `freq_hz`,
    /// in Hz; `None` where it lies in none (RP002, EU863-870, "Physical layer", and ETSI EN 300 220-2,
    /// annex B).
    pub fn of(freq_hz: u32, rate: DataRate) -> Option<Band>
        ensures row { (band : Band) → (result ≡ Some band) ↔ LiesIn freq_hz rate band }
        ensures value { result ≡ band_of freq_hz rate }
    {
        let nearest = Self::nearest(freq_hz);
        nearest.holds(freq_hz, rate).then_some(nearest)
    }

    /// The only sub-band that a channel round `freq_hz`, in Hz, may lie in: the last one whose lower edge isn't above its
    /// centre, as each ends no later than the next one begins.
    fn nearest(freq_hz: u32) -> Band
        ensures { (rate : Rate) (band : SubBand) → LiesIn freq_hz rate band → result ≡ band }
    {
        let centre = u64::from(freq_hz);
        if centre < Band::L.low_hz() {
            return Band::K;
        }
        if centre < Band::M.low_hz() {
            return Band::L;
        }
        if centre < Band::N.low_hz() {
            return Band::M;
        }
        if centre < Band::P.low_hz() {
            return Band::N;
        }
        if centre < Band::Q.low_hz() {
            return Band::P;
        }
        Band::Q
    }

    /// Whether the channel round `freq_hz`, in Hz, lies in this sub-band.
    pub fn holds(self, freq_hz: u32, rate: DataRate) -> bool
        ensures channel { IsTrue result ↔ LiesIn freq_hz rate self }
        ensures value { result ≡ lies_in freq_hz rate self }
    {
        let centre = u64::from(freq_hz);
        let half = u64::from(rate.bandwidth_hz() / 2);
        self.low_hz() + half <= centre && centre + half <= self.high_hz()
    }

    fn low_hz(self) -> u64
        ensures { result ≡ low_of self }
    {
        match self {
            Band::K => 863_000_000,
            Band::L => 865_000_000,
            Band::M => 868_000_000,
            Band::N => 868_700_000,
            Band::P => 869_400_000,
            Band::Q => 869_700_000,
        }
    }

    fn high_hz(self) -> u64
        ensures { result ≡ high_of self }
    {
        match self {
            Band::K => 865_000_000,
            Band::L => 868_000_000,
            Band::M => 868_600_000,
            Band::N => 869_200_000,
            Band::P => 869_650_000,
            Band::Q => 870_000_000,
        }
    }
}
