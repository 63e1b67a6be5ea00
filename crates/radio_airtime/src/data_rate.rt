ghost use Rattle.std.specs.Prelude.{◌≡◌, ◌≤◌, ◌↔◌, IsSome, IfSome};

/// A LoRa data rate of EU868, DR0 to DR6 (RP002, "EU863-870 Data Rate and End-device Output Power
/// encoding"). DR7 (FSK) and LR-FHSS are no members.
#[derive(Clone, Copy, Debug, PartialEq, Eq, Hash, PartialOrd, Ord)]
pub enum DataRate {
    /// SF12 at 125 kHz.
    Dr0,
    /// SF11 at 125 kHz.
    Dr1,
    /// SF10 at 125 kHz.
    Dr2,
    /// SF9 at 125 kHz.
    Dr3,
    /// SF8 at 125 kHz.
    Dr4,
    /// SF7 at 125 kHz.
    Dr5,
    /// SF7 at 250 kHz.
    Dr6,
}

impl DataRate {
    ghost use Rattle.radio_airtime.specs.DataRate.{known_rate, number_of, bandwidth_of, max_phy_of, spreading_factor_of};

    /// The data rate with this number: `Some` for 0 to 6.
    pub fn from_number(number: u8) -> Option<DataRate>
        ensures exact { result ≡ known_rate number }
        ensures known { IsSome result ↔ (number ≤ 6) }
        ensures value { IfSome result (λ rate. number_of rate ≡ number) }
    {
        match number {
            0 => Some(DataRate::Dr0),
            1 => Some(DataRate::Dr1),
            2 => Some(DataRate::Dr2),
            3 => Some(DataRate::Dr3),
            4 => Some(DataRate::Dr4),
            5 => Some(DataRate::Dr5),
            6 => Some(DataRate::Dr6),
            _ => None,
        }
    }

    /// The number behind "DR", 0 to 6.
    pub fn number(self) -> u8
        ensures { result ≡ number_of self }
    {
        match self {
            DataRate::Dr0 => 0,
            DataRate::Dr1 => 1,
            DataRate::Dr2 => 2,
            DataRate::Dr3 => 3,
            DataRate::Dr4 => 4,
            DataRate::Dr5 => 5,
            DataRate::Dr6 => 6,
        }
    }

    /// The bandwidth in Hz: 125,000, and 250,000 at DR6 (RP002, the table of data rates).
    pub fn bandwidth_hz(self) -> u32
        ensures { result ≡ bandwidth_of self }
    {
        match self {
            DataRate::Dr6 => 250_000,
            _ => 125_000,
        }
    }

    /// The greatest PHYPayload in bytes that this project sends or hears at the rate, 64, 128 or 255: the greatest
    /// MACPayload of its profile, MHDR and MIC with it (LoRaWAN L2 1.0.4, section 4.1).
    pub fn max_phy(self) -> u8
        ensures { result ≡ max_phy_of self }
    {
        match self {
            DataRate::Dr0 | DataRate::Dr1 | DataRate::Dr2 => 64,
            DataRate::Dr3 => 128,
            DataRate::Dr4 | DataRate::Dr5 | DataRate::Dr6 => 255,
        }
    }

    /// Bits in a chirp, 12 down to 7 (the datasheet's SF).
    pub(crate) fn spreading_factor(self) -> u64
        ensures { result ≡ spreading_factor_of self }
    {
        match self {
            DataRate::Dr0 => 12,
            DataRate::Dr1 => 11,
            DataRate::Dr2 => 10,
            DataRate::Dr3 => 9,
            DataRate::Dr4 => 8,
            DataRate::Dr5 | DataRate::Dr6 => 7,
        }
    }
}
