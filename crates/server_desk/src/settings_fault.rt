// Why settings are refused.
ghost use Rattle.std.specs.Prelude.{◌≡◌};

use thiserror::Error;

/// Why settings are refused.
#[derive(Clone, Copy, Debug, PartialEq, Eq, Error)]
pub enum SettingsFault {
    /// No gateway, or more than 64 gateways or 1,024 devices.
    #[error("the settings have to name 1 to 64 gateways and at most 1024 devices")]
    Count,
    /// A number is out of its range, as the text below says: gaps are microseconds, delays seconds; the offset is RX1DROffset
    /// (RP002, EU863-870), `down` the next downlink counter.
    #[error("a number in the settings is out of its range: gateway id 1 to 65535, cap 1 to 65536, gap 0 to 100000; \
         device delay 1 to 15, offset 0 to 5, down 0 to 4294967296")]
    Range,
    /// Two gateways have the same id.
    #[error("two gateways in the settings have the same id")]
    DoubleGateway,
    /// A device's RX2 frequency, in Hz, lies in none of the six sub-bands with its data rate's bandwidth (EN 300 220-2, annex B).
    #[error("the RX2 channel of a device lies in no sub-band of EU868 at its data rate")]
    NoBand,
    /// Two devices have the same DevAddr.
    #[error("two devices in the settings have the same address")]
    DoubleDevice,
}

impl SettingsFault {
    ghost use Rattle.server_desk.specs.SettingsFault.{name_of};

    /// The fault's own name, as a program prints it.
    pub fn name(self) -> &'static str
        ensures { result.now ≡ name_of self }
    {
        match self {
            SettingsFault::Count => "Count",
            SettingsFault::Range => "Range",
            SettingsFault::DoubleGateway => "DoubleGateway",
            SettingsFault::NoBand => "NoBand",
            SettingsFault::DoubleDevice => "DoubleDevice",
        }
    }
}
