// Why a text gives no settings of a server that packet forwarders are pointed at.
ghost use Rattle.std.specs.Prelude.{◌≡◌};

use settings_text::ReadFault;
use thiserror::Error;

/// Why a text gives no settings of a server that packet forwarders are pointed at.
#[derive(Clone, Copy, Debug, PartialEq, Eq, Error)]
pub enum ServeFault {
    /// A run would refuse them too, or a growth was refused.
    #[error(transparent)]
    Read(ReadFault),
    /// A gateway has no `eui`.
    #[error("a key is missing in the settings: a gateway needs eui, a text of 16 hexadecimal digits")]
    Missing,
    /// A value is of another kind than its key's, or a number outside its key's type: 8 bits for `power`, 32 for `lead`.
    #[error("a value in the settings is of another kind than its key's: eui is a text of 16 hexadecimal digits, from one of an IPv4 \
         address; power and lead are whole numbers")]
    Kind,
    /// A number is out of its range.
    #[error("a number in the settings is out of its range: power 0 to 27 dBm, lead 0 to 700000 us")]
    Range,
    /// A gateway's gap is below 45,000 microseconds.
    #[error("a gateway in the settings has a gap below the 45000 us that packet forwarders need")]
    Gap,
    /// Two gateways have the same EUI.
    #[error("two gateways in the settings have the same eui")]
    DoubleEui,
}

impl ServeFault {
    ghost use Rattle.serve_settings.specs.ServeFaultName.{name_of};

    /// The fault's own name, as a program prints it; for `Read` that of the fault that it holds.
    pub fn name(self) -> &'static str
        ensures { result.now ≡ name_of self }
    {
        match self {
            ServeFault::Read(fault) => fault.name(),
            ServeFault::Missing => "Missing",
            ServeFault::Kind => "Kind",
            ServeFault::Range => "Range",
            ServeFault::Gap => "Gap",
            ServeFault::DoubleEui => "DoubleEui",
        }
    }
}
