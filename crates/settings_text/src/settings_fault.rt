// Why a text gives no settings.
ghost use Rattle.std.specs.Prelude.{◌≡◌};

use server_desk::SettingsFault;
use thiserror::Error;

/// Why a text gives no settings.
#[derive(Clone, Copy, Debug, PartialEq, Eq, Error)]
pub enum ReadFault {
    /// The text is not TOML, or its bytes are not UTF-8.
    #[error("the settings are not TOML")]
    NotToml,
    /// A gateway has no `id`, or a device no `addr`, `nwkskey` or `appskey`.
    #[error("a key is missing in the settings: a gateway needs id; a device needs addr, nwkskey and appskey")]
    Missing,
    /// A value is of another kind than its key's, or a number outside its key's type; of `rx2_dr`, above 6.
    #[error("a value in the settings is of another kind than its key's: gateway and device are arrays of tables; \
         addr is a text of 8 hexadecimal digits, nwkskey and appskey of 32; all others are whole numbers, rx2_dr at most 6")]
    Kind,
    /// The settings were read, and refused.
    #[error(transparent)]
    Checked(SettingsFault),
    /// A growth was refused.
    #[error("there is no memory for the settings")]
    NoMemory,
}

impl ReadFault {
    ghost use Rattle.settings_text.specs.SettingsFaultName.{name_of};

    /// The fault's own name, as a program prints it; for `Checked` that of the fault that it holds.
    pub fn name(self) -> &'static str
        ensures { result.now ≡ name_of self }
    {
        match self {
            ReadFault::NotToml => "NotToml",
            ReadFault::Missing => "Missing",
            ReadFault::Kind => "Kind",
            ReadFault::Checked(fault) => fault.name(),
            ReadFault::NoMemory => "NoMemory",
        }
    }
}
