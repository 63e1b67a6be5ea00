// The keys of a gateway and of a device, and what each may hold (docs/FORMATS.md, "Settings").
ghost use Rattle.std.specs.Prelude.{◌≡◌, IfSome};
ghost use Rattle.settings_check.specs.KnownNames.{key_name};

use crate::walk::TableList;

/// What a key may hold.
#[derive(Clone, Copy, Debug)]
pub(crate) enum Rule {
    /// A whole number from `low` to `high`. Above `most` it doesn't fit the key's type.
    Whole { low: i64, high: i64, most: i64 },
    /// A text of so many hexadecimal digits.
    Digits(usize),
    /// The same of a session key, of which nothing is ever shown.
    Secret(usize),
}

/// A key of a gateway or of a device.
#[derive(Clone, Copy, Debug, PartialEq, Eq)]
pub(crate) enum SettingKey {
    /// A gateway's number.
    Id,
    /// The most transmissions that its book keeps.
    Cap,
    /// The microseconds that it needs between two transmissions.
    Gap,
    /// DevAddr (LoRaWAN L2 1.0.4, section 6.1.2.1).
    Addr,
    /// NwkSKey and AppSKey (sections 6.1.2.2 and 6.1.2.3).
    NwkSKey,
    AppSKey,
    /// RECEIVE_DELAY1 in seconds (section 3.3.1).
    Delay,
    /// RX1DROffset (RP002, EU863-870, receive windows).
    Offset,
    /// The channel of RX2, its centre in Hz, and its data rate.
    Rx2Freq,
    Rx2Rate,
    /// The last uplink counter, and the next downlink counter.
    Up,
    Down,
}

/// All keys, in the order in which a server reads them.
pub(crate) const KEYS: [SettingKey; 12] = [
    SettingKey::Id,
    SettingKey::Cap,
    SettingKey::Gap,
    SettingKey::Addr,
    SettingKey::NwkSKey,
    SettingKey::AppSKey,
    SettingKey::Delay,
    SettingKey::Offset,
    SettingKey::Rx2Freq,
    SettingKey::Rx2Rate,
    SettingKey::Up,
    SettingKey::Down,
];

/// The keys of a gateway that a server reads which packet forwarders are pointed at, and no other: they are passed over.
pub(crate) const FORWARDER_KEYS: [&str; 4] = ["eui", "from", "power", "lead"];

/// Whether a table of the list may have a key of this name for such a server.
pub(crate) fn is_for_forwarders(list: TableList, name: &str) -> bool {
    list == TableList::Gateways && FORWARDER_KEYS.iter().any(|key| *key == name)
}

/// The greatest number of 32 bits.
const U32_MOST: i64 = 4_294_967_295;

impl SettingKey {
    /// The key of this name that a table of the list may have.
    pub(crate) fn named(list: TableList, name: &str) -> Option<SettingKey>
        ensures { IfSome result (λ key. key_name key ≡ name.now) }
    {
        for key in KEYS {
            if key.list() == list && key.name() == name {
                return Some(key);
            }
        }
        None
    }

    /// Whose key it is.
    pub(crate) fn list(self) -> TableList {
        match self {
            SettingKey::Id | SettingKey::Cap | SettingKey::Gap => TableList::Gateways,
            _ => TableList::Devices,
        }
    }

    /// Its name.
    pub(crate) fn name(self) -> &'static str
        ensures { result.now ≡ key_name self }
    {
        match self {
            SettingKey::Id => "id",
            SettingKey::Cap => "cap",
            SettingKey::Gap => "gap",
            SettingKey::Addr => "addr",
            SettingKey::NwkSKey => "nwkskey",
            SettingKey::AppSKey => "appskey",
            SettingKey::Delay => "delay",
            SettingKey::Offset => "offset",
            SettingKey::Rx2Freq => "rx2_freq",
            SettingKey::Rx2Rate => "rx2_dr",
            SettingKey::Up => "up",
            SettingKey::Down => "down",
        }
    }

    /// What it may hold.
    pub(crate) fn rule(self) -> Rule {
        let (low, high, most) = match self {
            SettingKey::Addr => return Rule::Digits(8),
            SettingKey::NwkSKey | SettingKey::AppSKey => return Rule::Secret(32),
            SettingKey::Id => (1, 65_535, 65_535),
            SettingKey::Cap => (1, 65_536, U32_MOST),
            SettingKey::Gap => (0, 100_000, U32_MOST),
            SettingKey::Delay => (1, 15, 255),
            SettingKey::Offset => (0, 5, 255),
            SettingKey::Rx2Rate => (0, 6, 6),
            SettingKey::Rx2Freq | SettingKey::Up => (0, U32_MOST, U32_MOST),
            SettingKey::Down => (0, 4_294_967_296, i64::MAX),
        };
        Rule::Whole { low, high, most }
    }

    /// What holds where it is left out; None where it has to be there.
    pub(crate) fn default(self) -> Option<&'static str> {
        match self {
            SettingKey::Id | SettingKey::Addr | SettingKey::NwkSKey | SettingKey::AppSKey => None,
            SettingKey::Cap => Some("4096"),
            SettingKey::Delay => Some("1"),
            SettingKey::Rx2Freq => Some("869525000"),
            SettingKey::Up => Some("none"),
            SettingKey::Gap | SettingKey::Offset | SettingKey::Rx2Rate | SettingKey::Down => Some(
                "0",
            ),
        }
    }
}
