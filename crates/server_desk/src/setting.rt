// What is set for one gateway and for one device.
ghost use Rattle.std.specs.Prelude.{◌≡◌};
ghost use Rattle.server_desk.specs.Taking.{keys_of};

use lora_frame::{Key, Keys};
use radio_airtime::DataRate;
use std::fmt;

/// One gateway, as it is set.
#[derive(Clone, Copy, Debug, PartialEq, Eq)]
pub struct GatewaySetting {
    /// The gateway's number, 1 to 65,535.
    pub id: u16,
    /// How many transmissions its book may keep, 1 to 65,536.
    pub cap: u32,
    /// How long it needs between two transmissions, in microseconds, 0 to 100,000.
    pub gap: u32,
}

/// One device with its session (LoRaWAN L2 1.0.4, Class A), as it is set.
#[derive(Clone, Copy, PartialEq, Eq)]
pub struct DeviceSetting {
    /// DevAddr (LoRaWAN L2 1.0.4, section 6.1.2.1).
    pub addr: u32,
    /// NwkSKey.
    pub nwk: [u8; 16],
    /// AppSKey.
    pub app: [u8; 16],
    /// RECEIVE_DELAY1: RX1 opens so many seconds after the end of an uplink, 1 to 15 (LoRaWAN L2 1.0.4, section 3.3.1).
    pub delay: u8,
    /// RX1DROffset: by how many rates RX1 lies below the uplink, 0 to 5 (RP002, EU863-870, receive windows).
    pub offset: u8,
    /// The centre of the channel of RX2, in Hz; at `rx2_rate` it lies in a sub-band.
    pub rx2_freq: u32,
    /// The data rate of RX2.
    pub rx2_rate: DataRate,
    /// The last uplink counter that was heard; `None` where there is none.
    pub up: Option<u32>,
    /// The next downlink counter, 0 to 2^32; at 2^32 all are spent.
    pub down: u64,
}

/// The session keys of a device as they are set, NwkSKey and AppSKey (LoRaWAN L2 1.0.4, sections 6.1.2.2 and 6.1.2.3), each with
/// its round keys (FIPS 197, section 5.2). Takes no memory.
pub fn keys_of(setting: &DeviceSetting) -> Keys
    ensures { result ≡ keys_of setting.now }
{
    Keys {
        nwk: Key::new(setting.nwk),
        app: Key::new(setting.app),
    }
}

/// Shows all but the keys.
impl fmt::Debug for DeviceSetting {
    fn fmt<W: fmt::Write>(&self, f: &mut fmt::Formatter<W>) -> fmt::Result {
        f.debug_struct("DeviceSetting")
            .field("addr", &self.addr)
            .field("delay", &self.delay)
            .field("offset", &self.offset)
            .field("rx2_freq", &self.rx2_freq)
            .field("rx2_rate", &self.rx2_rate)
            .field("up", &self.up)
            .field("down", &self.down)
            .finish_non_exhaustive()
    }
}
