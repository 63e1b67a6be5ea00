// What is set of a gateway's packet forwarder.

/// The least gap of a gateway behind a packet forwarder, in microseconds: it wants so long between two transmissions.
pub const LEAST_GAP_US: u32 = 45_000;

/// The greatest power in dBm.
pub const MOST_POWER_DBM: u8 = 27;

/// The greatest lead in microseconds.
pub const MOST_LEAD_US: u32 = 700_000;

/// A gateway's packet forwarder, as it is set.
#[derive(Clone, Copy, Debug, PartialEq, Eq)]
pub struct Forwarder {
    /// The gateway's EUI, first byte first, by which its datagrams name it.
    pub eui: [u8; 8],
    /// The IPv4 address that its datagrams have to come from; `None` where any may be.
    pub from: Option<[u8; 4]>,
    /// The power of its transmissions in dBm, 0 to 27.
    pub power_dbm: u8,
    /// How long before a transmission its datagram is sent at the latest, in microseconds, 0 to 700,000.
    pub lead_us: u32,
}
