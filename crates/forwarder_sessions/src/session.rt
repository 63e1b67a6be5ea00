// One gateway's packet forwarder, and what is known of it.
ghost use Rattle.std.specs.Prelude.{◌≡◌, ◌≤◌, ◌^◌};
ghost use Rattle.gateway_clock.specs.Clock.{heard, line, tmst_of};
ghost use Rattle.forwarder_sessions.specs.Sessions.{resumed_session, has_eui, may_come, is_recent, heard_by, joined_by, may_answer, pulled_by, renumbered, tick_of};

use gateway_clock::{GatewayClock, Placed};
use std::marker::Model;

/// What a gateway's clock shows at least when a server opens that has never heard it, in microseconds: so far below it the first
/// packet may be placed.
pub const FIRST_HIGH: u64 = 2_000_000;

/// How long after a PULL_DATA its gateway's packets are heard, in microseconds.
const PULL_HOLDS: u64 = 60_000_000;

/// How old the newest packet may be for the gateway's clock to be reckoned from it, in microseconds.
const OLDEST: u64 = 2_000_000;

/// Where a datagram comes from, or goes to: an IPv4 address, first byte first, and a port of UDP.
#[derive(Clone, Copy, Debug)]
pub struct Endpoint {
    pub ip: [u8; 4],
    pub port: u16,
}

/// A gateway's packet forwarder, as the settings have it.
#[derive(Clone, Copy, Debug)]
pub struct Forwarder {
    /// The gateway's number.
    pub gateway: u16,
    /// Its EUI, first byte first.
    pub eui: [u8; 8],
    /// The one address that its datagrams may come from; any where there is none.
    pub from: Option<[u8; 4]>,
    /// How long before a transmission starts the gateway has to be told, in microseconds.
    pub lead: u32,
    /// The power of the gateway's transmissions, in dBm.
    pub power_dbm: u8,
}

/// A PULL_DATA: the gateway's downlinks go to where it came from.
#[derive(Clone, Copy, Debug)]
pub struct Pulled {
    pub peer: Endpoint,
    /// When it came, in microseconds of the server's clock.
    pub at: u64,
}

/// The packet that was heard last.
#[derive(Clone, Copy, Debug)]
pub struct Newest {
    /// When it was received, in microseconds of the gateway's clock.
    pub at: u64,
    /// When it came, in microseconds of the server's clock.
    pub arrived: u64,
}

/// What is known of one gateway's packet forwarder.
#[derive(Drop, Debug)]
pub struct Session {
    forwarder: Forwarder,
    clock: GatewayClock,
    pulled: Option<Pulled>,
    newest: Option<Newest>,
    /// The greatest number of an uplink of which the gateway told a copy, 0 for none.
    joined: u64,
    /// The same before this session of its counter.
    barred: u64,
}

impl Model for Session {
    ghost use Rattle.forwarder_sessions.specs.Sessions.{Known, IsKnown};

    ghost Value = { Known };

    ghost view = { λ s. record {
      forwarder = s.forwarder;
      clock = s.clock;
      pulled = s.pulled;
      newest = s.newest;
      joined = s.joined;
      barred = s.barred;
    } };

    ghost invariant = { λ s. IsKnown (record {
      forwarder = s.forwarder;
      clock = s.clock;
      pulled = s.pulled;
      newest = s.newest;
      joined = s.joined;
      barred = s.barred;
    }) };
}

impl Session {
    /// A packet forwarder of which nothing was heard since the server began. Its gateway's clock shows nothing before `high`, in
    /// microseconds and at most 2^60.
    pub(crate) fn new(forwarder: Forwarder, high: u64) -> Self
        requires { high ≤ 2 ^ 60 }
        ensures { result ≡ resumed_session (forwarder, high) }
    {
        Session {
            forwarder,
            clock: GatewayClock::new(high),
            pulled: None,
            newest: None,
            joined: 0,
            barred: 0,
        }
    }

    /// The packet forwarder, as the settings have it.
    pub fn forwarder(&self) -> Forwarder
        ensures { result ≡ self.now.forwarder }
    {
        self.forwarder
    }

    /// The gateway's last PULL_DATA, if it sent one: its downlinks go to where that came from.
    pub fn pulled(&self) -> Option<Pulled>
        ensures { result ≡ self.now.pulled }
    {
        self.pulled
    }

    /// The packet that was heard last, if one was.
    pub fn newest(&self) -> Option<Newest>
        ensures { result ≡ self.now.newest }
    {
        self.newest
    }

    /// Whether this is the gateway's EUI.
    pub(crate) fn has_eui(&self, eui: &[u8; 8]) -> bool
        ensures { result ≡ has_eui eui.now self.now }
    {
        self.forwarder.eui.as_slice() == eui.as_slice()
    }

    /// Whether the gateway's last PULL_DATA is at most 60 s old.
    pub(crate) fn is_recent(&self, now: u64) -> bool
        ensures { result ≡ is_recent now self.now.pulled }
    {
        match self.pulled {
            Some(pulled) => now <= pulled.at.saturating_add(PULL_HOLDS),
            None => false,
        }
    }

    /// Whether a datagram from this endpoint may be this gateway's.
    pub(crate) fn may_come(&self, source: Endpoint) -> bool
        ensures { result ≡ may_come self.now.forwarder source }
    {
        match self.forwarder.from {
            Some(ip) => ip.as_slice() == source.ip.as_slice(),
            None => true,
        }
    }

    /// Takes in a PULL_DATA.
    pub(crate) fn pull(&mut self, source: Endpoint, now: u64)
        ensures { self.new ≡ pulled_by source now self.old }
    {
        self.pulled = Some(Pulled {
            peer: source,
            at: now,
        });
    }

    /// Takes in a packet whose counter is `tmst` and which comes when the server's clock shows `now`, in microseconds and at most
    /// 2^60: answers when the gateway received it, on the gateway's clock, and whether a session begins with it.
    pub(crate) fn hear(&mut self, tmst: u32, now: u64) -> Placed
        requires { now ≤ 2 ^ 60 }
        ensures at { result.at ≡ (heard self.old.clock tmst now).at }
        ensures session { result.is_new ≡ (heard self.old.clock tmst now).is_new }
        ensures known { self.new ≡ heard_by tmst now self.old }
    {
        let placed = self.clock.hear(tmst, now);
        self.newest = Some(Newest {
            at: placed.at,
            arrived: now,
        });
        if placed.is_new {
            self.barred = self.joined;
        }
        placed
    }

    /// Notes that a copy which the gateway told belongs to the uplink with this number.
    pub(crate) fn join(&mut self, number: u64)
        ensures { self.new ≡ joined_by number self.old }
    {
        self.joined = self.joined.max(number);
    }

    /// The greatest number of an uplink of which the gateway told a copy, 0 for none.
    pub fn joined(&self) -> u64
        ensures { result ≡ self.now.joined }
    {
        self.joined
    }

    /// Numbers of uplinks begin at 1 again: which ones the gateway told is forgotten.
    pub(crate) fn renumber(&mut self)
        ensures { self.new ≡ renumbered self.old }
    {
        self.joined = 0;
        self.barred = 0;
    }

    /// Whether the gateway may answer the uplink with this number: no copy of that one or of a later one is of an earlier session, in
    /// which its counter stood for other moments.
    pub fn may_answer(&self, number: u64) -> bool
        ensures { result ≡ may_answer number self.now }
    {
        self.barred < number
    }

    /// What the gateway's clock shows at least when the server's shows `now`, both in microseconds; `now` is at most 2^60.
    pub fn line(&self, now: u64) -> u64
        requires { now ≤ 2 ^ 60 }
        ensures { result ≡ line self.now.clock now }
    {
        self.clock.line(now)
    }

    /// The moment before which this gateway can't be told of a transmission in time, when the server's clock shows `now`: what its
    /// clock shows by the packet that was heard last, and its lead. None where no packet was heard in the last 2 s. All in
    /// microseconds; `now` is at most 2^60.
    pub fn tick(&self, now: u64) -> Option<u64>
        requires { now ≤ 2 ^ 60 }
        ensures { result ≡ tick_of now self.now }
    {
        let Some(newest) = self.newest else {
            return None;
        };
        if newest.arrived + OLDEST < now {
            return None;
        }
        let passed = now.saturating_sub(newest.arrived);
        Some(newest.at + passed + u64::from(self.forwarder.lead))
    }

    /// The counter that stands for a moment of the gateway's clock in its session, as a downlink tells it; None where no packet was
    /// heard.
    pub fn tmst_of(&self, start: u64) -> Option<u32>
        ensures { result ≡ tmst_of self.now.clock start }
    {
        self.clock.tmst_of(start)
    }
}
