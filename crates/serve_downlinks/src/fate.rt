// Which downlinks may be sent.
ghost use Rattle.std.specs.Prelude.{◌≡◌};
ghost use Rattle.std.specs.Option.{option_map};
ghost use Rattle.serve_downlinks.specs.Downlinks.{to_send};
ghost use Rattle.serve_downlinks.specs.Fates.{fate_of, fate_by, fate_with, forwarder_of};

use crate::Downlink;
use forwarder_sessions::{Endpoint, Pulled, Session};

/// Whether a downlink may be sent, and how.
#[derive(Clone, Copy, Debug)]
pub enum Fate {
    /// It may not: a copy of its uplink, or of a later one, is of an earlier session of the gateway's counter.
    Barred,
    /// It can't be: nothing is known of the gateway, it has sent no PULL_DATA, or none of its packets was heard.
    Unreachable,
    /// It may be sent.
    Sendable {
        /// Where the gateway's datagrams go.
        peer: Endpoint,
        /// The gateway's counter at which the transmission begins, in microseconds modulo 2^32.
        tmst: u32,
        /// The power of the transmission, in dBm.
        power_dbm: u8,
    },
}

/// Whether a downlink may be sent, by what is known of all gateways. Takes no memory.
pub fn fate_of(downlink: &Downlink<'_>, sessions: &[Session]) -> Fate
    ensures { result ≡ fate_of (to_send downlink.now) sessions.now }
{
    match session_of(sessions, downlink.candidate.gateway) {
        Some(session) => fate_by(downlink, session),
        None => Fate::Unreachable,
    }
}

/// The same by its gateway's.
fn fate_by(downlink: &Downlink<'_>, session: &Session) -> Fate
    ensures { result ≡ fate_by (to_send downlink.now) session.now }
{
    if !session.may_answer(downlink.number) {
        return Fate::Barred;
    }
    fate_with(
        session.forwarder().power_dbm,
        session.pulled(),
        session.tmst_of(downlink.candidate.start),
    )
}

/// The same of one that isn't barred, by the gateway's power in dBm, its last PULL_DATA, and the counter at which it begins.
fn fate_with(power_dbm: u8, pulled: Option<Pulled>, tmst: Option<u32>) -> Fate
    ensures { result ≡ fate_with power_dbm pulled tmst }
{
    match (pulled, tmst) {
        (Some(pulled), Some(tmst)) => Fate::Sendable {
            peer: pulled.peer,
            tmst,
            power_dbm,
        },
        _ => Fate::Unreachable,
    }
}

/// What is known of the gateway with this number: the first, if several have it.
fn session_of(sessions: &[Session], gateway: u16) -> Option<&Session>
    ensures { option_map (λ session. session.now) result ≡ forwarder_of gateway sessions.now }
{
    sessions
        .iter()
        .find(|session| session.forwarder().gateway == gateway)
}
