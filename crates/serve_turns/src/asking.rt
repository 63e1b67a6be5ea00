// The PULL_RESPs of a pass.
ghost use Rattle.std.specs.Prelude.{◌≡◌, [], ◌∷◌, ◌++◌, map, IfOk, OnOk, if◌then◌else◌};
ghost use Rattle.serve_downlinks.specs.Downlinks.{to_send};
ghost use Rattle.serve_downlinks.specs.Fates.{fate_of};
ghost use Rattle.serve_turns.specs.Sending.{asked, asked_by, is_sendable, sendable};

use forwarder_sessions::{Endpoint, NoMemory, Session};
use serve_downlinks::{Downlink, Fate, fate_of, pull_resp_for};
use std::alloc::Allocator;
use std::marker::Model;

/// A PULL_RESP: the downlink, where it goes, and its bytes.
#[derive(Drop)]
pub(crate) struct PullResp<'a, A: Allocator> {
    pub(crate) downlink: Downlink<'a>,
    pub(crate) peer: Endpoint,
    pub(crate) bytes: Vec<u8, A>,
}

impl<'a, A: Allocator> Model for PullResp<'a, A> {
    ghost use Rattle.serve_downlinks.specs.Downlinks.{to_send};
    ghost use Rattle.serve_turns.specs.Sending.{Asked};

    ghost Value = { Asked };

    ghost view = { λ p. record { downlink = to_send p.downlink; peer = p.peer; bytes = p.bytes.items } };
}

/// The PULL_RESP of each downlink that may be sent, by what is known of the packet forwarders.
pub(crate) fn asked<'a, A: Allocator + Copy>(
    alloc: A,
    sessions: &[Session],
    downlinks: &[Downlink<'a>],
) -> Result<Vec<PullResp<'a, A>, A>, NoMemory>
    ensures { IfOk result (λ all. all.items ≡ asked sessions.now (map to_send downlinks.now)) }
{
    let mut all = Vec::new(alloc);
    for downlink in downlinks {
        add_asked(alloc, &mut all, sessions, downlink)?;
    }
    Ok(all)
}

/// Adds that of one, if it may be sent.
fn add_asked<'a, A: Allocator + Copy>(
    alloc: A,
    all: &mut Vec<PullResp<'a, A>, A>,
    sessions: &[Session],
    downlink: &Downlink<'a>,
) -> Result<(), NoMemory>
    ensures { OnOk result (all.new.items
        ≡ all.old.items ++ asked_by (to_send downlink.now) (fate_of (to_send downlink.now) sessions.now)) }
{
    match fate_of(downlink, sessions) {
        Fate::Barred | Fate::Unreachable => Ok(()),
        Fate::Sendable {
            peer,
            tmst,
            power_dbm,
        } => Ok(all.push(PullResp {
            downlink: *downlink,
            peer,
            bytes: pull_resp_for(alloc, downlink, tmst, power_dbm)?,
        })?),
    }
}

/// The downlinks that may be sent.
pub(crate) fn sendable<'a, A: Allocator>(
    alloc: A,
    sessions: &[Session],
    downlinks: &[Downlink<'a>],
) -> Result<Vec<Downlink<'a>, A>, NoMemory>
    ensures { IfOk result (λ all. map to_send all.items ≡ sendable sessions.now (map to_send downlinks.now)) }
{
    let mut all = Vec::new(alloc);
    for downlink in downlinks {
        add_sendable(&mut all, downlink, is_sendable(fate_of(downlink, sessions)))?;
    }
    Ok(all)
}

/// Adds one, if it is to be added.
fn add_sendable<'a, A: Allocator>(
    all: &mut Vec<Downlink<'a>, A>,
    downlink: &Downlink<'a>,
    added: bool,
) -> Result<(), NoMemory>
    ensures { OnOk result (map to_send all.new.items
        ≡ map to_send all.old.items ++ (if added then to_send downlink.now ∷ [] else [])) }
{
    if added {
        return Ok(all.push(*downlink)?);
    }
    Ok(())
}

/// Whether a downlink with this fate may be sent.
fn is_sendable(fate: Fate) -> bool
    ensures { result ≡ is_sendable fate }
{
    match fate {
        Fate::Sendable { .. } => true,
        Fate::Barred | Fate::Unreachable => false,
    }
}
