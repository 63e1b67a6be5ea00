// Servers that keep a journal, and their turns.
ghost use Rattle.std.specs.Prelude.{◌≡◌, ◌≤◌, ◌^◌, true, All, IfOk, OnOk};
ghost use Rattle.server_core.specs.Opened.{AreBooksFor};
ghost use Rattle.serve_turns.specs.Turn.{IsBetweenTurns};

use crate::hosts::{Deed, Noting, Turn};
use serve_journal::{JournalState, read_journal};
use serve_opening::{Opening, opening_of};
use serve_settings::Forwarder;
use serve_turns::{Resumed, Serving, Stopped, resumed_forwarders};
use server_core::{GatewaySetting, Settings};
use std::alloc::{Allocator, Global};
use std::test::Fail;
use test_asserts::{equal, equal_at};
use worked_inputs::{DEVICE, WorkedHasher, hasher};

pub(crate) type Served = Serving<WorkedHasher, Global>;

/// What is set of two gateways' packet forwarders.
pub(crate) static SET: [Forwarder; 2] = [
    Forwarder {
        eui: [0xaa, 0x55, 0x5a, 0, 0, 0, 0, 1],
        from: None,
        power_dbm: 14,
        lead_us: 400_000,
    },
    Forwarder {
        eui: [0xaa, 0x55, 0x5a, 0, 0, 0, 0, 2],
        from: None,
        power_dbm: 14,
        lead_us: 400_000,
    },
];

/// The settings of both gateways, and of a device of which nothing was heard yet.
pub(crate) fn settings(alloc: Global) -> Result<Settings<Global>, Fail> {
    let gateways = [1, 2].map(|id| GatewaySetting {
        id,
        cap: 4_096,
        gap: 45_000,
    });
    Ok(Settings::new(gateways.to_vec(alloc)?, [DEVICE].to_vec(alloc)?)?)
}

/// What a journal of these bytes says; nothing, where there is none.
pub(crate) fn state_in<A: Allocator + Copy>(
    alloc: A,
    journal: Option<&[u8]>,
) -> Result<JournalState<A>, Fail> {
    match journal {
        Some(bytes) => Ok(read_journal(alloc, bytes)?),
        None => Ok(JournalState::new(alloc)),
    }
}

/// What a server with these settings opens with by a journal of these bytes.
pub(crate) fn opening<A: Allocator + Copy>(
    alloc: A,
    set: &Settings<Global>,
    journal: Option<&[u8]>,
) -> Result<Opening<A>, Fail>
    ensures books { IfOk result (λ opening. AreBooksFor opening.settings.gateways opening.books.items) }
    ensures early { IfOk result (λ opening. All (λ high. high ≤ 2 ^ 60) opening.highs.items) }
{
    Ok(opening_of(alloc, set, &SET, state_in(alloc, journal)?)?)
}

/// The same as a server is made of it: its settings, and all else.
pub(crate) fn resumed<A: Allocator + Copy>(
    alloc: A,
    set: &Settings<Global>,
    journal: Option<&[u8]>,
) -> Result<(Settings<A>, Resumed<A>), Fail>
    ensures books { IfOk result (λ resumed. AreBooksFor resumed.0.gateways resumed.1.books.items) }
    ensures early { IfOk result (λ resumed. All (λ f. f.1 ≤ 2 ^ 60) resumed.1.forwarders.items) }
{
    let Opening {
        settings,
        books,
        highs,
        sessions,
        waiting,
        ..
    } = opening(alloc, set, journal)?;
    let forwarders = resumed_forwarders(alloc, settings.gateways(), &SET, &highs)?;
    let resumed = Resumed {
        books,
        forwarders,
        sessions,
        waiting,
    };
    Ok((settings, resumed))
}

/// A server with these settings that goes on with a journal of these bytes, and has written nothing yet.
pub(crate) fn opened<A: Allocator + Copy>(
    alloc: A,
    set: &Settings<Global>,
    journal: Option<&[u8]>,
) -> Result<Serving<WorkedHasher, A>, Fail>
    ensures { IfOk result (λ serving. IsBetweenTurns serving) }
{
    let (settings, resumed) = resumed(alloc, set, journal)?;
    Ok(Serving::resumed(alloc, hasher(), &settings, resumed)?)
}

/// Some turns, in which the host can't do what is broken.
pub(crate) type Part = (Option<Deed>, &'static [Turn]);

/// A server goes on with a journal of these bytes, if there is one, writes its own anew, where it is told what that is, and makes
/// these turns.
pub(crate) fn play(
    alloc: Global,
    journal: Option<&[u8]>,
    renewed: Option<(Option<Deed>, &'static str)>,
    parts: &[Part],
) -> Result<(), Fail> {
    let mut serving = opened(alloc, &settings(alloc)?, journal)?;
    if let Some((broken, wanted)) = renewed {
        renew(alloc, &mut serving, broken, wanted)?;
    }
    for (broken, turns) in parts {
        play_part(alloc, &mut serving, *broken, turns)?;
    }
    Ok(())
}

/// The server writes its journal anew, or can't.
fn renew(
    alloc: Global,
    serving: &mut Served,
    broken: Option<Deed>,
    journal: &'static str,
) -> Result<(), Fail>
    requires { IsBetweenTurns serving.old }
    ensures { OnOk result (IsBetweenTurns serving.new) }
{
    let mut host = Noting::new(alloc, 0, None, broken);
    let is_done = serving.renew(&mut host, 0)?;
    equal(&is_done, &broken.is_none())?;
    host.was_asked(&[(Deed::Replace, 0, b"", journal)])
}

/// The server makes these turns, in which the host can't do what is broken.
fn play_part(
    alloc: Global,
    serving: &mut Served,
    broken: Option<Deed>,
    turns: &[Turn],
) -> Result<(), Fail>
    requires { IsBetweenTurns serving.old }
    ensures { OnOk result (IsBetweenTurns serving.new) }
{
    let mut room = vec![in alloc; 0u8; 256]?;
    for turn in turns {
        let mut host = Noting::new(alloc, turn.0, turn.1, broken);
        serving.turn(&mut host, &mut room)?;
        host.was_asked(turn.2)?;
    }
    Ok(())
}

/// Whether the server makes these turns. Where it doesn't, it found no memory, and a front was asked of what is to be asked.
pub(crate) fn is_played<A: Allocator + Copy>(
    memory: Global,
    serving: &mut Serving<WorkedHasher, A>,
    turns: &[Turn],
) -> Result<bool, Fail>
    requires { IsBetweenTurns serving.old }
    ensures { IfOk result (λ is_played. is_played ≡ true → IsBetweenTurns serving.new) }
{
    let mut room = vec![in memory; 0u8; 256]?;
    for turn in turns {
        let mut host = Noting::new(memory, turn.0, turn.1, None);
        match serving.turn(&mut host, &mut room) {
            Ok(()) => host.was_asked(turn.2)?,
            Err(stopped) => {
                equal_at(&turn.0, &stopped, &Stopped::NoMemory)?;
                host.was_asked_first(turn.2)?;
                return Ok(false);
            }
        }
    }
    Ok(true)
}
