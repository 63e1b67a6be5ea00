// A server that packet forwarders are pointed at.
ghost use Rattle.std.specs.Prelude.{IfOk, OnOk};
ghost use Rattle.serve_turns.specs.Turn.{IsBetweenTurns};

use crate::resuming::{folder_at, journal_in, resumed};
use crate::serve_command::{ServeTask, StatePlace};
use crate::state_folder::StateFolder;
use crate::stopped::Stopped;
use crate::surroundings::{Surroundings, bound};
use airbook_text::{ServeSettings, TextFault, read_whole_serve_settings};
use log::Log;
use serve_turns::{Host, Serving};
use std::alloc::Global;
use std::fs::{File, Files};
use std::hash::RandomState;
use std::net::{Net, UdpSocket};
use std::random::RandomSource;
use std::sync::Wait;
use std::time::{Clock, Instant};
use text_lines::{ByteIn, ByteOut};

/// Room for the longest datagram.
const ROOM: usize = 65_536;

/// Reads settings, and serves the packet forwarders that send to an address, until a fault ends that.
pub fn serve<
    R: AllocGlobal + Eprint + RandomSource + Wait + Clock + Net + Log + Files<File = File>,
    I: ByteIn,
    W: ByteOut,
>(rt: &R, task: ServeTask<'_>, reader: &mut I, writer: &mut W) -> Stopped {
    let read = match read_whole_serve_settings(rt.alloc(), reader) {
        Ok(read) => read,
        Err(fault) => return Stopped::Text(fault),
    };
    let Ok(socket) = bound(rt, task.address) else {
        return Stopped::Bind;
    };
    let stopped = match task.state {
        Some(state) => go_on(rt, state, &read, socket, writer),
        None => shadow(rt, &read, socket, writer),
    };
    match stopped {
        Ok(stopped) | Err(stopped) => stopped,
    }
}

/// Serves with the state of a folder: Err where it stopped before its first turn.
fn go_on<
    R: AllocGlobal + Eprint + RandomSource + Wait + Clock + Log + Files<File = File>,
    W: ByteOut,
>(
    rt: &R,
    state: StatePlace<'_>,
    read: &ServeSettings,
    socket: UdpSocket,
    writer: &mut W,
) -> Result<Stopped, Stopped> {
    let folder = folder_at(rt, state.path)?;
    let journal = journal_in(rt, state.path, &folder, state.is_new)?;
    let mut serving = resumed(rt, state.path, read, journal)?;
    let mut host = surroundings(rt, socket, writer, Some(folder))?;
    put_in_place(&mut serving, &mut host)?;
    Ok(make_turns(rt, &mut serving, &mut host))
}

/// Serves without a state, and sends no downlink: Err where it stopped before its first turn.
fn shadow<R: AllocGlobal + RandomSource + Wait + Clock + Log + Files<File = File>, W: ByteOut>(
    rt: &R,
    read: &ServeSettings,
    socket: UdpSocket,
    writer: &mut W,
) -> Result<Stopped, Stopped> {
    let mut serving = opened(rt, read)?;
    let mut host = surroundings(rt, socket, writer, None)?;
    Ok(make_turns(rt, &mut serving, &mut host))
}

/// What a server has of the world around it, whose clock begins now.
fn surroundings<'a, R: Clock, W: ByteOut>(
    rt: &'a R,
    socket: UdpSocket,
    writer: &'a mut W,
    state: Option<StateFolder>,
) -> Result<Surroundings<'a, R, W>, Stopped> {
    let Ok(began) = Instant::now(rt) else {
        return Err(Stopped::Clock);
    };
    Ok(Surroundings {
        rt,
        socket,
        began,
        writer,
        state,
    })
}

/// A server with these settings on empty books, which has heard nothing.
fn opened<R: AllocGlobal + RandomSource>(
    rt: &R,
    read: &ServeSettings,
) -> Result<Serving<RandomState, Global>, TextFault>
    ensures { IfOk result (λ serving. IsBetweenTurns serving) }
{
    let hasher = RandomState::new(rt).map_err(|_| TextFault::Read)?;
    Serving::open(rt.alloc(), hasher, read).map_err(|_| TextFault::NoMemory)
}

/// Puts the whole journal of a server in place, before its first turn.
fn put_in_place<H: Host>(
    serving: &mut Serving<RandomState, Global>,
    host: &mut H,
) -> Result<(), Stopped>
    requires { IsBetweenTurns serving.old }
    ensures { OnOk result (IsBetweenTurns serving.new) }
{
    match serving.renew(host, 0) {
        Ok(true) => Ok(()),
        Ok(false) => Err(Stopped::Journal),
        Err(_) => Err(Stopped::Text(TextFault::NoMemory)),
    }
}

/// Makes turn after turn, until a fault ends that.
fn make_turns<R: AllocGlobal + Wait, H: Host>(
    rt: &R,
    serving: &mut Serving<RandomState, Global>,
    host: &mut H,
) -> Stopped
    requires { IsBetweenTurns serving.old }
{
    let Ok(mut room) = vec![in rt.alloc(); 0u8; ROOM] else {
        return Stopped::Text(TextFault::NoMemory);
    };
    for _ in rt.forever() {
        if let Err(stopped) = serving.turn(host, &mut room) {
            return stopped_by(stopped);
        }
    }
    unreachable!()
}

/// Why the program stops where its server stopped so.
fn stopped_by(stopped: serve_turns::Stopped) -> Stopped {
    match stopped {
        serve_turns::Stopped::Clock => Stopped::Clock,
        serve_turns::Stopped::Write => Stopped::Text(TextFault::Write),
        serve_turns::Stopped::NoMemory => Stopped::Text(TextFault::NoMemory),
    }
}
