// A server that listens on a socket.
ghost use Rattle.std.specs.Prelude.{None};

use crate::noting::{ErrorStream, NotedSource, tell_end, tell_line};
use crate::stopped::Stopped;
use airbook_text::{Settings, Source, TextFault, listen_text, read_whole_settings};
use answer_notes::{Head, NoteSink, Notes, Script, WatchedIn, WatchedOut, Watcher};
use log::{Log, warn};
use std::alloc::Global;
use std::cell::RefCell;
use std::hash::RandomState;
use std::io;
use std::net::{Ipv4Addr, Net, UdpSocket};
use std::random::RandomSource;
use std::sync::Wait;
use std::thread::Threads;
use text_lines::{ByteIn, ByteOut};

/// How a server listens.
#[derive(Clone, Copy)]
pub struct Listening {
    /// The UDP port of 127.0.0.1.
    pub port: u16,
    /// How many receives are made.
    pub turns: u32,
    /// How many workers answer the uplinks that one `pass` closes.
    pub workers: u8,
    /// Whether notes are told.
    pub notes: bool,
}

/// A socket, and a log that each failed receive goes into.
#[derive(Drop)]
struct Datagrams<'a, R> {
    rt: &'a R,
    socket: UdpSocket,
    /// How many receives were made, up to 2^64 - 1.
    receives: u64,
}

impl<R: Log> Source for Datagrams<'_, R> {
    ghost seen = { λ s. record { receives = s.receives; received = None } };

    fn next(&mut self, into: &mut [u8]) -> Option<usize> {
        self.receives = self.receives.saturating_add(1);
        match self.socket.recv(into) {
            Ok(count) => Some(count),
            Err(error) => {
                warn!(self.rt; "nothing was received: {error}");
                None
            }
        }
    }
}

/// Reads settings, and listens on the port with a socket of its own.
pub fn listen<
    R: AllocGlobal + Eprint + RandomSource + Threads + Wait + Sync + Net + Log,
    I: ByteIn,
    W: ByteOut,
>(rt: &R, listening: Listening, reader: &mut I, writer: &mut W) -> Result<bool, Stopped> {
    if listening.notes {
        return noted_listen(rt, listening, reader, writer, ErrorStream { rt });
    }
    let settings = read_whole_settings(rt.alloc(), reader)?;
    let hasher = RandomState::new(rt).map_err(|_| TextFault::Read)?;
    let mut source = bound(rt, listening.port).map_err(|_| Stopped::Bind)?;
    Ok(answer(rt, listening, hasher, &settings, &mut source, writer)?)
}

/// The same, with notes. They tell also when it listens, or why the socket could not be bound.
fn noted_listen<
    R: AllocGlobal + Eprint + RandomSource + Threads + Wait + Sync + Net + Log,
    I: ByteIn,
    W: ByteOut,
    N: NoteSink + Drop,
>(rt: &R, listening: Listening, reader: &mut I, writer: &mut W, sink: N) -> Result<bool, Stopped> {
    let port = listening.port;
    let notes = RefCell::new(Notes::new(rt.alloc(), Script::Run, Head::SettingsAlone, sink));
    let read = watched_settings(rt.alloc(), reader, &notes);
    if let Err(fault) = &read {
        tell_end(rt.alloc(), &notes, Err(*fault));
    }
    let settings = read?;
    let hasher = RandomState::new(rt).map_err(|_| TextFault::Read)?;
    let mut source = match bound(rt, port) {
        Ok(source) => source,
        Err(error) => {
            tell_line(
                rt,
                format_args!("note: 127.0.0.1:{port} can't be bound: {error}"),
            );
            return Err(Stopped::Bind);
        }
    };
    tell_line(rt, format_args!("listening on 127.0.0.1:{port}"));
    let answered = noted_answers(
        rt,
        listening,
        hasher,
        &settings,
        &mut source,
        writer,
        &notes,
    );
    tell_end(rt.alloc(), &notes, answered);
    Ok(answered?)
}

/// Reads settings, while another looks on.
fn watched_settings<I: ByteIn, O: Watcher>(
    alloc: Global,
    reader: &mut I,
    watcher: &RefCell<O>,
) -> Result<Settings<Global>, TextFault> {
    let mut input = WatchedIn { reader, watcher };
    let read = read_whole_settings(alloc, &mut input);
    let WatchedIn {
        reader: _reader,
        watcher: _watcher,
    } = input;
    read
}

/// Answers what the source gives, with notes.
fn noted_answers<R: AllocGlobal + Threads + Wait + Sync, S: Source, W: ByteOut, N: NoteSink>(
    rt: &R,
    listening: Listening,
    hasher: RandomState,
    settings: &Settings<Global>,
    source: &mut S,
    writer: &mut W,
    notes: &RefCell<Notes<Global, N>>,
) -> Result<bool, TextFault> {
    let mut input = NotedSource {
        source,
        notes,
        turn: 0,
    };
    let mut output = WatchedOut {
        writer,
        watcher: notes,
    };
    let answered = answer(rt, listening, hasher, settings, &mut input, &mut output);
    let NotedSource {
        source: _source,
        notes: _notes,
        turn: _turn,
    } = input;
    let WatchedOut {
        writer: _writer,
        watcher: _same_notes,
    } = output;
    answered
}

/// A socket on this port of 127.0.0.1.
fn bound<R: Net + Log>(rt: &R, port: u16) -> io::Result<Datagrams<'_, R>> {
    let socket = UdpSocket::bind(rt, (Ipv4Addr::LOCALHOST, port))?;
    Ok(Datagrams {
        rt,
        socket,
        receives: 0,
    })
}

/// Answers what the source gives.
fn answer<R: AllocGlobal + Threads + Wait + Sync, S: Source, W: ByteOut>(
    rt: &R,
    listening: Listening,
    hasher: RandomState,
    settings: &Settings<Global>,
    source: &mut S,
    writer: &mut W,
) -> Result<bool, TextFault> {
    let Listening { turns, workers, .. } = listening;
    listen_text(
        rt,
        rt.alloc(),
        hasher,
        settings,
        workers,
        source,
        turns,
        writer,
    )
}
