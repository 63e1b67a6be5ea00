// A server goes on with what its journal says.
ghost use Rattle.std.specs.Prelude.{IfOk};
ghost use Rattle.serve_turns.specs.Turn.{IsBetweenTurns};

use crate::noting::tell_line;
use crate::state_folder::{FolderFault, StateFolder};
use crate::stopped::Stopped;
use airbook_text::{ServeSettings, TextFault};
use serve_journal::{JournalFault, JournalState, read_journal};
use serve_opening::{Note, Opening, OpeningFault, opening_of};
use serve_turns::{Resumed, Serving, resumed_forwarders};
use std::alloc::Global;
use std::fmt::Display;
use std::fs::{File, Files};
use std::hash::RandomState;
use std::random::RandomSource;

/// The folder of a server's state, opened and locked.
pub fn folder_at<R: AllocGlobal + Eprint + Files<File = File>>(
    rt: &R,
    path: &str,
) -> Result<StateFolder, Stopped> {
    StateFolder::open(rt, path).map_err(|fault| folder_stops(rt, path, fault))
}

/// What the journal in a folder says; of a new server, that there is none.
pub fn journal_in<R: AllocGlobal + Eprint + Files<File = File>>(
    rt: &R,
    path: &str,
    folder: &StateFolder,
    is_new: bool,
) -> Result<JournalState<Global>, Stopped> {
    let has_journal = folder
        .has_journal(rt)
        .map_err(|fault| folder_stops(rt, path, fault))?;
    match (has_journal, is_new) {
        (true, true) => Err(Stopped::HasState),
        (false, true) => Ok(JournalState::new(rt.alloc())),
        (false, false) => Err(Stopped::NoState),
        (true, false) => read_state(rt, path, folder),
    }
}

/// What the journal in a folder says, which is there.
fn read_state<R: AllocGlobal + Eprint + Files<File = File>>(
    rt: &R,
    path: &str,
    folder: &StateFolder,
) -> Result<JournalState<Global>, Stopped> {
    let bytes = match folder.read(rt) {
        Ok(bytes) => bytes,
        Err(fault) => return Err(folder_stops(rt, path, fault)),
    };
    read_journal(rt.alloc(), &bytes).map_err(|fault| journal_stops(rt, path, fault))
}

/// A server with these settings that goes on with what a journal says, and has heard nothing yet. What an operator is to be told of
/// that goes to standard error.
pub fn resumed<R: AllocGlobal + Eprint + RandomSource>(
    rt: &R,
    path: &str,
    read: &ServeSettings,
    journal: JournalState<Global>,
) -> Result<Serving<RandomState, Global>, Stopped>
    ensures { IfOk result (λ serving. IsBetweenTurns serving) }
{
    let opening = match opening_of(rt.alloc(), &read.settings, &read.forwarders, journal) {
        Ok(opening) => opening,
        Err(fault) => return Err(opening_stops(rt, path, fault)),
    };
    tell_notes(rt, &opening.notes);
    let hasher = RandomState::new(rt).map_err(|_| TextFault::Read)?;
    let Opening {
        settings,
        books,
        highs,
        sessions,
        waiting,
        notes: _notes,
    } = opening;
    let alloc = rt.alloc();
    let forwarders = resumed_forwarders(
        alloc,
        settings.gateways(),
        &read.forwarders,
        &highs,
    ).map_err(|_| TextFault::NoMemory)?;
    let resumed = Resumed {
        books,
        forwarders,
        sessions,
        waiting,
    };
    match Serving::resumed(alloc, hasher, &settings, resumed) {
        Ok(serving) => Ok(serving),
        Err(_) => Err(Stopped::Text(TextFault::NoMemory)),
    }
}

/// Tells each note in a line.
fn tell_notes<R: Eprint>(rt: &R, notes: &[Note]) {
    for note in notes {
        tell_line(rt, format_args!("note: {note}"));
    }
}

/// Why the program stops where a folder was not opened.
fn folder_stops<R: Eprint>(rt: &R, path: &str, fault: FolderFault) -> Stopped {
    match fault {
        FolderFault::Locked => Stopped::Locked,
        FolderFault::NoMemory => Stopped::Text(TextFault::NoMemory),
        FolderFault::File(error) => journal_fault(rt, path, &error),
    }
}

/// Why it stops where a journal was not read.
fn journal_stops<R: Eprint>(rt: &R, path: &str, fault: JournalFault) -> Stopped {
    match fault {
        JournalFault::NoMemory => Stopped::Text(TextFault::NoMemory),
        fault => journal_fault(rt, path, &fault),
    }
}

/// Why it stops where a server doesn't open with what a journal says.
fn opening_stops<R: Eprint>(rt: &R, path: &str, fault: OpeningFault) -> Stopped {
    match fault {
        OpeningFault::NoMemory => Stopped::Text(TextFault::NoMemory),
        fault => journal_fault(rt, path, &fault),
    }
}

/// The fault of a journal, of which a line tells more.
fn journal_fault<R: Eprint, D: Display>(rt: &R, path: &str, fault: &D) -> Stopped {
    tell_line(rt, format_args!("note: the state in {path}: {fault}"));
    Stopped::Journal
}
