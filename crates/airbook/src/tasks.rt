// The tasks of the program, over any runtime, and the status that each ends with.
use crate::arguments::{Booking, Planning, Running, Task, program, task_of};
use crate::help;
use crate::listening::listen;
use crate::noting::{ErrorStream, noted_run};
use crate::recovering::recover_text;
use crate::serving::serve;
use crate::stopped::Stopped;
use airbook_text::{
    TextFault, Verdict, book_text, check_text, picture_text, plan_text, run_text, toa_text,
};
use clap::error::ErrorKind;
use log::Log;
use noted_texts::{noted_book, noted_plan};
use std::alloc::AllocError;
use std::env::Env;
use std::fs::{File, Files};
use std::hash::RandomState;
use std::io;
use std::net::Net;
use std::process::ExitCode;
use std::random::RandomSource;
use std::sync::Wait;
use std::thread::Threads;
use std::time::Clock;
use text_lines::{ByteIn, ByteOut, StdIn, StdOut};

/// The status where a line of the output begins with `no` or `bad`.
const REFUSED: u8 = 1;

/// The status of wrong arguments, and of a fault.
const FAULT: u8 = 2;

/// Does what the arguments ask for. The status is 0; 1 where a line of the output begins with `no` or `bad`; 2 for
/// wrong arguments, and for a fault, whose name is then the last line on standard error.
pub fn run<
    R: AllocGlobal
        + Env
        + Input
        + Print
        + Eprint
        + RandomSource
        + Threads
        + Wait
        + Sync
        + Clock
        + Net
        + Log
        + Files<File = File>,
>(rt: &R) -> ExitCode {
    let words = match words_of(rt) {
        Ok(words) => words,
        Err(error) if error.kind() == io::ErrorKind::OutOfMemory => {
            return fault(rt, TextFault::NoMemory.name());
        }
        Err(_) => return fault(rt, "Arguments"),
    };
    let Ok(mut command) = program(rt.alloc()) else {
        return fault(rt, TextFault::NoMemory.name());
    };
    match command.try_get_matches_from_mut(words.as_slice()) {
        Ok(matches) => match task_of(&matches) {
            Some(task) => perform(rt, task),
            None => tell(
                rt,
                command.error(ErrorKind::ValueValidation, help::NO_ADDRESS),
            ),
        },
        Err(error) => tell(rt, Ok(error)),
    }
}

/// Tells what became of a command line that names no task; an Err where there was no memory for that.
fn tell<R: Print + Eprint>(rt: &R, told: Result<clap::Error, AllocError>) -> ExitCode {
    let Ok(error) = told else {
        return fault(rt, TextFault::NoMemory.name());
    };
    match error.print(rt) {
        Ok(()) => ExitCode::from(error.exit_code() as u8),
        Err(_) => fault(rt, TextFault::Write.name()),
    }
}

/// The words of the command line, the program's name first; an Err where one is not text.
fn words_of<R: AllocGlobal + Env>(rt: &R) -> io::Result<Vec<String>> {
    let words: Vec<String> = std::env::args(rt)?.collect(rt.alloc())?;
    Ok(words)
}

/// Does a task on standard input and output.
fn perform<
    R: AllocGlobal
        + Input
        + Print
        + Eprint
        + RandomSource
        + Threads
        + Wait
        + Sync
        + Clock
        + Net
        + Log
        + Files<File = File>,
>(rt: &R, task: Task<'_>) -> ExitCode {
    let mut reader = StdIn::new(rt.reader());
    let mut writer = StdOut::new(io::writer(rt));
    let answered = match task {
        Task::Toa { rate, len } => toa_text(rate, len, &mut writer),
        Task::Book(booking) => book(rt, booking, &mut reader, &mut writer),
        Task::Plan(planning) => plan(rt, planning, &mut reader, &mut writer),
        Task::Picture { from } => picture_text(rt.alloc(), from, &mut reader, &mut writer),
        Task::Recover(recovering) => recover_text(rt, recovering, &mut reader, &mut writer),
        Task::Check => match check_text(rt.alloc(), &mut reader, &mut writer) {
            Ok(verdict) => return status_of(verdict),
            Err(stopped) => Err(stopped),
        },
        Task::Run(running) => answer_run(rt, running, &mut reader, &mut writer),
        Task::Listen(listening) => match listen(rt, listening, &mut reader, &mut writer) {
            Ok(refused) => Ok(refused),
            Err(Stopped::Text(stopped)) => Err(stopped),
            Err(stopped) => return fault(rt, stopped.name()),
        },
        Task::Serve(serving) => {
            return fault(rt, serve(rt, serving, &mut reader, &mut writer).name());
        }
    };
    match answered {
        Ok(false) => ExitCode::SUCCESS,
        Ok(true) => ExitCode::from(REFUSED),
        Err(stopped) => fault(rt, stopped.name()),
    }
}

/// The text of `book`.
fn book<R: AllocGlobal + Eprint, I: ByteIn, W: ByteOut>(
    rt: &R,
    booking: Booking,
    reader: &mut I,
    writer: &mut W,
) -> Result<bool, TextFault> {
    let Booking {
        cap,
        gap,
        resume,
        save,
        notes,
    } = booking;
    if notes {
        let sink = ErrorStream { rt };
        return noted_book(rt.alloc(), cap, gap, resume, save, reader, writer, sink);
    }
    book_text(rt.alloc(), cap, gap, resume, save, reader, writer)
}

/// The text of `plan`.
fn plan<R: AllocGlobal + Eprint, I: ByteIn, W: ByteOut>(
    rt: &R,
    planning: Planning,
    reader: &mut I,
    writer: &mut W,
) -> Result<bool, TextFault> {
    let Planning { cap, gap, notes } = planning;
    if notes {
        return noted_plan(rt.alloc(), cap, gap, reader, writer, ErrorStream { rt });
    }
    plan_text(rt.alloc(), cap, gap, reader, writer)
}

/// The text of `run`.
fn answer_run<
    R: AllocGlobal + Eprint + RandomSource + Threads + Wait + Sync,
    I: ByteIn,
    W: ByteOut,
>(rt: &R, running: Running, reader: &mut I, writer: &mut W) -> Result<bool, TextFault> {
    let hasher = RandomState::new(rt).map_err(|_| TextFault::Read)?;
    let Running { workers, notes } = running;
    if notes {
        return noted_run(rt, hasher, workers, reader, writer, ErrorStream { rt });
    }
    run_text(rt, rt.alloc(), hasher, workers, reader, writer)
}

/// The status of a check that came to this.
fn status_of(verdict: Verdict) -> ExitCode {
    match verdict {
        Verdict::Clean => ExitCode::SUCCESS,
        Verdict::Doubtful => ExitCode::from(REFUSED),
        Verdict::Refused => ExitCode::from(FAULT),
    }
}

/// Names a fault on standard error.
fn fault<R: Eprint>(rt: &R, name: &str) -> ExitCode {
    let _ = eprintln!(rt; "airbook: {name}");
    ExitCode::from(FAULT)
}
