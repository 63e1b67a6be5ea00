// The command line.
use crate::help;
use crate::listen_command::listen;
use crate::listening::Listening;
use crate::recover_command::{Recovering, recover, recovering_of};
use crate::serve_command::{ServeTask, serve, serving_of};
use airbook_text::MAX_WORKERS;
use clap::{Arg, ArgAction, ArgMatches, Command, value_parser};
use std::alloc::{AllocError, Global};

/// The version, as CHANGELOG.md has it, and the toolchain that the sources are proved with, as README.md has it. Whether this
/// very program was proved it can't know.
const VERSION: &str = "0.2.0 (sources proved with rattle-kit-13f logic dac8208d650f15bf)";

/// What is asked for on the command line.
#[derive(Clone, Copy)]
pub enum Task<'a> {
    /// The time on air of a PHYPayload of `len` bytes at data rate `rate`.
    Toa { rate: u8, len: u8 },
    /// The book of a gateway.
    Book(Booking),
    /// The same, and what that book would answer to further bookings.
    Plan(Planning),
    /// A picture of a saved book's hour: of the one that opens at `from`, or of the latest.
    Picture { from: Option<u64> },
    /// What a server's journal says.
    Recover(Recovering),
    /// Whether settings of a server are right, and what is wrong with them.
    Check,
    /// Settings of a server, and what happens there.
    Run(Running),
    /// Settings of a server, and a socket that tells what happens there.
    Listen(Listening),
    /// Settings of a server, and packet forwarders of gateways that send to a socket.
    Serve(ServeTask<'a>),
}

/// How a gateway's book is opened: an empty one that keeps at most `cap` transmissions, at least `gap` microseconds apart, or with
/// `resume` a saved one. With `save` it is saved at the end, and with `notes` refusals are told in words too.
#[derive(Clone, Copy)]
pub struct Booking {
    pub cap: u32,
    pub gap: u32,
    pub resume: bool,
    pub save: bool,
    pub notes: bool,
}

/// How the book of a plan is opened.
#[derive(Clone, Copy)]
pub struct Planning {
    pub cap: u32,
    pub gap: u32,
    pub notes: bool,
}

/// How a run is answered: with so many workers; with none one thread does all.
#[derive(Clone, Copy)]
pub struct Running {
    pub workers: u8,
    pub notes: bool,
}

/// The command line that the program takes.
pub fn program<'a>(alloc: Global) -> Result<Command<'a>, AllocError> {
    Command::new(alloc, "airbook")
        .version(VERSION)
        .about(help::ABOUT)
        .after_help(help::MORE_OF_PROGRAM)
        .after_long_help(help::AFTER)
        .subcommand_required(true)
        .subcommand(toa(alloc)?)?
        .subcommand(book(alloc)?)?
        .subcommand(plan(alloc)?)?
        .subcommand(picture(alloc)?)?
        .subcommand(recover(alloc)?)?
        .subcommand(check(alloc)?)?
        .subcommand(run(alloc)?)?
        .subcommand(listen(alloc)?)?
        .subcommand(serve(alloc)?)
}

/// The arguments of `toa`.
fn toa<'a>(alloc: Global) -> Result<Command<'a>, AllocError> {
    Command::new(alloc, "toa")
        .about(help::TOA)
        .after_help(help::MORE)
        .after_long_help(help::AFTER_TOA)
        .arg(rate(alloc))?
        .arg(len(alloc))
}

/// The data rate of a frame.
fn rate<'a>(alloc: Global) -> Arg<'a> {
    Arg::new(alloc, "DR")
        .help("Data rate, 0 to 6")
        .required(true)
        .value_parser(value_parser!(u8))
}

/// How long a frame is.
fn len<'a>(alloc: Global) -> Arg<'a> {
    Arg::new(alloc, "LEN")
        .help("Length of the PHYPayload in bytes, 0 to 255")
        .required(true)
        .value_parser(value_parser!(u8))
}

/// The arguments of `book`.
fn book<'a>(alloc: Global) -> Result<Command<'a>, AllocError> {
    Command::new(alloc, "book")
        .about(help::BOOK)
        .long_about(help::LONG_BOOK)
        .after_help(help::MORE)
        .after_long_help(help::AFTER_BOOK)
        .arg(cap(alloc))?
        .arg(gap(alloc))?
        .arg(resume(alloc))?
        .arg(save(alloc))?
        .arg(notes(alloc))
}

/// The arguments of `plan`.
fn plan<'a>(alloc: Global) -> Result<Command<'a>, AllocError> {
    Command::new(alloc, "plan")
        .about(help::PLAN)
        .long_about(help::LONG_PLAN)
        .after_help(help::MORE)
        .after_long_help(help::AFTER_PLAN)
        .arg(cap(alloc))?
        .arg(gap(alloc))?
        .arg(notes(alloc))
}

/// How many transmissions a book keeps at most; where it isn't said, as many as a gateway's in the settings.
fn cap<'a>(alloc: Global) -> Arg<'a> {
    Arg::new(alloc, "cap")
        .help("Keeps at most so many transmissions, 1 to 65536")
        .long("cap")
        .value_name("N")
        .default_value("4096")
        .value_parser(value_parser!(u32))
}

/// How long a gateway needs between two transmissions.
fn gap<'a>(alloc: Global) -> Arg<'a> {
    Arg::new(alloc, "gap")
        .help("Microseconds between transmissions, 0 to 100000")
        .long("gap")
        .value_name("N")
        .default_value("0")
        .value_parser(value_parser!(u32))
}

/// Whether the input begins with a saved book.
fn resume<'a>(alloc: Global) -> Arg<'a> {
    Arg::new(alloc, "resume")
        .help("Reads a saved book first; --cap and --gap are not looked at")
        .long("resume")
        .action(ArgAction::SetTrue)
}

/// Whether the book is saved at the end.
fn save<'a>(alloc: Global) -> Arg<'a> {
    Arg::new(alloc, "save")
        .help("Writes the book as --resume reads it, in place of the report")
        .long("save")
        .action(ArgAction::SetTrue)
}

/// Whether notes are told.
pub fn notes<'a>(alloc: Global) -> Arg<'a> {
    Arg::new(alloc, "notes")
        .help("Tells on standard error, in words, why a line was refused")
        .long("notes")
        .action(ArgAction::SetTrue)
}

/// The arguments of `picture`.
fn picture<'a>(alloc: Global) -> Result<Command<'a>, AllocError> {
    Command::new(alloc, "picture")
        .about(help::PICTURE)
        .long_about(help::LONG_PICTURE)
        .after_help(help::MORE)
        .after_long_help(help::AFTER_PICTURE)
        .arg(from(alloc))
}

/// Where the hour of a picture opens.
fn from<'a>(alloc: Global) -> Arg<'a> {
    Arg::new(alloc, "from")
        .help("The hour opens at T, in microseconds; without it, the latest")
        .long_help(help::FROM)
        .long("from")
        .value_name("T")
        .value_parser(value_parser!(u64))
}

/// The arguments of `check`: none.
fn check<'a>(alloc: Global) -> Result<Command<'a>, AllocError> {
    Ok(
        Command::new(alloc, "check")
            .about(help::CHECK)
            .long_about(help::LONG_CHECK)
            .after_help(help::MORE)
            .after_long_help(help::AFTER_CHECK),
    )
}

/// How many workers a run has.
fn workers<'a>(alloc: Global) -> Arg<'a> {
    Arg::new(alloc, "workers")
        .help("Workers for the uplinks of a pass, 0 to 16")
        .long_help(help::WORKERS_OF_RUN)
        .long("workers")
        .value_name("N")
        .default_value("0")
        .value_parser(value_parser!(u8).range(0..=i64::from(MAX_WORKERS)))
}

/// The arguments of `run`.
fn run<'a>(alloc: Global) -> Result<Command<'a>, AllocError> {
    Command::new(alloc, "run")
        .about(help::RUN)
        .long_about(help::LONG_RUN)
        .after_help(help::MORE)
        .after_long_help(help::AFTER_RUN)
        .arg(workers(alloc))?
        .arg(notes(alloc))
}

/// The task that the arguments name.
pub fn task_of<'a>(matches: &ArgMatches<'a>) -> Option<Task<'a>> {
    match matches.subcommand() {
        Some(("toa", toa)) => Some(Task::Toa {
            rate: toa.get_one::<u8>("DR")?,
            len: toa.get_one::<u8>("LEN")?,
        }),
        Some(("book", book)) => Some(Task::Book(Booking {
            cap: book.get_one::<u32>("cap")?,
            gap: book.get_one::<u32>("gap")?,
            resume: book.get_flag("resume"),
            save: book.get_flag("save"),
            notes: book.get_flag("notes"),
        })),
        Some(("plan", plan)) => Some(Task::Plan(Planning {
            cap: plan.get_one::<u32>("cap")?,
            gap: plan.get_one::<u32>("gap")?,
            notes: plan.get_flag("notes"),
        })),
        Some(("picture", picture)) => Some(Task::Picture {
            from: picture.get_one::<u64>("from"),
        }),
        Some(("recover", recover)) => Some(Task::Recover(recovering_of(recover)?)),
        Some(("check", _)) => Some(Task::Check),
        Some(("run", run)) => Some(Task::Run(Running {
            workers: run.get_one::<u8>("workers")?,
            notes: run.get_flag("notes"),
        })),
        Some(("listen", listen)) => Some(Task::Listen(Listening {
            port: listen.get_one::<u16>("port")?,
            turns: listen.get_one::<u32>("turns")?,
            workers: listen.get_one::<u8>("workers")?,
            notes: listen.get_flag("notes"),
        })),
        Some(("serve", serve)) => Some(Task::Serve(serving_of(serve)?)),
        _ => None,
    }
}
