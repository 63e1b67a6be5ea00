// The arguments of `listen`.
use crate::arguments::notes;
use crate::help;
use airbook_text::{MAX_WORKERS, TURN_LIMIT};
use clap::{Arg, Command, value_parser};
use std::alloc::{AllocError, Global};

/// The arguments of `listen`.
pub fn listen<'a>(alloc: Global) -> Result<Command<'a>, AllocError> {
    Command::new(alloc, "listen")
        .about(help::LISTEN)
        .long_about(help::LONG_LISTEN)
        .after_help(help::MORE)
        .after_long_help(help::AFTER_LISTEN)
        .arg(port(alloc))?
        .arg(turns(alloc))?
        .arg(workers(alloc))?
        .arg(notes(alloc))
}

/// Where datagrams come to.
fn port<'a>(alloc: Global) -> Arg<'a> {
    Arg::new(alloc, "port")
        .help("The UDP port that datagrams come to, 1 to 65535")
        .long("port")
        .value_name("P")
        .required(true)
        .value_parser(value_parser!(u16).range(1..=65535))
}

/// How long is listened.
fn turns<'a>(alloc: Global) -> Arg<'a> {
    Arg::new(alloc, "turns")
        .help("How many datagrams are received, 1 to 1000000")
        .long_help(help::TURNS)
        .long("turns")
        .value_name("T")
        .required(true)
        .value_parser(value_parser!(u32).range(1..=i64::from(TURN_LIMIT)))
}

/// How many workers answer.
fn workers<'a>(alloc: Global) -> Arg<'a> {
    Arg::new(alloc, "workers")
        .help("Workers for the uplinks of a pass, 1 to 16")
        .long("workers")
        .value_name("N")
        .default_value("1")
        .value_parser(value_parser!(u8).range(1..=i64::from(MAX_WORKERS)))
}
