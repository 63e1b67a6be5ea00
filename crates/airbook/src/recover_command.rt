// The arguments of `recover`.
use crate::help;
use clap::{Arg, ArgAction, ArgGroup, ArgMatches, Command, value_parser};
use std::alloc::{AllocError, Global};

/// What is written of a journal.
#[derive(Clone, Copy)]
pub enum Recovering {
    /// The saved book of the gateway with this number.
    Book { gateway: u16 },
    /// All that the journal says, as SQL.
    Sql,
}

/// The arguments of `recover`: one of the two has to be there, and not both.
pub fn recover<'a>(alloc: Global) -> Result<Command<'a>, AllocError> {
    Command::new(alloc, "recover")
        .about(help::RECOVER)
        .long_about(help::LONG_RECOVER)
        .after_help(help::MORE)
        .after_long_help(help::AFTER_RECOVER)
        .arg(gateway(alloc))?
        .arg(sql(alloc))?
        .group(what(alloc)?)
}

/// Whose book is written.
fn gateway<'a>(alloc: Global) -> Arg<'a> {
    Arg::new(alloc, "gateway")
        .help("Writes the saved book of the gateway with this id")
        .long("gateway")
        .value_name("ID")
        .value_parser(value_parser!(u16))
}

/// That all is written as SQL.
fn sql<'a>(alloc: Global) -> Arg<'a> {
    Arg::new(alloc, "sql")
        .help("Writes all gateways and devices as SQL, for sqlite3")
        .long("sql")
        .action(ArgAction::SetTrue)
}

/// That one of the two is asked for.
fn what<'a>(alloc: Global) -> Result<ArgGroup<'a>, AllocError> {
    ArgGroup::new(alloc, "what")
        .required(true)
        .arg("gateway")?
        .arg("sql")
}

/// What is asked for; None where neither is.
pub fn recovering_of(recover: &ArgMatches<'_>) -> Option<Recovering> {
    if recover.get_flag("sql") {
        return Some(Recovering::Sql);
    }
    let gateway = recover.get_one::<u16>("gateway")?;
    Some(Recovering::Book { gateway })
}
