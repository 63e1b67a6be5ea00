// The arguments of `serve`.
use crate::help;
use clap::{Arg, ArgAction, ArgGroup, ArgMatches, Command};
use std::alloc::{AllocError, Global};
use std::net::SocketAddrV4;

/// How packet forwarders are served.
#[derive(Clone, Copy)]
pub struct ServeTask<'a> {
    /// Where datagrams come to.
    pub address: SocketAddrV4,
    /// Where state is kept; None where none is, and no downlink is sent.
    pub state: Option<StatePlace<'a>>,
}

/// Where a server keeps its state.
#[derive(Clone, Copy)]
pub struct StatePlace<'a> {
    /// The path of the folder.
    pub path: &'a str,
    /// Whether there is none to go on with.
    pub is_new: bool,
}

/// The arguments of `serve`: `--state` or `--shadow` has to be there, and not both.
pub fn serve<'a>(alloc: Global) -> Result<Command<'a>, AllocError> {
    Command::new(alloc, "serve")
        .about(help::SERVE)
        .long_about(help::LONG_SERVE)
        .after_help(help::MORE)
        .after_long_help(help::AFTER_SERVE)
        .arg(state(alloc))?
        .arg(new(alloc)?)?
        .arg(shadow(alloc))?
        .arg(bind(alloc))?
        .group(what(alloc)?)
}

/// Where state is kept.
fn state<'a>(alloc: Global) -> Arg<'a> {
    Arg::new(alloc, "state")
        .help("Keeps its journal in this folder, and sends downlinks")
        .long_help(help::STATE)
        .long("state")
        .value_name("DIR")
}

/// That there is no journal to go on with.
fn new<'a>(alloc: Global) -> Result<Arg<'a>, AllocError> {
    Arg::new(alloc, "new")
        .help("Begins a journal where there is none")
        .long_help(help::NEW)
        .long("new")
        .action(ArgAction::SetTrue)
        .requires_arg("state")?
        .conflicts_with("shadow")
}

/// That no downlink is sent.
fn shadow<'a>(alloc: Global) -> Arg<'a> {
    Arg::new(alloc, "shadow")
        .help("Sends no downlink: what would be sent is only told")
        .long("shadow")
        .action(ArgAction::SetTrue)
}

/// That one of the two is asked for.
fn what<'a>(alloc: Global) -> Result<ArgGroup<'a>, AllocError> {
    ArgGroup::new(alloc, "what")
        .required(true)
        .arg("state")?
        .arg("shadow")
}

/// Where datagrams come to.
fn bind<'a>(alloc: Global) -> Arg<'a> {
    Arg::new(alloc, "bind")
        .help("IPv4 address and UDP port")
        .long_help("The IPv4 address and the UDP port that datagrams come to")
        .long("bind")
        .value_name("ADDR:PORT")
        .default_value("0.0.0.0:1700")
}

/// How packet forwarders are to be served; None where the address is no IPv4 address and port above 0.
pub fn serving_of<'a>(serve: &ArgMatches<'a>) -> Option<ServeTask<'a>> {
    Some(ServeTask {
        address: bound_to(serve)?,
        state: state_of(serve),
    })
}

/// Where state is to be kept, if it is.
fn state_of<'a>(serve: &ArgMatches<'a>) -> Option<StatePlace<'a>> {
    Some(StatePlace {
        path: serve.get_str("state")?,
        is_new: serve.get_flag("new"),
    })
}

/// The address that datagrams come to; None where what is given is no IPv4 address and port above 0.
fn bound_to(serve: &ArgMatches<'_>) -> Option<SocketAddrV4> {
    let address = serve.get_one::<SocketAddrV4>("bind")?;
    if address.port() == 0 {
        return None;
    }
    Some(address)
}
