//! The downlink half of a LoRaWAN network server for Class A devices in EU868, on the command line.
#![tactic(auto)]

mod arguments;
mod help;
mod listen_command;
mod listening;
mod noting;
mod recover_command;
mod recovering;
mod resuming;
mod serve_command;
mod serving;
mod state_folder;
mod stopped;
mod surroundings;
mod tasks;

use std::process::ExitCode;

fn main(rt: HostRuntime) -> ExitCode {
    tasks::run(&rt)
}
