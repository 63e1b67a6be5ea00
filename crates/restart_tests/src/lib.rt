//! Tests of what a server needs that goes on after a restart: what is written before a downlink is sent, turns, and growths. A crate
//! with tests is proved twice, so they stand in one of their own.
#![tactic(auto)]

#[cfg(test)]
mod control;
#[cfg(test)]
mod downlinks;
#[cfg(test)]
mod growths;
#[cfg(test)]
mod hosts;
#[cfg(test)]
mod journals;
#[cfg(test)]
mod restarts;
#[cfg(test)]
mod server_growths;
#[cfg(test)]
mod servers;
#[cfg(test)]
mod sql;
#[cfg(test)]
mod turns;
