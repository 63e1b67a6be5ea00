//! The settings of a server that packet forwarders are pointed at, read from TOML: those of a run, and of each gateway how its
//! packet forwarder is known and what it is asked for.
#![tactic(auto)]

mod forwarder;
mod forwarder_keys;
mod reading;
mod serve_fault;

pub use forwarder::{Forwarder, LEAST_GAP_US, MOST_LEAD_US, MOST_POWER_DBM};
pub use reading::{ServeSettings, read_serve_settings};
pub use serve_fault::ServeFault;
