//! Up to sixteen workers who answer a station's uplinks. The station, with the desk and the books behind their locks, is that
//! of `server_station`.
#![tactic(auto)]

mod alone;
mod filed;
mod gathering;
mod idle;
mod member;
mod served;
mod serving;
mod summing;
mod turns;
mod worked;
mod working;

pub use filed::Filed;
pub use served::{ServeCause, ServeFault, Served};
pub use server_station::{
    Blank, Closing, FinishCause, FinishFault, Gate, Handled, Ledger, MAX_TURNS, NoGate, NoMemory,
    Office, PARTS, Station, Tally, Till, TotalsFault,
};
pub use serving::{MAX_WORKERS, serve};
pub use worked::Worked;
pub use working::work;
