//! A server's desk beside the tally of its settled answers' airtime: what stands behind the desk's lock.
#![tactic(auto)]

mod office;

pub use air_ledger::{Blank, Ledger, PARTS, Tally, Till};
pub use office::{NoMemory, Office};
