//! The ledger of a station's booked airtime: a tally that counts all of it, and tills that each hold some parts of the
//! ledger and the airtime that was counted with them. Whoever holds all parts holds all airtime.
#![tactic(auto)]

mod opening;
mod tally;
mod till;

pub use opening::{PARTS, begin};
pub use std::sync::ledger::{Blank, Ledger};
pub use tally::Tally;
pub use till::Till;
