//! A server for several threads: the desk stands behind one lock, each gateway's book behind its own, and whoever gathers
//! all shares of the ledger knows the airtime of all answers.
#![tactic(auto)]

mod closing;
mod finishing;
mod gate;
mod handled;
mod place;
mod shelf;
mod station;
mod totals_fault;

pub use book_audit::FinishCause;
pub use closing::{Closing, FinishFault};
pub use gate::{Gate, MAX_TURNS, NoGate};
pub use handled::Handled;
pub use server_office::{Blank, Ledger, NoMemory, Office, PARTS, Tally, Till};
pub use station::Station;
pub use totals_fault::TotalsFault;
