//! Events of a run as its lines: what a server writes of what it heard and did, so that a run can read it again.
#![tactic(auto)]

mod law_calls;
mod laws;
mod lines;

pub use laws::law_events_read_back;
pub use lines::{NoMemory, event_line};
