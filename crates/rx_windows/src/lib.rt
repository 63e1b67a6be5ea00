//! The receive windows in which a device listens after an uplink (LoRaWAN L2 1.0.4, section 3.3, and RP002,
//! EU863-870): what could be sent in them, and by which of the gateways that heard it, the best one first.
#![tactic(auto)]

mod candidate;
mod law_calls;
mod laws;
mod plan;
mod ranking;
mod windows;

pub use candidate::{Candidate, Window};
pub use laws::{law_candidates_on_gateways_that_heard, law_one_ranking};
pub use plan::Plan;
pub use ranking::rank;
pub use uplink_gather::NoMemory;
pub use windows::candidates;
