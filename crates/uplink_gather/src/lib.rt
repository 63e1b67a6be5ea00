//! Copies of one uplink, gathered from the gateways that heard it.
#![tactic(auto)]

mod answers;
mod fault;
mod gather;
mod heard;
mod limits;
mod newest;
mod rules;
mod stored;
mod text;

pub use answers::{Heard, Place};
pub use fault::HearFault;
pub use gather::{Gather, NoMemory};
pub use heard::HeardCopy;
pub use limits::Limits;
