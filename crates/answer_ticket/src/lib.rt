//! The one answer that an uplink may have: what is fixed when its ticket is given, how the ticket is tried on the
//! books of the gateways that heard the uplink, and how it ended. A ticket can't be copied or dropped: it becomes
//! another ticket, or a stub that tells how it ended.
#![tactic(auto)]

mod bytes;
mod copies;
mod job;
mod outcome;
mod stub;
mod ticket;
mod tried;

pub use bytes::Bytes;
pub use copies::Copies;
pub use gateway_book::NoMemory;
pub use job::Job;
pub use outcome::{Ending, Outcome};
pub use stub::Stub;
pub use ticket::Ticket;
pub use tried::{Receipt, Tried, TriedOut};
