//! The downlinks of a server's pass: which they are, which of them may be sent, what is written into the journal before, and the
//! datagrams that ask gateways for them. Nothing here sends, reads a clock or touches a file.
#![tactic(auto)]

mod batch;
mod batch_line;
mod datagram;
mod downlink;
mod fate;
mod law_calls;
mod laws;

pub use batch::{batch_of, book_of};
pub use batch_line::add_entry;
pub use datagram::pull_resp_for;
pub use downlink::{Downlink, downlinks_of};
pub use fate::{Fate, fate_of};
pub use forwarder_sessions::{Endpoint, NoMemory, Session};
pub use laws::law_batches_tell_what_is_sent;
pub use server_core::{Entry, Server};
