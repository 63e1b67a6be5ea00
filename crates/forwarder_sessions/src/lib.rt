//! The packet forwarders of a server's gateways, by Semtech's UDP protocol, version 2: which gateway a datagram comes from, what
//! acknowledges it, where that gateway's downlinks go, and what its own clock shows. Nothing here opens a socket.
#![tactic(auto)]

mod forwarders;
mod received;
mod session;

pub use forwarder_packets::{Entry, EntryFault, NoMemory, Packet, TxAck};
pub use forwarders::{Datagram, Forwarders};
pub use gateway_clock::Placed;
pub use received::{DatagramFault, News, PushDropped, Received};
pub use session::{Endpoint, FIRST_HIGH, Forwarder, Newest, Pulled, Session};
