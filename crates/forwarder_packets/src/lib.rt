//! Datagrams of Semtech's UDP protocol for packet forwarders, version 2: what a gateway's packet forwarder tells a server, what a
//! server acknowledges, and what it asks for. Each reading is a function of the bytes; nothing here opens a socket.
#![tactic(auto)]

mod downlink;
mod entries;
mod entry;
mod head;
mod law_calls;
mod packet;
mod scaled;
mod tx_ack;

pub use downlink::{Transmission, law_pull_resps_read_back, pull_resp};
pub use entries::{PushFault, read_packets};
pub use entry::EntryFault;
pub use head::{Head, HeadFault, Kind, acknowledgement, read_head};
pub use packet::{Entry, NoMemory, Packet};
pub use tx_ack::{TxAck, read_tx_ack};
