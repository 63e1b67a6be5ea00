//! The journal of a running server, written anew: what it must not forget, as a whole journal of one batch. Nothing here touches a
//! file or reads a clock.
#![tactic(auto)]

mod devices;
mod gateways;
mod renewal;

pub use forwarder_sessions::{NoMemory, Session};
pub use renewal::renewal_of;
pub use server_core::Server;
