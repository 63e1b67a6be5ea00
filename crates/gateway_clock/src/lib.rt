//! A gateway's own clock, carried on in 64 bits from the 32 bits that its packet forwarder tells (`tmst` of Semtech's UDP
//! protocol for packet forwarders, version 2), and from a server's clock, which tells how much time has passed.
#![tactic(auto)]

mod clock;
mod law_calls;
mod laws;

pub use clock::{GatewayClock, Placed};
pub use laws::{
    law_ceiling_rises_with_time, law_nearest_is_the_only_one, law_sessions_keep_differences,
};
