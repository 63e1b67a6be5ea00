//! A server that packet forwarders are pointed at, turn by turn: a datagram is taken in, what is due is answered, and what happened
//! is told in lines. A server that keeps a journal sends what answers uplinks, once the disk has it. The socket, the clock, the
//! journal's file and the output are whoever implements `Host`.
#![tactic(auto)]

mod answerer;
mod asking;
mod by_gateway;
mod command;
mod control;
mod counts;
mod host;
mod keeping;
mod life_law;
mod names;
mod new_desk;
mod new_desk_law;
mod renewing;
mod replies;
mod send_law;
mod sending;
mod serving;
mod settings_law;
mod taking;
mod tally;
mod telling;
mod turn;

pub use by_gateway::{forwarders_of, resumed_forwarders};
pub use forwarder_sessions::{Endpoint, Forwarder};
pub use host::{Came, Host};
pub use life_law::{
    law_devices_go_on, law_each_downlink_is_counted, law_every_served_life_keeps_duty,
    law_every_served_life_raises_counters,
};
pub use new_desk_law::law_new_desk_keeps;
pub use send_law::{law_each_downlink_is_sent_once, law_every_send_is_kept};
pub use serving::{Resumed, Serving};
pub use settings_law::law_settings_stay_accepted;
pub use turn::Stopped;
