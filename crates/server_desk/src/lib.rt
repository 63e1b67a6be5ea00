//! What a server knows beside the books of its gateways: its settings, and the desk, which knows devices, the uplinks that
//! were heard, and how far each answer is. And what a server opens with: the usual limits, and the empty book of a gateway.
#![tactic(auto)]

mod airtimes;
mod answers;
mod book;
mod desk;
mod desk_limits;
mod device;
mod device_calls;
mod faults;
mod heard;
mod hearing;
mod opening;
mod setting;
mod settings;
mod settings_fault;
mod settling;
mod taking;
mod verdict;

pub use answer_ticket::NoMemory;
pub use answers::{Asked, Known, Sent};
pub use book::{Book, empty_book};
pub use desk::Desk;
pub use desk_limits::USUAL_LIMITS;
pub use device::Counters;
pub use faults::{DeskFault, QueueFault, TakeFault};
pub use heard::{DeskHeard, Heard1};
pub use radio_airtime::DataRate;
pub use setting::{DeviceSetting, GatewaySetting, keys_of};
pub use settings::{MAX_DEVICES, MAX_GATEWAYS, Settings};
pub use settings_fault::SettingsFault;
pub use uplink_gather::Limits;
