//! The settings of a server, read from TOML.
#![tactic(auto)]

mod settings_fault;
mod settings_fields;
mod settings_of_bytes;
mod settings_reading;

pub use server_desk::{DataRate, DeviceSetting, GatewaySetting, Settings, SettingsFault};
pub use settings_fault::ReadFault;
pub use settings_of_bytes::settings_in;
pub use settings_reading::{document_settings, read_settings};
