//! Time on air of a LoRa frame (Semtech SX1276 datasheet, section 4.1.1.7), for the data rates of
//! EU868 with LoRaWAN's preamble and header.
#![tactic(auto)]

mod data_rate;
mod time_on_air;

pub use data_rate::DataRate;
pub use time_on_air::airtime;
