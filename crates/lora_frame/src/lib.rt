//! Data frames of LoRaWAN L2 1.0.4, section 4: uplinks are read and their MIC is checked, downlinks are
//! written; and the device's own writing of an uplink.
#![tactic(auto)]

mod blocks;
mod counting;
mod law_calls;
mod laws;
mod layout;
mod parts;
mod reading;
mod writing;

pub use aes_cmac::Key;
pub use counting::{infer, law_infer_is_least};
pub use laws::{law_device_decrypts, law_uplink_reads_back};
pub use layout::{BESIDE_PAYLOAD, EMPTY_LEN, MAX_PAYLOAD, MAX_PORT, MIC_LEN, is_application_port};
pub use parts::{Body, Down, Keys, Up};
pub use reading::{FrameFault, Uplink, check_mic, read_uplink};
pub use writing::{DownFault, UpFault, downlink, uplink_bytes, uplink_header};
