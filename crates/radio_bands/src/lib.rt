//! The sub-bands of EU868 with their duty cycles (ETSI EN 300 220-2, annex B, as this project's profile
//! has them), and which one a channel lies in.
#![tactic(auto)]

mod band;
mod duty;
mod law_calls;
mod laws;

pub use band::Band;
pub use duty::limit_us;
pub use laws::law_at_most_one_band;
