//! What the texts of `airbook` share: why a text call stops, and the words of answers and reports.
#![tactic(auto)]

mod busiest;
mod fault;
mod words;

pub use busiest::add_busiest;
pub use fault::TextFault;
pub use text_lines::{add_number, add_word};
pub use words::{add_band, add_fault, add_numbered, add_refusal, refusal_name};
