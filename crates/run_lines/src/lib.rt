//! The lines of a run: the input's two parts and the events of its lines, and the lines that answer them and report.
#![tactic(auto)]

mod all_events;
mod all_lines;
mod datagram;
mod entry_line;
mod entry_name;
mod gateway_report;
mod key_ring;
mod law_calls;
mod laws;
mod part_text;
mod replay_text;
mod run_events;
mod run_input;
mod run_words;
mod uplink_counts;

pub use all_events::{events_from, first_quarter};
pub use all_lines::write_lines_by_threads;
pub use datagram::{DATAGRAM_ROOM, datagram_event};
pub use entry_name::hear_name;
pub use laws::law_lines_are_whole;
pub use part_text::{write_entries, write_report};
pub use replay_text::write_lines;
pub use run_input::{parts_of, read_all};
pub use uplink_counts::UplinkCounts;
