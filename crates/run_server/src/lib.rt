//! A server with workers that serves a run: what an event asks for is done on a station, the uplinks that one `pass` closes are
//! answered, and at the end the books are compared with what was answered.
#![tactic(auto)]

mod numbered;
mod pass_answers;
mod pass_ends;
mod receipts;
mod shift_events;
mod shift_pass;
mod station_close;
mod station_pass;
mod station_run;

pub use pass_answers::Answer;
pub use pass_ends::answers;
pub use station_pass::{Answered, Told, answer_with_workers};
pub use station_run::{Played, Shift};
