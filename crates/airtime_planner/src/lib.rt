//! What a gateway's book would answer to asks, tried on a copy in an arena.
#![tactic(auto)]

mod asking;
mod earliest;
mod law_calls;
mod laws;

pub use asking::{answer_to, what_if};
pub use earliest::what_if_earliest;
pub use laws::{law_live_book_answers_alike, law_live_book_starts_alike};
