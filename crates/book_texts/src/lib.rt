//! The texts of one gateway's book and of a time on air: input lines in, answer lines and a report out.
#![tactic(auto)]

mod booking;
mod command;
mod law_calls;
mod laws;
mod picturing;
mod planning;
mod reply;
mod report;
mod resuming;
mod toa;

pub use booking::book_text;
pub use laws::{
    law_answers_come_first, law_ok_where_accepted, law_one_answer_a_line, law_plan_is_book,
    law_plan_tells_answers, law_plan_tells_starts,
};
pub use picturing::picture_text;
pub use planning::plan_text;
pub use toa::toa_text;
