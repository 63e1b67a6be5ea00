//! The text of `airbook check`: settings in, what is wrong or doubtful in them out.
#![tactic(auto)]

mod check;

pub use check::check_text;
pub use settings_check::Verdict;
pub use text_words::TextFault;
