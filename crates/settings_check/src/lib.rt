//! What stands in the settings of a server that is wrong or doubtful, each with its place.
#![tactic(auto)]

mod finding;
mod names;
mod place;
mod problem;
mod report;
mod search;
mod setting_key;
mod summary;
mod telling;
mod verdict;
mod walk;

pub use finding::{Finding, Severity};
pub use place::Place;
pub use report::{Report, report_of};
pub use verdict::{Verdict, verdict_of};
