//! The texts of a book and of a plan with notes beside them, and what is wrong with settings or a saved book, in words.
#![tactic(auto)]

mod booking;
mod faults;

pub use booking::{noted_book, noted_plan};
pub use faults::{saved_book_fault, settings_fault};
