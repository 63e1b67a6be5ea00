//! For tests of want of memory: an allocator that refuses some growths of those that are asked of it, by their number, and how a
//! call is tried with its first growth refused, its second, and so on.
#![tactic(auto)]

mod refusing_for_tests;
mod turns_for_tests;

pub use refusing_for_tests::Refusing;
pub use turns_for_tests::{
    Call, MOST_GROWTHS, Refused, Refuser, asked_of, growths_of, is_as_asked, refuse, same,
    was_refused,
};
