//! What worked runs begin with, for the tests of the crates above: devices and gateways, uplinks and copies of them, desks,
//! books, and what becomes of tickets. Nothing here has a contract, so a test's proof carries no facts about what it is given.
#![tactic(auto)]

mod books_for_tests;
mod desks_for_tests;
mod devices_for_tests;
mod tickets_for_tests;
mod uplinks_for_tests;

pub use books_for_tests::{WorkedBook, book_of};
pub use desks_for_tests::{
    AMPLE, WorkedDesk, WorkedHasher, answered, desk_of, hasher, heard, passed, queued, settings_of,
};
pub use devices_for_tests::{ADDR, APP, DEVICE, NWK, device};
pub use tickets_for_tests::{
    booked, given_up, handed_back, last_refused, next_refused, settled, spent, taken, tried_on,
};
pub use uplinks_for_tests::{COPY, copy_at, uplink};
