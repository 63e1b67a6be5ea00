//! Reservations, and rosters that keep them by start.
#![tactic(auto)]

mod airtime;
mod law_calls;
mod laws;
mod reservation;
mod roster;
mod vec_roster;

pub use airtime::airtime_of;
pub use laws::{law_nearest_are_found, law_on_air_is_counted};
pub use reservation::{LAST_END, Reservation};
pub use roster::{Dropped, HOUR, MAX_MEMBERS, Roster, RosterFault, reach};
pub use vec_roster::VecRoster;
