//! The state of a server as SQL, of which an operator's own `sqlite3` makes a database.
#![tactic(auto)]

mod recovering;
mod rows;
mod writing;

pub use recovering::recover_sql;
pub use writing::write_sql;
