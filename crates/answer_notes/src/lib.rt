//! Notes beside the answers: why a line was refused, in words that a person can act on.
#![tactic(auto)]

mod asked;
mod note_text;
mod notes;
mod reason;
mod run_reason;
mod waiting;
mod watched;

pub use asked::Script;
pub use note_text::{NOTE_LIMIT, NoteText};
pub use notes::{NoteSink, Notes};
pub use waiting::Head;
pub use watched::{WatchedIn, WatchedOut, Watcher};
