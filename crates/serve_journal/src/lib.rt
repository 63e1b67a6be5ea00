//! The journal of a server: what it must not forget when it is killed, as lines of text that are only ever added to a file.
#![tactic(auto)]

mod device;
mod entry;
mod entry_line;
mod entry_words;
mod fault;
mod gateway;
mod head;
mod line_laws;
mod lines;
mod lives;
mod payload;
mod reading;
mod recovering;
mod renewal;
mod renewal_law;
mod session;
mod state;
mod torn;
mod words;

pub use device::JournalDevice;
pub use entry::Entry;
pub use entry_words::read_entry;
pub use fault::JournalFault;
pub use gateway::JournalGateway;
pub use line_laws::{law_entries_read_back, law_lines_have_one_spelling};
pub use lives::{law_every_life_keeps_duty, law_every_life_raises_counters};
pub use payload::Payload;
pub use reading::read_journal;
pub use recovering::{RecoverFault, recover};
pub use renewal::{BATCH_END, write_state};
pub use renewal_law::law_renewal_reads_as_state;
pub use session::session_of;
pub use state::JournalState;
pub use torn::law_torn_is_dropped;
