//! A gateway's airtime book: which transmissions it has reserved, and the answer to one more ask.
#![tactic(auto)]

mod adding;
mod ask;
mod book;
mod busiest;
mod cancel;
mod duty;
mod earliest;
mod following;
mod law_calls;
mod laws;
mod loading;
mod opening;
mod overlap;
mod refusal;
mod rules;
mod saved_line;
mod saved_reader;
mod saved_steps;
mod saved_words;
mod saving;
mod totals;

pub use ask::Ask;
pub use book::{GatewayBook, NoMemory};
pub use cancel::CancelFault;
pub use laws::{
    law_books_may_be_saved, law_busiest_is_exact, law_duty_row_is_exact, law_earliest_candidates,
    law_earliest_is_exact, law_few_hours_suffice, law_first_has_least_start, law_forgetting,
    law_gap_keeps_disjoint, law_least_is_least, law_loaded_was_saved, law_on_air_keeps_limit,
    law_saved_is_read_again, law_spaced_is_apart,
};
pub use loading::LoadFault;
pub use opening::{MAX_CAP, MAX_GAP, OpenFault, open_fault};
pub use refusal::Refusal;
pub use resv_list::HOUR;
pub use saving::SaveFault;
pub use text_lines::{ByteIn, ByteOut, CallFailed, MemoryIn, MemoryOut, StdIn, StdOut};
pub use totals::Totals;
