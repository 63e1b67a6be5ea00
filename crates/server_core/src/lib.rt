//! The server's core: what holds of the whole system over every interleaving, and a run of events on one thread. The
//! settings and the desk are those of `server_desk`.
#![tactic(auto)]

mod answering;
mod books;
mod calling;
mod dispatch;
mod engine;
mod entry;
mod event;
mod law_calls;
mod laws;
mod lines;
mod replayed;
mod replaying;
mod server;
mod trying;

pub use books::empty_books;
pub use dispatch::do_all_but_pass;
pub use engine::Engine;
pub use entry::{Entry, Line};
pub use event::{Event, Step};
pub use laws::{
    law_book_calls_are_steps, law_desk_calls_are_steps, law_every_interleaving,
    law_every_resumed_run_keeps_headline, law_every_run_keeps_headline, law_others_leave_alone,
};
pub use lines::{cancelled_line, heard_line, queued_line, refused_line};
pub use replayed::{Answers, Replay};
pub use replaying::{answer_events, replay};
pub use server::Server;
pub use server_desk::{
    Book, Counters, DataRate, Desk, DeskFault, DeskHeard, DeviceSetting, GatewaySetting, Heard1,
    Limits, MAX_DEVICES, MAX_GATEWAYS, NoMemory, QueueFault, Settings, SettingsFault, TakeFault,
    USUAL_LIMITS, keys_of,
};
