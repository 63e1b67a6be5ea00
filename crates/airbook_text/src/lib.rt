//! The texts of `airbook`: input lines in, answer lines out; datagrams in, each answered at once; and the settings of a server.
#![tactic(auto)]

mod given_events;
mod listen;
mod listener;
mod run;
mod run_ahead;
mod run_alone;
mod source;
mod unread;
mod whole_serve_settings;
mod whole_settings;

pub use book_texts::{
    book_text, law_answers_come_first, law_ok_where_accepted, law_one_answer_a_line,
    law_plan_is_book, law_plan_tells_answers, law_plan_tells_starts, picture_text, plan_text,
    toa_text,
};
pub use check_texts::{Verdict, check_text};
pub use listen::{TURN_LIMIT, listen_text};
pub use run::run_text;
pub use serve_settings::ServeSettings;
pub use server_workers::MAX_WORKERS;
pub use settings_text::{
    DataRate, DeviceSetting, GatewaySetting, ReadFault, Settings, SettingsFault, read_settings,
};
pub use source::Source;
pub use text_words::TextFault;
pub use whole_serve_settings::read_whole_serve_settings;
pub use whole_settings::read_whole_settings;
