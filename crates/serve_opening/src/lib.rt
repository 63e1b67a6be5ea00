//! What a server opens with, out of its settings and of what its journal says. Nothing here touches a file or a clock.
#![tactic(auto)]

mod device;
mod fault;
mod gateway;
mod law_calls;
mod laws;
mod note;
mod opening;
mod silence;
mod waiting;

pub use fault::OpeningFault;
pub use laws::law_each_gateway_takes_its_own;
pub use note::Note;
pub use opening::{Opening, opening_of};
pub use serve_journal::Payload;
pub use server_core::Book;
