//! Books at the end of a server's run: against the desk, against one another, and against receipts.
#![tactic(auto)]

mod apart;
mod cause;
mod comparing;
mod held;
mod lost;
mod marks;

pub use cause::FinishCause;
pub use comparing::compare;
