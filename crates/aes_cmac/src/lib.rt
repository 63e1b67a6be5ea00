//! AES-128 (FIPS 197) and its message authentication code CMAC (RFC 4493).
#![tactic(auto)]

mod cipher;
mod keys;
mod rounds;
mod schedule;
mod state;
mod subkeys;
mod tables;
mod whole;

pub use cipher::encrypt;
pub use keys::Key;
pub use state::Cmac;
pub use whole::cmac;
