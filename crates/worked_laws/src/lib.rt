//! Facts of worked runs, and what the headline, the promise and the laws say once more, clause by clause: who loosens one of
//! them has to loosen it here too. The facts stand in `proofs/`. The laws are called in `law_calls`, so that no law's function can
//! say less than its statement.
#![tactic(auto)]

mod law_calls;
