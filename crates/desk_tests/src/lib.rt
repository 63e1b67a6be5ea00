//! Worked runs of tickets, of the ledger, of a desk and its settings, of the whole server on one thread, and of the comparison of
//! its books. Those of `growth` refuse each growth of a call in turn.
#![tactic(auto)]

#[cfg(test)]
mod audits;
#[cfg(test)]
mod calls;
#[cfg(test)]
mod devices;
#[cfg(test)]
mod growth;
#[cfg(test)]
mod hearing;
#[cfg(test)]
mod ledger;
#[cfg(test)]
mod lines_of_events;
#[cfg(test)]
mod runs;
#[cfg(test)]
mod serving;
#[cfg(test)]
mod settings;
#[cfg(test)]
mod settling;
#[cfg(test)]
mod taking;
#[cfg(test)]
mod tickets;
