//! Tests of times on air, sub-bands, rosters and books, in a crate of their own: a crate with tests is proved twice. Those of
//! `growth` refuse each growth of a call in turn.
#![tactic(auto)]

#[cfg(test)]
mod asks;
#[cfg(test)]
mod book;
#[cfg(test)]
mod book_steps;
#[cfg(test)]
mod earliest;
#[cfg(test)]
mod filling;
#[cfg(test)]
mod growth;
#[cfg(test)]
mod growths;
#[cfg(test)]
mod hours;
#[cfg(test)]
mod members;
#[cfg(test)]
mod plain_book;
#[cfg(test)]
mod plain_hours;
#[cfg(test)]
mod radio;
#[cfg(test)]
mod roster;
#[cfg(test)]
mod saved;
#[cfg(test)]
mod saved_faults;
#[cfg(test)]
mod unforgetting;
