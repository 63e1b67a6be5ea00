//! Tests of asks that are tried on a copy of a book, in a crate of their own: a crate with tests is proved twice. Those of
//! `growth` refuse each growth of a call in turn.
#![tactic(auto)]

#[cfg(test)]
mod alike;
#[cfg(test)]
mod arenas;
#[cfg(test)]
mod asks;
#[cfg(test)]
mod growth;
#[cfg(test)]
mod starts;
#[cfg(test)]
mod trials;
#[cfg(test)]
mod worked;
