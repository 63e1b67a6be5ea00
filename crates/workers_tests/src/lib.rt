//! Tests of a station and its workers. Those of `growth` refuse each growth of a call in turn, of tickets too.
#![tactic(auto)]

#[cfg(test)]
mod asked_tests;
#[cfg(test)]
mod asks;
#[cfg(test)]
mod busy;
#[cfg(test)]
mod day_tests;
#[cfg(test)]
mod done;
#[cfg(test)]
mod finish_tests;
#[cfg(test)]
mod finishing;
#[cfg(test)]
mod gate_tests;
#[cfg(test)]
mod gates;
#[cfg(test)]
mod growth;
#[cfg(test)]
mod looks;
#[cfg(test)]
mod meeting;
#[cfg(test)]
mod plans;
#[cfg(test)]
mod posts;
#[cfg(test)]
mod shifts;
#[cfg(test)]
mod station_tests;
#[cfg(test)]
mod steps;
#[cfg(test)]
mod tickets;
#[cfg(test)]
mod untouched_tests;
#[cfg(test)]
mod wanted;
#[cfg(test)]
mod work_tests;
