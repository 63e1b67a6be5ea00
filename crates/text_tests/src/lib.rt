//! Tests of the texts of `airbook` and of a server that listens: of what no clause says and no worked case shows.
#![tactic(auto)]

#[cfg(test)]
mod datagrams;
#[cfg(test)]
mod failing_calls;
#[cfg(test)]
mod forwarders;
#[cfg(test)]
mod loopback;
#[cfg(test)]
mod passes;
#[cfg(test)]
mod settings;
#[cfg(test)]
mod text_calls;
#[cfg(test)]
mod turns;
#[cfg(test)]
mod worked_texts;
