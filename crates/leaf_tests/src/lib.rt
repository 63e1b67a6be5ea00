//! Tests of what stands on no other part of the server: lines, words and numbers of texts, the cipher with its codes, frames,
//! gatherings and receive windows. Those of `growth` refuse each growth of a call in turn; the call then answers so, and leaves
//! all as it was, and the same call with memory answers as ever.
#![tactic(auto)]

#[cfg(test)]
mod acks;
#[cfg(test)]
mod calls;
#[cfg(test)]
mod candidate_growth;
#[cfg(test)]
mod codes;
#[cfg(test)]
mod counters;
#[cfg(test)]
mod cuts;
#[cfg(test)]
mod downlinks;
#[cfg(test)]
mod forwarded;
#[cfg(test)]
mod frame_growth;
#[cfg(test)]
mod frames;
#[cfg(test)]
mod gathering;
#[cfg(test)]
mod growth;
#[cfg(test)]
mod lines;
#[cfg(test)]
mod notes;
#[cfg(test)]
mod sessions;
#[cfg(test)]
mod std_calls;
#[cfg(test)]
mod windows;
#[cfg(test)]
mod words;
