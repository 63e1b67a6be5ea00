// What one thread did with events, and what it told.

use crate::{Book, Entry, Step};
use std::alloc::Allocator;

/// What one thread did with a list of events, from a server that has heard nothing.
#[derive(Drop)]
pub struct Replay<A: Allocator + Copy> {
    /// The steps that it made of them.
    pub steps: Vec<Step<A>, A>,
    /// The lines that answer them, with the places of their events.
    pub outcomes: Vec<Entry<A>, A>,
    /// The gateways' books as they are after the last step, in the order of the settings.
    pub books: Vec<Book<A>, A>,
}

/// What one thread told of a list of events, from a server that has heard nothing: a `Replay` without its steps.
#[derive(Drop)]
pub struct Answers<A: Allocator + Copy> {
    /// The lines that answer them, with the places of their events.
    pub outcomes: Vec<Entry<A>, A>,
    /// The gateways' books as they are after the last step, in the order of the settings.
    pub books: Vec<Book<A>, A>,
}
