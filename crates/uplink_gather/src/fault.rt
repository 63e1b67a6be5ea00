use thiserror::Error;

/// Why a copy was not taken in. Where several hold, the first in this order is answered: the first two
/// come only where the copy would join a gathering, `Crowded` only where it would open one.
#[derive(Clone, Copy, Debug, PartialEq, Eq, Error)]
pub enum HearFault {
    /// The gathering that the copy would join has a copy of the same gateway.
    #[error("a copy that this gateway heard is there already")]
    SameGateway,
    /// The gathering that the copy would join has `max_copies` copies or more.
    #[error("the gathering has as many copies as it may have")]
    TooManyCopies,
    /// The gathering of these bytes is closed or opened over 200,000 µs before the arrival, and at most 1,000,000 µs before it.
    #[error("the gathering of these bytes is over, and the next may open 1,000,001 us after it opened")]
    Late,
    /// `max_open` gatherings or more are unclosed, or `max_ever` or more were ever opened.
    #[error("as many gatherings are unclosed, or were ever opened, as may be")]
    Crowded,
    /// A growth for the copy, or for the gathering that it opens, was refused.
    #[error("there is no memory for one more copy")]
    NoMemory,
}
