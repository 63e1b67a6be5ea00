use thiserror::Error;

/// Why a station isn't finished. Where several hold, the first is answered, but `NoMemory` may come before all others
/// than `TillMissing`.
#[derive(Clone, Copy, Debug, PartialEq, Eq, Error)]
pub enum FinishCause {
    /// The tills together have more or fewer than 65,536 parts.
    #[error("the tills together don't have all parts of the ledger")]
    TillMissing,
    /// A gateway's book and the desk don't agree on the airtime of its answers.
    #[error("gateway {gateway} has booked {booked} us, but its settled answers are on air for {answered} us")]
    Apart {
        /// The first gateway of which this holds, in the order of the books, which a station has by number; where it holds of
        /// none of theirs, the desk's first without a book, in the order of its settings.
        gateway: u16,
        /// What the gateway's book has booked, in microseconds; 0 where it has none.
        booked: u64,
        /// The airtime of the settled answers that were booked there, in microseconds.
        answered: u64,
    },
    /// Two reservations with the same number are kept.
    #[error("number {number} is kept twice, by the gateways {gateway} and {other}")]
    Doubled {
        /// The least number of which this holds.
        number: u64,
        /// The gateway that keeps one of the two reservations.
        gateway: u16,
        /// The gateway that keeps the other; it may be the same.
        other: u16,
    },
    /// The gateway of a receipt is unknown, or neither keeps the reservation nor is more than an hour past it.
    #[error("the gateway of receipt {number} doesn't keep its reservation")]
    Lost {
        /// The number of the first such receipt.
        number: u64,
    },
    /// A growth was refused.
    #[error("out of memory")]
    NoMemory,
}
