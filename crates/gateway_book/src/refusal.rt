use radio_bands::Band;
use thiserror::Error;

/// Why a book refused an ask. Where several hold, the first in this order is answered.
#[derive(Clone, Copy, Debug, PartialEq, Eq, Error)]
pub enum Refusal {
    /// The frequency, with half of the bandwidth to either side, lies in none of the six sub-bands (EN 300 220-2, annex B).
    #[error("the channel lies in no sub-band of EU868")]
    NoBand,
    /// The length in bytes is above the data rate's greatest (RP002, EU863-870, maximum payload size).
    #[error("the PHYPayload is too long for the data rate")]
    TooLong,
    /// The end, in microseconds, would lie above 2^61.
    #[error("the transmission would end above 2^61 microseconds")]
    PastEnd,
    /// The start, in microseconds, is below the moment that the book was told last.
    #[error("the start lies before the book's floor")]
    Passed,
    /// `start` is the least start of a reservation that overlaps, or that is closer than the gap, in microseconds.
    #[error("it overlaps the transmission that begins at {start}, or is closer to it than the gap")]
    Taken { start: u64 },
    /// `from` is the least opening of an hour that holds the start and would pass the sub-band's limit,
    /// among the asked start and the starts of the band's members; `spent` is the airtime of the band
    /// that begins in that hour without what is asked for. Both are in microseconds.
    #[error("the hour from {from} of sub-band {band:?} has {spent} us of airtime and would pass its limit")]
    DutyFull { band: Band, from: u64, spent: u64 },
    /// As many members are kept as the book's cap says.
    #[error("the book holds as many transmissions as it may")]
    Full,
    /// All airtime that was ever booked, in microseconds, would pass 2^62.
    #[error("the booked airtime would pass 2^62 microseconds")]
    TotalsFull,
    /// A growth was refused; the book is as it was.
    #[error("there is no memory for one more transmission")]
    NoMemory,
}
