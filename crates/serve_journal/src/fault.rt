// Why a journal was not read.
use thiserror::Error;

/// Why a journal was not read. Lines count from 1, and the first that is at fault is told.
#[derive(Clone, Copy, Debug, PartialEq, Eq, Error)]
pub enum JournalFault {
    /// No line `.` ends a batch; `line` is the one that would follow the last.
    #[error("line {line} of the journal is missing: no line `.` ends a batch of entries")]
    NoBatch {
        /// The number of the line.
        line: u64,
    },
    /// The first line is not `airbook journal VERSION`.
    #[error("line 1 of the journal is not the line of its version")]
    NoHead,
    /// The version is another than 1.
    #[error("line 1 of the journal has another version than 1")]
    Version,
    /// The line is not spelled as one is written, or says what can't be beside the lines before it.
    #[error("line {line} of the journal is malformed, or says what can't be beside the lines before it")]
    Journal {
        /// The number of the line.
        line: u64,
    },
    /// There was no memory for what the journal says.
    #[error("there is no memory for what the journal says")]
    NoMemory,
}

/// Why an entry was not taken.
#[derive(Clone, Copy, Debug, PartialEq, Eq)]
pub(crate) enum EntryFault {
    /// It says what can't be beside what those before it say.
    Refused,
    /// There was no memory for what it says.
    NoMemory,
}
