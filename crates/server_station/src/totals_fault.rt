use thiserror::Error;

/// Why no totals of a gateway are told. Where both hold, the first is answered.
#[derive(Clone, Copy, Debug, PartialEq, Eq, Error)]
pub enum TotalsFault {
    /// The settings name no gateway with this id.
    #[error("no gateway has this number")]
    UnknownGateway,
    /// The gateway has booked less airtime than its caller has seen booked before.
    #[error("the gateway's booked airtime is {booked} us, less than was seen before")]
    Behind {
        /// The airtime that the gateway has booked, in microseconds.
        booked: u64,
    },
}
