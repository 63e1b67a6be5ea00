/// What a book has counted, all airtimes and moments in microseconds. At all times `booked` is the
/// sum of `cancelled`, `retired` and `kept_airtime`.
#[derive(Clone, Copy, Debug, PartialEq, Eq)]
pub struct Totals {
    /// The airtime of all that was ever booked.
    pub booked: u64,
    /// The airtime of what was cancelled.
    pub cancelled: u64,
    /// The airtime of what was retired.
    pub retired: u64,
    /// The airtime of what is kept.
    pub kept_airtime: u64,
    /// How many transmissions are kept.
    pub kept: usize,
    /// The moment before which nothing more is booked.
    pub floor: u64,
}
