/// How much a desk gathers at most.
#[derive(Clone, Copy, Debug, PartialEq, Eq)]
pub struct Limits {
    /// How many gatherings may be unclosed at the same time.
    pub max_open: u32,
    /// How many gatherings may ever be opened. Their bytes and copies are kept for ever.
    pub max_ever: u32,
    /// From how many copies on a gathering is joined by no further one. The first, which opens it, is
    /// taken in any case.
    pub max_copies: u32,
}
