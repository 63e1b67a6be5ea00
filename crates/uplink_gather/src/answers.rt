/// Where a copy goes. Gatherings are numbered from 1 in the order of their opening.
#[derive(Clone, Copy, Debug, PartialEq, Eq)]
pub enum Place {
    /// It joins the gathering with this number.
    Joins(u64),
    /// It opens a gathering, where the limits leave room for one more.
    Opens,
}

/// Where a copy went.
#[derive(Clone, Copy, Debug, PartialEq, Eq)]
pub enum Heard {
    /// It opened the gathering with the number `n`.
    Opened { n: u64 },
    /// It joined the gathering with the number `n`, which now has `copies` copies.
    Joined { n: u64, copies: usize },
}
