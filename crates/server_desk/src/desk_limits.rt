// The limits of a desk for which nobody says any.
use uplink_gather::Limits;

/// How many uplinks are gathered at a time and in all, and how many copies of one, where nobody says so: 4,096, 1,000,000 and
/// 64.
pub const USUAL_LIMITS: Limits = Limits {
    max_open: 4_096,
    max_ever: 1_000_000,
    max_copies: 64,
};
