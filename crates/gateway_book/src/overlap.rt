// The two members that may overlap what is asked for: the last that begins before it, and the first that doesn't.
ghost use Rattle.std.specs.Prelude.{◌≡◌, nat_lt, ◌+◌};
ghost use Rattle.std.specs.Option.{option_map};
ghost use Rattle.resv_list.specs.Reservations.{start_of, end_of};
ghost use Rattle.gateway_book.specs.Answer.{overlap};
ghost use Rattle.gateway_book.specs.Disjoint.{rested_from};
ghost use Rattle.gateway_book.specs.Spaced.{keep_if};

use crate::GatewayBook;
use resv_list::{Reservation, Roster};

impl<R: Roster> GatewayBook<R> {
    /// The least start of a member that overlaps, or that the gap keeps apart. Only two can: the last that begins before it, and
    /// the first that doesn't.
    pub(crate) fn first_overlap(&self, reservation: &Reservation) -> Option<u64>
        ensures { result ≡ overlap self.now.rules.gap self.now.list reservation.now.start (end_of reservation.now) }
    {
        let from = reservation.start;
        match resting_after(self.roster.before(from), self.gap, from) {
            Some(before) => Some(before.start),
            None => starting_before(
                self.roster.first_from(from),
                rested_from(reservation, self.gap),
            ),
        }
    }
}

/// When the gateway may transmit again after a member: its end and the gap, in microseconds.
pub(crate) fn rested_from(member: &Reservation, gap: u32) -> u64
    ensures { result ≡ rested_from gap member.now }
{
    member.end() + u64::from(gap)
}

/// The member, if its gap passes after `from`.
fn resting_after(member: Option<Reservation>, gap: u32, from: u64) -> Option<Reservation>
    ensures { result ≡ keep_if (λ b. nat_lt from (rested_from gap b)) member }
{
    member.filter(|before| rested_from(before, gap) > from)
}

/// The member's start, if that lies before `to`.
fn starting_before(member: Option<Reservation>, to: u64) -> Option<u64>
    ensures { result ≡ option_map start_of (keep_if (λ n. nat_lt n.start to) member) }
{
    match member {
        Some(next) if next.start < to => Some(next.start),
        _ => None,
    }
}
