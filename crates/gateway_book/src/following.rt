// A member of a saved book behind those that were read before it.
ghost use Rattle.std.specs.Prelude.{◌≡◌, None, if◌then◌else◌, IfSome};
ghost use Rattle.gateway_book.specs.Book.{Admits};
ghost use Rattle.gateway_book.specs.Loading.{may_follow};
ghost use Rattle.gateway_book.specs.Saved.{saved_of, opened_again};
ghost use Rattle.gateway_book.specs.Step.{reservation_of};

use crate::ask::fitted;
use crate::{Ask, GatewayBook};
use resv_list::{HOUR, Reservation, Roster};

impl<R: Roster> GatewayBook<R> {
    /// The reservation that an ask becomes behind all members, if it may stand there.
    pub(crate) fn follower(&self, ask: Ask) -> Option<Reservation>
        requires { self.now ≡ opened_again (saved_of self.now) }
        ensures answer { result ≡ (if may_follow (saved_of self.now) ask then reservation_of ask else None) }
        ensures admits { IfSome result (Admits self.now) }
    {
        let Ok(reservation) = fitted(ask) else {
            return None;
        };
        if self.roster.first_from(ask.start).is_some() {
            return None;
        }
        if ask.start + HOUR < self.floor {
            return None;
        }
        if self.roster.len() >= self.cap as usize {
            return None;
        }
        if self.first_overlap(&reservation).is_some() {
            return None;
        }
        if self.duty_full(&reservation).is_some() {
            return None;
        }
        Some(reservation)
    }
}
