// How a transmission joins a book: where it stands, and what it adds.
ghost use Rattle.std.specs.Prelude.{◌≡◌, OnOk, OnErr};
ghost use Rattle.gateway_book.specs.Book.{Admits, with_booked};

use crate::{GatewayBook, NoMemory};
use resv_list::{Reservation, Roster};
use std::alloc::AllocError;

impl<R: Roster> GatewayBook<R> {
    /// Puts a reservation in its place, and counts its airtime as booked. An `Err` changes nothing.
    pub(crate) fn add(&mut self, reservation: Reservation) -> Result<(), NoMemory>
        requires { Admits self.old reservation }
        ensures added { OnOk result (self.new ≡ with_booked self.old reservation) }
        ensures refused { OnErr result (self.new ≡ self.old) }
    {
        match self.roster.insert(reservation) {
            Ok(()) => {
                self.booked += reservation.airtime();
                Ok(())
            }
            // It is not full: it has fewer members than `cap`.
            Err(_) => Err(AllocError),
        }
    }
}
