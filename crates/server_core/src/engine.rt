// Whoever answers events: a call for each of their kinds.

ghost use Rattle.std.specs.Prelude.{ℕ, ◌≡◌, OnOk};

use crate::{Event, Heard1, NoMemory};
use std::alloc::Allocator;

/// What answers events: a call for each kind but `Pass`, which everyone closes in their own way. `R` is what its calls wait by,
/// where they wait. Each call tells the lines of its event with the event's place. Err(NoMemory) where a growth was refused; no
/// further event may be done then.
pub trait Engine<A: Allocator, R> {
    ghost use Rattle.server_core.specs.declared.event.Event.{Event};

    // It may be given an event.
    ghost is_ready: { Self → Type 0 };

    // What the event at a place asks for was done.
    ghost has_done: { ℕ → Event A → Self → Self → Type 0 };

    /// Queues a payload for the device with this address: FPort and FRMPayload, not encrypted.
    fn queue(
        &mut self,
        rt: &R,
        place: usize,
        addr: u32,
        port: u8,
        payload: &[u8],
    ) -> Result<(), NoMemory>
        requires { is_ready self.old }
        ensures ready { OnOk result (is_ready self.new) }
        ensures done { OnOk result (has_done place (Event.Queue addr port payload.now) self.old self.new) };

    /// Takes in a copy of the uplink with these bytes, which arrives at this moment, in microseconds of the server's clock.
    fn hear(
        &mut self,
        rt: &R,
        place: usize,
        bytes: &[u8],
        heard: Heard1,
        arrived: u64,
    ) -> Result<(), NoMemory>
        requires { is_ready self.old }
        ensures ready { OnOk result (is_ready self.new) }
        ensures done { OnOk result (has_done place (Event.Hear bytes.now heard arrived) self.old self.new) };

    /// Raises the floor of the gateway with this number to `now`, in microseconds of its clock.
    fn tick(&mut self, rt: &R, place: usize, gateway: u16, now: u64) -> Result<(), NoMemory>
        requires { is_ready self.old }
        ensures ready { OnOk result (is_ready self.new) }
        ensures done { OnOk result (has_done place (Event.Tick gateway now) self.old self.new) };

    /// Cancels what was booked for the uplink with this number.
    fn cancel(&mut self, rt: &R, place: usize, number: u64) -> Result<(), NoMemory>
        requires { is_ready self.old }
        ensures ready { OnOk result (is_ready self.new) }
        ensures done { OnOk result (has_done place (Event.Cancel number) self.old self.new) };

    /// Tells of the line with this number that it can't be read.
    fn tell_bad(&mut self, rt: &R, place: usize, line: u64) -> Result<(), NoMemory>
        requires { is_ready self.old }
        ensures ready { OnOk result (is_ready self.new) }
        ensures done { OnOk result (has_done place (Event.Bad line) self.old self.new) };
}
