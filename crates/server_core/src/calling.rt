// The kinds of event at a server on one thread: all but `Pass` are one step each, or none.

ghost use Rattle.std.specs.Prelude.{OnOk};
ghost use Rattle.server_core.specs.Server.{seen, Does, IsBetweenCalls, IsCancelled};

use crate::books::place_of;
use crate::lines::{cancelled_line, heard_line, queued_line};
use crate::server::Server;
use crate::{Engine, Heard1, Line, NoMemory, Step};
use gateway_book::CancelFault;
use std::alloc::Allocator;
use std::hash::BuildHasher;

/// It waits by nothing.
impl<S: BuildHasher, A: Allocator + Copy> Engine<A, ()> for Server<S, A> {
    ghost is_ready = { λ server. IsBetweenCalls (seen server) };

    ghost has_done = { λ place e old new. Does place e (seen old) (seen new) };

    fn queue(
        &mut self,
        _rt: &(),
        place: usize,
        addr: u32,
        port: u8,
        payload: &[u8],
    ) -> Result<(), NoMemory> {
        self.did_queue(addr, port, payload)?;
        let answer = self.desk.queue(addr, port, payload);
        self.told(place, queued_line(addr, answer)?)
    }

    fn hear(
        &mut self,
        _rt: &(),
        place: usize,
        bytes: &[u8],
        heard: Heard1,
        arrived: u64,
    ) -> Result<(), NoMemory> {
        self.did_hear(bytes, heard, arrived)?;
        let answer = self.desk.hear(bytes, heard, arrived);
        self.told(place, heard_line(answer)?)
    }

    fn tick(&mut self, _rt: &(), place: usize, gateway: u16, now: u64) -> Result<(), NoMemory> {
        self.did(Step::Tick { gateway, now })?;
        let Some(at) = place_of(&self.books, gateway) else {
            return self.told(place, Line::NotTicked);
        };
        let book = &mut self.books[at];
        book.tick(now);
        let floor = book.totals().floor;
        self.told(place, Line::Floor { gateway, floor })
    }

    fn cancel(&mut self, _rt: &(), place: usize, number: u64) -> Result<(), NoMemory> {
        self.did(Step::Cancel { number })?;
        let answer = self.cancelled(number);
        self.told(place, cancelled_line(number, answer))
    }

    fn tell_bad(&mut self, _rt: &(), place: usize, line: u64) -> Result<(), NoMemory> {
        self.told(place, Line::Bad { line })
    }
}

impl<S: BuildHasher, A: Allocator + Copy> Server<S, A> {
    /// Takes what was booked for an uplink out of its gateway's book.
    fn cancelled(&mut self, number: u64) -> Result<u64, CancelFault>
        requires { IsBetweenCalls (seen self.old) }
        ensures { IsCancelled number (seen self.old) (seen self.new) result }
    {
        let Some(sent) = self.desk.sent(number) else {
            return Err(CancelFault::NotHere);
        };
        let Some(at) = place_of(&self.books, sent.gateway) else {
            return Err(CancelFault::NotHere);
        };
        self.books[at].cancel(number, sent.start)
    }
}
