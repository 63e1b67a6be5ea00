// The events, one after another.

ghost use Rattle.std.specs.Prelude.{◌≡◌, IfOk, OnOk, map};
ghost use Rattle.server_core.specs.Schedule.{schedule, step_of};
ghost use Rattle.server_core.specs.Entries.{entries, gateways_after, kept_gateway, gateway_of};
ghost use Rattle.server_core.specs.Server.{seen, Does, Makes, IsBetweenCalls, pass_whole};

use crate::server::Server;
use crate::{Answers, Event, NoMemory, Replay, Settings, Step, do_all_but_pass};
use std::alloc::Allocator;
use std::hash::BuildHasher;

/// Does on one thread what these events ask for, from a server that has heard nothing, with these settings. All
/// gatherings that are due at a `Pass` are closed one by one, the least number first; for each a ticket is taken, tried
/// until it is booked or refused to the last, and settled before the next is closed. At most 4,096 uplinks are gathered
/// at a time, 1,000,000 in all, and 64 copies of one. Devices and uplinks are looked up through this hasher and a clone
/// of it. Err(NoMemory) where a growth was refused.
pub fn replay<S: BuildHasher + Clone, A: Allocator + Copy, B: Allocator>(
    alloc: A,
    hasher: S,
    settings: &Settings<B>,
    events: &[Event<A>],
) -> Result<Replay<A>, NoMemory>
    ensures steps { IfOk result (λ r. map step_of r.steps.items ≡ schedule settings.now events.now) }
    ensures outcomes { IfOk result (λ r. r.outcomes.items ≡ entries settings.now events.now) }
    ensures books { IfOk result (λ r. map gateway_of r.books.items ≡ map kept_gateway (gateways_after settings.now events.now)) }
{
    let mut server = Server::new(alloc, hasher, settings, Some(Vec::new(alloc)))?;
    for (place, event) in events.iter().enumerate() {
        server.event(place, event)?;
    }
    let Server {
        desk: _,
        books,
        steps,
        outcomes,
    } = server;
    // They were asked for.
    let Some(steps) = steps else { unreachable!() };
    Ok(Replay {
        steps,
        outcomes,
        books,
    })
}

/// Does what `replay` does, and keeps neither steps nor events: each event is dropped once it is answered. Err(NoMemory)
/// where a growth was refused.
pub fn answer_events<S: BuildHasher + Clone, A: Allocator + Copy, B: Allocator>(
    alloc: A,
    hasher: S,
    settings: &Settings<B>,
    events: Vec<Event<A>, A>,
) -> Result<Answers<A>, NoMemory>
    ensures outcomes { IfOk result (λ r. r.outcomes.items ≡ entries settings.now events.items) }
    ensures books { IfOk result (λ r. map gateway_of r.books.items
        ≡ map kept_gateway (gateways_after settings.now events.items)) }
{
    let mut server = Server::new(alloc, hasher, settings, None)?;
    let mut place = 0;
    for event in events {
        server.use_up(place, event)?;
        place += 1;
    }
    let Server {
        desk: _,
        books,
        steps: _,
        outcomes,
    } = server;
    Ok(Answers { outcomes, books })
}

impl<S: BuildHasher, A: Allocator + Copy> Server<S, A> {
    /// Does what this event asks for: its lines go behind those that were told, each with this place. All gatherings that are
    /// due at a `Pass` are closed one by one, the least number first, and each is answered before the next is closed.
    /// Err(NoMemory) where a growth was refused; then the server may have done a part of it, and does no further event.
    pub fn event(&mut self, place: usize, event: &Event<A>) -> Result<(), NoMemory>
        requires { IsBetweenCalls (seen self.old) }
        ensures ready { OnOk result (IsBetweenCalls (seen self.new)) }
        ensures done { OnOk result (Does place event.now (seen self.old) (seen self.new)) }
    {
        match do_all_but_pass(self, &(), place, event)? {
            None => Ok(()),
            Some(now) => self.pass(place, now),
        }
    }

    /// Does what the event at this place asks for, and drops it.
    fn use_up(&mut self, place: usize, event: Event<A>) -> Result<(), NoMemory>
        requires { IsBetweenCalls (seen self.old) }
        ensures ready { OnOk result (IsBetweenCalls (seen self.new)) }
        ensures done { OnOk result (Does place event (seen self.old) (seen self.new)) }
    {
        self.event(place, &event)
    }

    /// Closes the gatherings that are due, the least number first, and answers each before it closes the next.
    fn pass(&mut self, place: usize, now: u64) -> Result<(), NoMemory>
        requires { IsBetweenCalls (seen self.old) }
        ensures ready { OnOk result (IsBetweenCalls (seen self.new)) }
        ensures made { OnOk result (Makes place (λ w. pass_whole w now) (seen self.old) (seen self.new)) }
    {
        while let Some(number) = self.desk.pass(now) {
            self.did(Step::Pass { now })?;
            self.answer(place, number)?;
        }
        // That nothing more is due is a step too.
        self.did(Step::Pass { now })
    }
}
