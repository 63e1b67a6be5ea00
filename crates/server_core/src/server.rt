// A server on one thread: what it keeps, and how it opens.

ghost use Rattle.std.specs.Prelude.{◌≡◌, ◌∷◌, [], map, is_some, None, IfOk, OnOk};
ghost use Rattle.std.specs.Option.{option_map};
ghost use Rattle.server_core.specs.Schedule.{step_of};
ghost use Rattle.server_core.specs.Steps.{Queue, Hear};
ghost use Rattle.server_core.specs.Server.{seen, with_step, with_lines, without_lines};
ghost use Rattle.server_core.specs.Opened.{AreBooksFor, IsOpened, resuming};
ghost use Rattle.server_desk.specs.Passing.{pass_answer};
ghost use Rattle.server_desk.specs.Register.{counters_of, device_with, waiting_for};
ghost use Rattle.server_desk.specs.UsualLimits.{usual_limits};
ghost use Rattle.server_desk.specs.World.{opening};

use crate::books::{empty_books, law_each_whole};
use crate::{
    Book, Counters, Desk, Entry, Heard1, Limits, Line, NoMemory, Settings, Step, USUAL_LIMITS,
};
use answer_ticket::Bytes;
use std::alloc::Allocator;
use std::hash::BuildHasher;
use std::mem::replace;

/// A server on one thread: what its desk knows, its gateways' books in the order of the settings, the steps that it
/// made, and the lines that it told.
#[derive(Drop)]
pub struct Server<S: BuildHasher, A: Allocator + Copy> {
    pub(crate) desk: Desk<S, A>,
    pub(crate) books: Vec<Book<A>, A>,
    /// None where nobody asks for them.
    pub(crate) steps: Option<Vec<Step<A>, A>>,
    pub(crate) outcomes: Vec<Entry<A>, A>,
}

impl<S: BuildHasher + Clone, A: Allocator + Copy> Server<S, A> {
    /// A server with these settings that has heard nothing, on these books, one for each gateway in the order of the
    /// settings: what they hold stays booked. It gathers no more than these limits allow, and keeps no steps. Devices and
    /// uplinks are looked up through this hasher and a clone of it. Err(NoMemory) where a growth was refused; the books are
    /// gone then.
    pub fn resumed<B: Allocator>(
        alloc: A,
        hasher: S,
        settings: &Settings<B>,
        limits: Limits,
        books: Vec<Book<A>, A>,
    ) -> Result<Self, NoMemory>
        requires { AreBooksFor settings.now.gateways books.items }
        ensures opens { IfOk result
            (λ server. IsOpened (resuming settings.now limits books.items) None (seen server)) }
        ensures books { IfOk result (λ server. (seen server).books ≡ books.items) }
    {
        Server::opened(alloc, hasher, settings, limits, books, None)
    }

    /// A server with these settings that has heard nothing, on empty books, with the usual limits. Its steps go behind these.
    pub(crate) fn new<B: Allocator>(
        alloc: A,
        hasher: S,
        settings: &Settings<B>,
        steps: Option<Vec<Step<A>, A>>,
    ) -> Result<Self, NoMemory>
        ensures { IfOk result (λ server. IsOpened (opening settings.now usual_limits)
            (option_map (λ kept. map step_of kept.items) steps) (seen server)) }
    {
        let books = empty_books(alloc, settings)?;
        Server::opened(alloc, hasher, settings, USUAL_LIMITS, books, steps)
    }

    /// A server with these settings that has heard nothing, on these books. Its steps go behind these.
    fn opened<B: Allocator>(
        alloc: A,
        hasher: S,
        settings: &Settings<B>,
        limits: Limits,
        books: Vec<Book<A>, A>,
        steps: Option<Vec<Step<A>, A>>,
    ) -> Result<Self, NoMemory>
        requires { AreBooksFor settings.now.gateways books.items }
        ensures opens { IfOk result (λ server. IsOpened (resuming settings.now limits books.items)
            (option_map (λ kept. map step_of kept.items) steps) (seen server)) }
        ensures books { IfOk result (λ server. (seen server).books ≡ books.items) }
    {
        law_each_whole(&books);
        let desk = Desk::new(alloc, hasher, settings, limits)?;
        Ok(Server {
            desk,
            books,
            steps,
            outcomes: Vec::new(alloc),
        })
    }
}

impl<S: BuildHasher, A: Allocator + Copy> Server<S, A> {
    /// The gateways' books, in the order of the settings.
    pub fn books(&self) -> &[Book<A>]
        ensures { result.now ≡ (seen self.now).books }
    {
        &self.books
    }

    /// Whether a gathering is due at `now`, in microseconds of the server's clock: exactly then an `Event::Pass` of that
    /// moment closes one. Takes no memory.
    pub fn is_due(&self, now: u64) -> bool
        ensures { result ≡ is_some (pass_answer (seen self.now).desk.reg now) }
    {
        self.desk.is_due(now)
    }

    /// The counters of the device with this address; `None` for an address that no device has. Takes no memory.
    pub fn device(&self, addr: u32) -> Option<Counters>
        ensures { result ≡ option_map (λ found. counters_of found.1) (device_with addr (seen self.now).desk.reg.devices) }
    {
        self.desk.device(addr)
    }

    /// The payloads that wait for the device with this address, FPort and FRMPayload of each, in the order in which they came;
    /// none for an address that no device has. Takes no memory.
    pub fn waiting(&self, addr: u32) -> &[(u8, Bytes<A>)]
        ensures { result.now ≡ waiting_for (device_with addr (seen self.now).desk.reg.devices) }
    {
        self.desk.waiting(addr)
    }

    /// The gateways' books, in the order of the settings; all else is let go. Takes no memory.
    pub fn into_books(self) -> Vec<Book<A>, A>
    where
        S: Drop,
        ensures { result.items ≡ (seen self).books }
    {
        self.books
    }

    /// Takes the lines out that were told and not taken out, in the order in which they were told. All else stays as it is.
    /// Takes no memory.
    pub fn take_lines(&mut self, alloc: A) -> Vec<Entry<A>, A>
        ensures taken { result.items ≡ (seen self.old).outcomes }
        ensures rest { seen self.new ≡ without_lines (seen self.old) }
    {
        replace(&mut self.outcomes, Vec::new(alloc))
    }
}

impl<S: BuildHasher, A: Allocator + Copy> Server<S, A> {
    /// Notes a step, where steps are kept.
    pub(crate) fn did(&mut self, step: Step<A>) -> Result<(), NoMemory>
        ensures { OnOk result (seen self.new ≡ with_step (step_of step) (seen self.old)) }
    {
        match &mut self.steps {
            Some(steps) => Ok(steps.push(step)?),
            None => Ok(()),
        }
    }

    /// Notes that a payload is queued.
    pub(crate) fn did_queue(&mut self, addr: u32, port: u8, payload: &[u8]) -> Result<(), NoMemory>
        ensures { OnOk result (seen self.new ≡ with_step (Queue addr (port, payload.now)) (seen self.old)) }
    {
        let Some(steps) = &mut self.steps else {
            return Ok(());
        };
        let payload = Bytes::new(Vec::from_slice(*steps.allocator(), payload)?);
        Ok(steps.push(Step::Queue {
            addr,
            port,
            payload,
        })?)
    }

    /// Notes that a copy of an uplink is heard.
    pub(crate) fn did_hear(
        &mut self,
        bytes: &[u8],
        heard: Heard1,
        arrived: u64,
    ) -> Result<(), NoMemory>
        ensures { OnOk result (seen self.new ≡ with_step (Hear bytes.now heard arrived) (seen self.old)) }
    {
        let Some(steps) = &mut self.steps else {
            return Ok(());
        };
        let bytes = Bytes::new(Vec::from_slice(*steps.allocator(), bytes)?);
        Ok(steps.push(Step::Hear {
            bytes,
            heard,
            arrived,
        })?)
    }

    /// Notes a line that answers the event at this place.
    pub(crate) fn told(&mut self, place: usize, line: Line<A>) -> Result<(), NoMemory>
        ensures { OnOk result (seen self.new ≡ with_lines place (line ∷ []) (seen self.old)) }
    {
        Ok(self.outcomes.push(Entry { event: place, line })?)
    }
}
