// A server that packet forwarders are pointed at: what it keeps, and what it opens with.
ghost use Rattle.std.specs.Prelude.{◌≡◌, ◌≤◌, ◌^◌, [], All, IfOk, OnOk};
ghost use Rattle.server_core.specs.Opened.{AreBooksFor};
ghost use Rattle.serve_turns.specs.Life.{Makes, IsReady};
ghost use Rattle.serve_turns.specs.Turn.{IsBetweenTurns};
ghost use Rattle.serve_turns.specs.Opening.{IsOpened, IsOpenedBy, IsResumed, no_counts};
ghost use Rattle.serve_turns.specs.Queues.{after_queue, after_queues, queue_event};

use crate::answerer::Answerer;
use crate::by_gateway::forwarders_of;
use crate::keeping::Keeping;
use crate::new_desk::LIMITS;
use answer_ticket::Bytes;
use forwarder_sessions::{Forwarder, Forwarders, NoMemory};
use json::Scratch;
use run_lines::UplinkCounts;
use serve_journal::Payload;
use serve_settings::ServeSettings;
use server_core::{Book, Event, Server, Settings, empty_books};
use std::alloc::Allocator;
use std::hash::BuildHasher;
use text_lines::StdOut;

/// A server that packet forwarders are pointed at. It gathers at most 4,096 uplinks at a time, and 64 copies of one. Its memory is
/// that of some 32,800 uplinks at most: then its desk is made anew.
#[derive(Drop)]
pub struct Serving<S: BuildHasher, A: Allocator + Copy> {
    pub(crate) answerer: Answerer<S, A>,
    /// Room for the reader of JSON.
    pub(crate) scratch: Scratch<A>,
    /// Each desk looks up devices and uplinks through clones of it.
    pub(crate) hasher: S,
}

/// What a server opens with that keeps a journal.
#[derive(Drop)]
pub struct Resumed<A: Allocator + Copy> {
    /// The books of the settings' gateways, in their order. What they hold stays booked.
    pub books: Vec<Book<A>, A>,
    /// The packet forwarders, each with what its gateway's clock shows at least, in microseconds and at most 2^60. The gateways are
    /// ticked in this order.
    pub forwarders: Vec<(Forwarder, u64), A>,
    /// What tells each device's session from others of the same address, by DevAddr: one for each device of the settings. A device
    /// without one has no line in the journal.
    pub sessions: Vec<(u32, [u8; 4]), A>,
    /// What waits, in order, each payload with the DevAddr of its device.
    pub waiting: Vec<(u32, Payload), A>,
}

impl<S: BuildHasher + Clone, A: Allocator + Copy> Serving<S, A> {
    /// A server with settings that were read, which has heard nothing, on empty books. It keeps no journal, and sends no downlink. It
    /// ticks its gateways by their numbers. Devices and uplinks are looked up through clones of this hasher. Err(NoMemory)
    /// where a growth was refused.
    pub fn open(alloc: A, hasher: S, read: &ServeSettings) -> Result<Self, NoMemory>
        ensures { IfOk result (IsOpenedBy read.now.settings read.now.forwarders.items) }
    {
        let forwarders = forwarders_of(alloc, read.settings.gateways(), &read.forwarders)?;
        Serving::new(alloc, hasher, &read.settings, &forwarders)
    }

    /// A server with these settings and these packet forwarders that has heard nothing, on empty books. It keeps no journal, and
    /// sends no downlink. Its gateways are ticked in the order of the packet forwarders. Devices and uplinks are looked up through
    /// clones of this hasher. Err(NoMemory) where a growth was refused.
    pub fn new<B: Allocator>(
        alloc: A,
        hasher: S,
        settings: &Settings<B>,
        forwarders: &[Forwarder],
    ) -> Result<Self, NoMemory>
        ensures { IfOk result (λ serving. IsOpened settings.now forwarders.now serving) }
    {
        let books = empty_books(alloc, settings)?;
        let server = Server::resumed(alloc, hasher.clone()?, settings, LIMITS, books)?;
        let set = copy_of(alloc, settings)?;
        let forwarders = Forwarders::new(alloc, forwarders)?;
        Ok(Serving::of(alloc, hasher, server, set, forwarders, None))
    }

    /// A server with these settings that goes on with what a journal says. It has heard nothing yet. Its journal is still to be
    /// written (`renew`): until then it sends no downlink. Devices and uplinks are looked up through clones of this hasher.
    /// Err(NoMemory) where a growth was refused.
    pub fn resumed<B: Allocator>(
        alloc: A,
        hasher: S,
        settings: &Settings<B>,
        resumed: Resumed<A>,
    ) -> Result<Self, NoMemory>
        requires books { AreBooksFor settings.now.gateways resumed.books.items }
        requires early { All (λ f. f.1 ≤ 2 ^ 60) resumed.forwarders.items }
        ensures resumed { IfOk result (λ serving. IsResumed settings.now resumed.books.items resumed.forwarders.items
            resumed.sessions.items resumed.waiting.items serving) }
        ensures between { IfOk result (λ serving. IsBetweenTurns serving) }
    {
        let server = Server::resumed(alloc, hasher.clone()?, settings, LIMITS, resumed.books)?;
        let set = copy_of(alloc, settings)?;
        let forwarders = Forwarders::resumed(alloc, &resumed.forwarders)?;
        let keeping = Some(Keeping::new(resumed.sessions));
        let mut serving = Serving::of(alloc, hasher, server, set, forwarders, keeping);
        serving.answerer.queue_all(resumed.waiting)?;
        Ok(serving)
    }

    /// A server that has told nothing. Takes no memory.
    fn of(
        alloc: A,
        hasher: S,
        server: Server<S, A>,
        settings: Settings<A>,
        forwarders: Forwarders<A>,
        keeping: Option<Keeping<A>>,
    ) -> Self
        ensures server { result.answerer.server ≡ server }
        ensures settings { result.answerer.settings ≡ settings }
        ensures forwarders { result.answerer.forwarders ≡ forwarders }
        ensures keeping { result.answerer.keeping ≡ keeping }
        ensures drops { result.answerer.drops.items ≡ [] }
        ensures told_at { result.answerer.told_at ≡ 0 }
        ensures counts { result.answerer.counts ≡ no_counts }
        ensures text { result.answerer.text.writer.items ≡ [] }
    {
        Serving {
            answerer: Answerer {
                alloc,
                server,
                settings,
                forwarders,
                keeping,
                drops: Vec::new(alloc),
                told_at: 0,
                counts: UplinkCounts {
                    sent: 0,
                    unanswered: 0,
                    silent: 0,
                },
                text: StdOut::new(Vec::new(alloc)),
            },
            scratch: Scratch::new(alloc),
            hasher,
        }
    }
}

impl<S: BuildHasher, A: Allocator + Copy> Answerer<S, A> {
    /// Queues payloads, each for the device with its address. Nothing is told.
    pub(crate) fn queue_all(&mut self, waiting: Vec<(u32, Payload), A>) -> Result<(), NoMemory>
        requires { IsReady self.old }
        ensures { OnOk result (Makes (after_queues A waiting.items) self.old self.new) }
    {
        for queued in waiting {
            self.queue(queued)?;
        }
        Ok(())
    }

    /// Queues one. Nothing is told.
    fn queue(&mut self, queued: (u32, Payload)) -> Result<(), NoMemory>
        requires { IsReady self.old }
        ensures { OnOk result (Makes (after_queue A queued) self.old self.new) }
    {
        let asked = queue_event(self.alloc, &queued)?;
        self.server.event(0, &asked)?;
        drop(self.server.take_lines(self.alloc));
        Ok(())
    }
}

/// A copy of these settings.
fn copy_of<A: Allocator + Copy, B: Allocator>(
    alloc: A,
    settings: &Settings<B>,
) -> Result<Settings<A>, NoMemory>
    ensures { IfOk result (λ copy. copy ≡ settings.now) }
{
    let gateways = Vec::from_slice(alloc, settings.gateways())?;
    let devices = Vec::from_slice(alloc, settings.devices())?;
    match Settings::new(gateways, devices) {
        Ok(copy) => Ok(copy),
        Err(_) => unreachable!(),
    }
}

/// The event that a payload is queued.
fn queue_event<A: Allocator + Copy>(alloc: A, queued: &(u32, Payload)) -> Result<Event<A>, NoMemory>
    ensures { IfOk result (λ event. event ≡ queue_event queued.now) }
{
    let (addr, payload) = queued;
    Ok(Event::Queue {
        addr: *addr,
        port: payload.port(),
        payload: Bytes::new(Vec::from_slice(alloc, payload.as_slice())?),
    })
}
