// A device as a journal tells it.
ghost use Rattle.std.specs.Prelude.{◌≡◌, ◌==◌, []};
ghost use Rattle.serve_journal.specs.Journal.{queued, told, without_head};
ghost use Rattle.serve_journal.specs.Renewal.{device_entry};
ghost use Rattle.serve_journal.specs.Steps.{Steps};

use crate::fault::EntryFault;
use crate::{Entry, Payload};
use std::alloc::Allocator;
use std::marker::Model;

/// The greatest number of payloads that wait for a device.
const MOST_QUEUED: usize = 16;

/// A device as a journal tells it.
#[derive(Drop)]
pub struct JournalDevice<A: Allocator> {
    /// DevAddr.
    pub addr: u32,
    /// What tells its session from others of the same address (`session_of`).
    pub session: [u8; 4],
    /// The last uplink counter, if there was an uplink.
    pub up: Option<u32>,
    /// The next downlink counter, 2^32 where all were given.
    pub down: u64,
    /// The payloads that wait, at most 16, in the order in which they came.
    pub queue: Vec<Payload, A>,
}

impl<A: Allocator> Model for JournalDevice<A> {
    ghost use Rattle.serve_journal.specs.Journal.{Node};

    ghost Value = { Node };

    ghost view = { λ d. record {
      addr = d.addr;
      session = d.session;
      up = d.up;
      down = d.down;
      queue = d.queue.items;
    } };
}

impl<A: Allocator> JournalDevice<A> {
    /// A device for which nothing waits; takes no memory.
    pub(crate) fn new(alloc: A, addr: u32, session: [u8; 4], up: Option<u32>, down: u64) -> Self
        ensures { result ≡ record { addr = addr; session = session; up = up; down = down; queue = [] } }
    {
        JournalDevice {
            addr,
            session,
            up,
            down,
            queue: Vec::new(alloc),
        }
    }

    /// Whether this is its address.
    pub(crate) fn is_at(&self, addr: u32) -> bool
        ensures { result ≡ (self.now.addr == addr) }
    {
        self.addr == addr
    }

    /// Its session and its counters are these.
    pub(crate) fn set(&mut self, session: [u8; 4], up: Option<u32>, down: u64)
        ensures { self.new ≡ told session up down self.old }
    {
        self.session = session;
        self.up = up;
        self.down = down;
    }

    /// Puts a payload behind the others.
    pub(crate) fn push(&mut self, payload: Payload) -> Result<(), EntryFault>
        ensures { Steps (queued payload self.old) self.new result }
    {
        if self.queue.len() >= MOST_QUEUED {
            return Err(EntryFault::Refused);
        }
        match self.queue.push(payload) {
            Ok(()) => Ok(()),
            Err(_) => Err(EntryFault::NoMemory),
        }
    }

    /// Takes the first payload away.
    pub(crate) fn drop_head(&mut self) -> Result<(), EntryFault>
        ensures { Steps (without_head self.old.queue self.old) self.new result }
    {
        if self.queue.is_empty() {
            return Err(EntryFault::Refused);
        }
        self.queue.remove(0);
        Ok(())
    }

    /// The line by which it joins a journal.
    pub(crate) fn entry(&self) -> Entry
        ensures { result ≡ device_entry self.now }
    {
        Entry::Device {
            addr: self.addr,
            session: self.session,
            up: self.up,
            down: self.down,
        }
    }
}
