// What a journal says.
ghost use Rattle.std.specs.Prelude.{◌≡◌, ◌==◌, ◌||◌, Some};
ghost use Rattle.std.specs.List.{list_any, position_from};
ghost use Rattle.std.specs.Str.{bytes_eq};
ghost use Rattle.serve_journal.specs.Journal.{nothing, after_entry, with_gateway, with_device, with_new_device, at_gateway};
ghost use Rattle.serve_journal.specs.Journal.{at_device, queued, without_head, clocked, sent};
ghost use Rattle.serve_journal.specs.Steps.{Steps};

use crate::fault::EntryFault;
use crate::{Entry, JournalDevice, JournalGateway, Payload};
use gateway_book::Ask;
use std::alloc::Allocator;
use std::marker::Model;

/// The greatest number of gateways.
const MOST_GATEWAYS: usize = 64;

/// The greatest number of devices.
const MOST_DEVICES: usize = 1024;

/// What a journal says of the gateways and the devices of a server.
#[derive(Drop)]
pub struct JournalState<A: Allocator + Clone> {
    /// The gateways, at most 64, in the order in which the journal tells them first.
    pub gateways: Vec<JournalGateway<A>, A>,
    /// The devices, at most 1,024, in the order in which the journal tells them first.
    pub devices: Vec<JournalDevice<A>, A>,
}

impl<A: Allocator + Clone> Model for JournalState<A> {
    ghost use Rattle.serve_journal.specs.Journal.{Journal};

    ghost Value = { Journal };

    ghost view = { λ s. record { gateways = s.gateways.items; devices = s.devices.items } };
}

impl<A: Allocator + Copy> JournalState<A> {
    /// Of a server that was never run; takes no memory.
    pub fn new(alloc: A) -> Self
        ensures { result ≡ nothing }
    {
        JournalState {
            gateways: Vec::new(alloc),
            devices: Vec::new(alloc),
        }
    }

    /// Takes what a line says in, if it can be beside what the lines before it said.
    pub(crate) fn take(&mut self, entry: Entry) -> Result<(), EntryFault>
        ensures { Steps (after_entry self.old entry) self.new result }
    {
        match entry {
            Entry::Gateway { id, eui, cap, gap } => self.add_gateway(id, eui, cap, gap),
            Entry::Device {
                addr,
                session,
                up,
                down,
            } => self.set_device(addr, session, up, down),
            Entry::Queue { addr, payload } => self.push(addr, payload),
            Entry::Taken { addr } => self.drop_head(addr),
            Entry::Clock { id, high, floor } => self.clock(id, high, floor),
            Entry::Sent {
                id,
                start,
                freq_hz,
                rate,
                len,
            } => self.book(
                id,
                Ask {
                    number: 0,
                    start,
                    freq_hz,
                    rate,
                    len,
                },
            ),
        }
    }

    /// A gateway joins, with an empty book.
    fn add_gateway(&mut self, id: u16, eui: [u8; 8], cap: u32, gap: u32) -> Result<(), EntryFault>
        ensures { Steps (with_gateway id eui (record { cap = cap; gap = gap }) self.old) self.new result }
    {
        if self.has_named(id, &eui) || self.gateways.len() >= MOST_GATEWAYS {
            return Err(EntryFault::Refused);
        }
        let alloc = *self.gateways.allocator();
        let Some(gateway) = JournalGateway::new(alloc, id, eui, cap, gap) else {
            return Err(EntryFault::Refused);
        };
        match self.gateways.push(gateway) {
            Ok(()) => Ok(()),
            Err(_) => Err(EntryFault::NoMemory),
        }
    }

    /// A device's counters are told: it joins where it isn't there.
    fn set_device(
        &mut self,
        addr: u32,
        session: [u8; 4],
        up: Option<u32>,
        down: u64,
    ) -> Result<(), EntryFault>
        ensures { Steps (with_device addr session up down self.old) self.new result }
    {
        match self.device_place(addr) {
            Some(place) => {
                self.devices[place].set(session, up, down);
                Ok(())
            }
            None => self.add_device(addr, session, up, down),
        }
    }

    /// A device that isn't there joins.
    fn add_device(
        &mut self,
        addr: u32,
        session: [u8; 4],
        up: Option<u32>,
        down: u64,
    ) -> Result<(), EntryFault>
        ensures { Steps (with_new_device addr session up down self.old) self.new result }
    {
        if self.devices.len() >= MOST_DEVICES {
            return Err(EntryFault::Refused);
        }
        let alloc = *self.devices.allocator();
        match self
            .devices
            .push(JournalDevice::new(alloc, addr, session, up, down))
        {
            Ok(()) => Ok(()),
            Err(_) => Err(EntryFault::NoMemory),
        }
    }

    /// A payload waits for a device.
    fn push(&mut self, addr: u32, payload: Payload) -> Result<(), EntryFault>
        ensures { Steps (at_device addr (queued payload) self.old) self.new result }
    {
        match self.device_place(addr) {
            Some(place) => self.devices[place].push(payload),
            None => Err(EntryFault::Refused),
        }
    }

    /// The head of a device's queue went along.
    fn drop_head(&mut self, addr: u32) -> Result<(), EntryFault>
        ensures { Steps (at_device addr (λ n. without_head n.queue n) self.old) self.new result }
    {
        match self.device_place(addr) {
            Some(place) => self.devices[place].drop_head(),
            None => Err(EntryFault::Refused),
        }
    }

    /// A gateway's clock and floor are told.
    fn clock(&mut self, id: u16, high: u64, floor: u64) -> Result<(), EntryFault>
        ensures { Steps (at_gateway id (λ m. Some (clocked high floor m)) self.old) self.new result }
    {
        match self.gateway_place(id) {
            Some(place) => {
                self.gateways[place].clock(high, floor);
                Ok(())
            }
            None => Err(EntryFault::Refused),
        }
    }

    /// A gateway's book books what was sent.
    fn book(&mut self, id: u16, ask: Ask) -> Result<(), EntryFault>
        ensures { Steps (at_gateway id (sent ask) self.old) self.new result }
    {
        match self.gateway_place(id) {
            Some(place) => self.gateways[place].book(ask),
            None => Err(EntryFault::Refused),
        }
    }
}

impl<A: Allocator + Clone> JournalState<A> {
    /// Whether a gateway has this number or this EUI.
    fn has_named(&self, id: u16, eui: &[u8; 8]) -> bool
        ensures { result ≡ list_any (λ m. (m.id == id) || bytes_eq m.eui eui.now) self.now.gateways }
    {
        self.gateways
            .iter()
            .any(|gateway| gateway.is_named(id, eui))
    }

    /// The place of the gateway with this number.
    fn gateway_place(&self, id: u16) -> Option<usize>
        ensures { result ≡ position_from (λ m. m.id == id) 0 self.now.gateways }
    {
        self.gateways
            .iter()
            .position(|gateway| gateway.is_numbered(id))
    }

    /// The place of the device with this address.
    fn device_place(&self, addr: u32) -> Option<usize>
        ensures { result ≡ position_from (λ n. n.addr == addr) 0 self.now.devices }
    {
        self.devices.iter().position(|device| device.is_at(addr))
    }
}
