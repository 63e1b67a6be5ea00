// A gateway as a journal tells it.
ghost use Rattle.std.specs.Prelude.{◌≡◌, ◌==◌, ◌||◌};
ghost use Rattle.std.specs.Str.{bytes_eq};
ghost use Rattle.serve_journal.specs.Journal.{clocked, new_mast, sent};
ghost use Rattle.serve_journal.specs.Renewal.{gateway_entry, clock_entry};
ghost use Rattle.serve_journal.specs.Steps.{Steps};

use crate::Entry;
use crate::fault::EntryFault;
use gateway_book::{Ask, GatewayBook, Refusal};
use resv_tree::TreeRoster;
use std::alloc::Allocator;
use std::marker::Model;

/// What the clock of a gateway shows at least of which nothing else is known, in microseconds.
const FIRST_HIGH: u64 = 2_000_000;

/// A gateway as a journal tells it.
#[derive(Drop)]
pub struct JournalGateway<A: Allocator + Clone> {
    /// Its number in the settings.
    pub id: u16,
    /// Its EUI, the most significant byte first.
    pub eui: [u8; 8],
    /// What its clock shows at least, in microseconds.
    pub high: u64,
    /// Its book.
    pub book: GatewayBook<TreeRoster<A>>,
}

impl<A: Allocator + Clone> Model for JournalGateway<A> {
    ghost use Rattle.serve_journal.specs.Journal.{Mast};

    ghost Value = { Mast };

    ghost view = { λ g. record { id = g.id; eui = g.eui; high = g.high; book = g.book } };
}

impl<A: Allocator + Clone> JournalGateway<A> {
    /// A gateway of which nothing else is known, with an empty book. None where the cap or the gap is outside its range.
    pub(crate) fn new(alloc: A, id: u16, eui: [u8; 8], cap: u32, gap: u32) -> Option<Self>
        ensures { result ≡ new_mast id eui (record { cap = cap; gap = gap }) }
    {
        let Ok(book) = GatewayBook::new(TreeRoster::new(alloc), id, cap, gap) else {
            return None;
        };
        Some(JournalGateway {
            id,
            eui,
            high: FIRST_HIGH,
            book,
        })
    }

    /// Whether this is its number.
    pub(crate) fn is_numbered(&self, id: u16) -> bool
        ensures { result ≡ (self.now.id == id) }
    {
        self.id == id
    }

    /// Whether this is its number, or this its EUI.
    pub(crate) fn is_named(&self, id: u16, eui: &[u8; 8]) -> bool
        ensures { result ≡ ((self.now.id == id) || bytes_eq self.now.eui eui.now) }
    {
        self.id == id || self.eui.as_slice() == eui.as_slice()
    }

    /// What its clock shows at least, and the floor of its book, both in microseconds, are these.
    pub(crate) fn clock(&mut self, high: u64, floor: u64)
        ensures { self.new ≡ clocked high floor self.old }
    {
        self.high = high;
        self.book.tick(floor);
    }

    /// Its book books what was sent.
    pub(crate) fn book(&mut self, ask: Ask) -> Result<(), EntryFault>
        ensures { Steps (sent ask self.old) self.new result }
    {
        match self.book.book(ask) {
            Ok(_) => Ok(()),
            Err(Refusal::NoMemory) => Err(EntryFault::NoMemory),
            Err(_) => Err(EntryFault::Refused),
        }
    }

    /// The line by which it joins a journal.
    pub(crate) fn entry(&self) -> Entry
        ensures { result ≡ gateway_entry self.now }
    {
        Entry::Gateway {
            id: self.id,
            eui: self.eui,
            cap: self.book.cap(),
            gap: self.book.gap(),
        }
    }

    /// The line of its clock and its floor.
    pub(crate) fn clock_entry(&self) -> Entry
        ensures { result ≡ clock_entry self.now }
    {
        Entry::Clock {
            id: self.id,
            high: self.high,
            floor: self.book.totals().floor,
        }
    }
}
