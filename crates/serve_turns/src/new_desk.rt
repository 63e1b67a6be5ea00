// A server's desk is made anew, since it keeps each uplink that it ever gathered.
ghost use Rattle.std.specs.Prelude.{◌≡◌, ◌++◌, ◌-◌, ◌^◌, map, is_some, IfOk, IfSome, OnOk};
ghost use Rattle.std.specs.List.{flat_map};
ghost use Rattle.server_core.specs.Opened.{AreBooksFor};
ghost use Rattle.server_core.specs.Server.{seen};
ghost use Rattle.server_desk.specs.Passing.{pass_answer};
ghost use Rattle.serve_renewal.specs.State.{waiting_of};
ghost use Rattle.serve_turns.specs.Life.{Life, IsAlive, IsReady, Makes};
ghost use Rattle.serve_turns.specs.NewDesk.{accepted, after_desk, all_waiting, is_spent, set_as_book, set_now, set_with, settings_now, HasNewDesk};

use crate::answerer::Answerer;
use answer_ticket::Bytes;
use forwarder_sessions::NoMemory;
use serve_journal::Payload;
use server_core::{Book, DeviceSetting, GatewaySetting, Limits, Server, Settings, empty_books};
use std::alloc::Allocator;
use std::hash::BuildHasher;
use std::mem::replace;

/// How many uplinks a desk gathers at a time, and in all, and how many copies of one. A PULL_RESP's token has 16 bits: so each number
/// of a desk has one of its own.
pub(crate) const LIMITS: Limits = Limits {
    max_open: 4_096,
    max_ever: 65_535,
    max_copies: 64,
};

/// After so many uplinks a desk is made anew.
const MOST_NUMBERS: u64 = 32_768;

impl<S: BuildHasher + Clone + Drop, A: Allocator + Copy> Answerer<S, A> {
    /// Makes the desk anew, on the books as they are, once it has gathered 32,768 uplinks, and none is left to be answered. Devices keep
    /// their counters and what waits for them. Nothing is told. The new desk looks up devices and uplinks through clones of this hasher.
    pub(crate) fn renew_desk_if_due(&mut self, hasher: &S) -> Result<(), NoMemory>
        requires { IsReady self.old }
        ensures { OnOk result (Makes (after_desk A) self.old self.new) }
    {
        if !self.is_spent() {
            return Ok(());
        }
        if self.has_open() {
            return Ok(());
        }
        let Some(settings) = self.settings_now()? else {
            return Ok(());
        };
        self.renew_desk(hasher, &settings)
    }

    /// Makes the desk anew with these settings.
    fn renew_desk(&mut self, hasher: &S, settings: &Settings<A>) -> Result<(), NoMemory>
        requires ready { IsReady self.old }
        requires books { AreBooksFor settings.now.gateways (seen self.old.server).books }
        ensures { OnOk result (HasNewDesk settings.now self.old self.new) }
    {
        let waiting = self.waiting_now()?;
        // A desk that nobody uses stands in the place of the old one while that gives up its books.
        let empty = empty_books(self.alloc, settings)?;
        let unused = Server::resumed(self.alloc, hasher.clone()?, settings, LIMITS, empty)?;
        let books = replace(&mut self.server, unused).into_books();
        self.server = Server::resumed(self.alloc, hasher.clone()?, settings, LIMITS, books)?;
        self.forwarders.renumber();
        self.queue_all(waiting)
    }
}

impl<S: BuildHasher, A: Allocator + Copy> Answerer<S, A> {
    /// Whether the desk has gathered so many uplinks that it is to be made anew.
    pub(crate) fn is_spent(&self) -> bool
        ensures { result ≡ is_spent self.now.forwarders.sessions.items }
    {
        self.forwarders
            .sessions()
            .iter()
            .any(|session| MOST_NUMBERS <= session.joined())
    }

    /// Whether an uplink is still to be answered.
    fn has_open(&self) -> bool
        ensures { result ≡ is_some (pass_answer (seen self.now.server).desk.reg (2 ^ 64 - 1)) }
    {
        self.server.is_due(u64::MAX)
    }

    /// What a desk is made anew of, beside the books and what waits; None where a server can't open with it.
    fn settings_now(&self) -> Result<Option<Settings<A>>, NoMemory>
        ensures now { IfOk result (λ settings. (l : Life) → IsAlive l self.now → settings ≡ accepted (settings_now l.world)) }
        ensures books { IfOk result (λ settings. IfSome settings
            (λ s. AreBooksFor s.gateways (seen self.now.server).books)) }
    {
        let gateways = gateways_of(self.alloc, self.server.books())?;
        let devices = self.devices_now()?;
        Ok(Settings::new(gateways, devices).ok())
    }

    /// The devices as they are set, with the counters that they have.
    fn devices_now(&self) -> Result<Vec<DeviceSetting, A>, NoMemory>
        ensures { IfOk result (λ devices. (l : Life) → IsAlive l self.now → devices.items ≡ map set_now l.world.reg.devices) }
    {
        let settings = self.settings.devices();
        let mut devices = Vec::with_capacity(self.alloc, settings.len())?;
        for setting in settings {
            devices.push(self.set_now(setting))?;
        }
        Ok(devices)
    }

    /// One of them.
    fn set_now(&self, setting: &DeviceSetting) -> DeviceSetting
        ensures { result ≡ set_with (seen self.now.server).desk.reg.devices setting.now }
    {
        match self.server.device(setting.addr) {
            None => *setting,
            Some(counters) => DeviceSetting {
                up: counters.up,
                down: counters.down,
                ..*setting
            },
        }
    }

    /// What waits, in order, each payload with the DevAddr of its device.
    fn waiting_now(&self) -> Result<Vec<(u32, Payload), A>, NoMemory>
        ensures { IfOk result (λ waiting. (l : Life) → IsAlive l self.now → waiting.items ≡ all_waiting l.world.reg.devices) }
    {
        let settings = self.settings.devices();
        let mut waiting = Vec::new(self.alloc);
        for setting in settings {
            add_waiting(
                &mut waiting,
                setting.addr,
                self.server.waiting(setting.addr),
            )?;
        }
        Ok(waiting)
    }
}

/// The gateways as the settings of a server have them, by their books.
fn gateways_of<A: Allocator + Copy>(
    alloc: A,
    books: &[Book<A>],
) -> Result<Vec<GatewaySetting, A>, NoMemory>
    ensures { IfOk result (λ gateways. gateways.items ≡ map set_as_book books.now) }
{
    let mut gateways = Vec::with_capacity(alloc, books.len())?;
    for book in books {
        gateways.push(GatewaySetting {
            id: book.id(),
            cap: book.cap(),
            gap: book.gap(),
        })?;
    }
    Ok(gateways)
}

/// Adds what waits for the device with this address.
fn add_waiting<A: Allocator>(
    waiting: &mut Vec<(u32, Payload), A>,
    addr: u32,
    queue: &[(u8, Bytes<A>)],
) -> Result<(), NoMemory>
    ensures { OnOk result (waiting.new.items ≡ waiting.old.items ++ map (λ q. (addr, q)) (flat_map waiting_of queue.now)) }
{
    for payload in queue {
        add_payload(waiting, addr, payload)?;
    }
    Ok(())
}

/// Adds one payload. A desk keeps none that `Payload` can't be.
fn add_payload<A: Allocator>(
    waiting: &mut Vec<(u32, Payload), A>,
    addr: u32,
    payload: &(u8, Bytes<A>),
) -> Result<(), NoMemory>
    ensures { OnOk result (waiting.new.items ≡ waiting.old.items ++ map (λ q. (addr, q)) (waiting_of payload.now)) }
{
    match Payload::new(payload.0, payload.1.as_slice()) {
        None => Ok(()),
        Some(payload) => Ok(waiting.push((addr, payload))?),
    }
}
