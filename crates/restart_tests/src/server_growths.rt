// What a server opens with, its journal that is written anew, and an answer that it sends, with each growth refused in turn.
ghost use Rattle.serve_turns.specs.Turn.{IsBetweenTurns};

use crate::control::WAITS_LATER;
use crate::hosts::{Deed, Noting};
use crate::restarts::WAITING;
use crate::servers::{SET, is_played, opened, resumed, settings, state_in};
use crate::turns::{ANSWERED, HEARD_ONCE, HEARD_TWICE};
use refusing_alloc::{Call, Refuser, Refusing, growths_of, refuse, same, was_refused};
use serve_downlinks::add_entry;
use serve_journal::Entry;
use serve_opening::{OpeningFault, opening_of};
use serve_turns::{Serving, resumed_forwarders};
use server_core::Settings;
use std::alloc::{Allocator, Global};
use std::test::Fail;
use test_asserts::holds;
use worked_inputs::{ADDR, WorkedHasher, hasher};

/// The journal of a server with other gateways and devices: its gateway 7 has the EUI of gateway 2.
const OF_OTHERS: &str = "airbook journal 1
gateway 7 aa555a0000000002 4096 45000
gateway 2 aa555a0000000003 4096 45000
device 26011bda 5c7efb43 7 1
device 26011bdb 00000000 7 1
queue 26011bda 9 0102
queue 26011bdb 9 0304
sent 7 1001100 868100000 5 12
clock 7 2200981 601001
.
";

/// What a server with these settings opens with. With all growths refused that follow one: a list whose growth is refused tries a
/// smaller one.
#[derive(Drop)]
struct Opens<'r>(&'r Settings<Global>);

impl Call for Opens<'_> {
    fn is_refused(&mut self, alloc: &Refuser, number: u64) -> Result<bool, Fail> {
        let state = state_in(alloc, Some(OF_OTHERS.as_bytes()))?;
        refuse(alloc, (number, true));
        let notes = opening_of(alloc, self.0, &SET, state).map(|opening| opening.notes.len());
        let is_starved = notes == Err(OpeningFault::NoMemory);
        let again = was_refused(alloc, number, is_starved, true)?;
        if !is_starved {
            same(notes, Ok(2))?;
        }
        Ok(again)
    }
}

// Refuses `serve_opening` `opening_of`: 1 for each list, that of `GatewayBook::list` for a book of the journal, and for one with
// another number once more that, and those of `GatewayBook::trial`; 12 for two gateways, one of them with another number.
#[test]
fn growths_of_an_opening(rt: HostRuntime) -> Result<(), Fail> {
    let settings = settings(rt.alloc())?;
    let alloc = &Refusing::new(rt.alloc());
    same(growths_of(alloc, &mut Opens(&settings))?, 12)
}

/// The packet forwarders of these settings.
#[derive(Drop)]
struct Matches<'r>(&'r Settings<Global>);

impl Call for Matches<'_> {
    fn is_refused(&mut self, alloc: &Refuser, number: u64) -> Result<bool, Fail> {
        alloc.refuse(number);
        let made = resumed_forwarders(alloc, self.0.gateways(), &SET, &[7, 8]);
        let count = made.ok().map(|forwarders| forwarders.len());
        let again = was_refused(alloc, number, count.is_none(), false)?;
        if !again {
            same(count, Some(2))?;
        }
        Ok(again)
    }
}

// Refuses `serve_turns` `resumed_forwarders`: 2, a list each.
#[test]
fn growths_of_resumed_forwarders(rt: HostRuntime) -> Result<(), Fail> {
    let settings = settings(rt.alloc())?;
    let alloc = &Refusing::new(rt.alloc());
    same(growths_of(alloc, &mut Matches(&settings))?, 2)
}

/// A server with these settings that goes on with a journal; with growths refused as there.
#[derive(Drop)]
struct Resumes<'r>(&'r Settings<Global>);

impl Call for Resumes<'_> {
    fn is_refused(&mut self, alloc: &Refuser, number: u64) -> Result<bool, Fail> {
        let (settings, resumed) = resumed(alloc, self.0, Some(WAITING.as_bytes()))?;
        refuse(alloc, (number, true));
        let is_starved = Serving::resumed(alloc, hasher(), &settings, resumed).is_err();
        was_refused(alloc, number, is_starved, true)
    }
}

// Refuses `serve_turns` `Serving::resumed`: those of `Server::resumed` and `Forwarders::resumed`, and those of `Server::event` for
// what waits; 14 for one payload.
#[test]
fn growths_of_a_resumed_server(rt: HostRuntime) -> Result<(), Fail> {
    let settings = settings(rt.alloc())?;
    let alloc = &Refusing::new(rt.alloc());
    same(growths_of(alloc, &mut Resumes(&settings))?, 14)
}

/// The journal of a server with these settings, in its place.
#[derive(Drop)]
struct Renews<'r>(&'r Settings<Global>, Global);

impl Call for Renews<'_> {
    fn is_refused(&mut self, alloc: &Refuser, number: u64) -> Result<bool, Fail> {
        let mut serving = opened(alloc, self.0, Some(WAITING.as_bytes()))?;
        is_unwritten(&mut serving, self.1, (alloc, number))
    }
}

/// Whether a server doesn't write its journal anew, with this growth refused; it asks for nothing then.
fn is_unwritten<A: Allocator + Copy>(
    serving: &mut Serving<WorkedHasher, A>,
    memory: Global,
    refused: (&Refuser, u64),
) -> Result<bool, Fail>
    requires { IsBetweenTurns serving.old }
{
    let (refuser, number) = refused;
    let mut host = Noting::new(memory, 0, None, None);
    refuser.refuse(number);
    let is_starved = serving.renew(&mut host, 0).is_err();
    let again = was_refused(refuser, number, is_starved, false)?;
    if again {
        host.was_asked(&[])?;
    } else {
        host.was_asked(&[(Deed::Replace, 0, b"", WAITING)])?;
    }
    Ok(again)
}

// Refuses `serve_renewal` `renewal_of`: by size, those of its text; 4 for 218 bytes.
// Refuses `serve_turns` `Serving::renew`: those of `renewal_of`.
#[test]
fn growths_of_a_journal_that_is_put_in_place(rt: HostRuntime) -> Result<(), Fail> {
    let settings = settings(rt.alloc())?;
    let alloc = &Refusing::new(rt.alloc());
    same(growths_of(alloc, &mut Renews(&settings, rt.alloc()))?, 4)
}

/// The turns of a server with these settings in which it sends an answer, and a payload waits; with growths refused as there.
#[derive(Drop)]
struct Sends<'r>(&'r Settings<Global>, Global);

impl Sends<'_> {
    /// Whether a server makes them, with this growth refused and all that follow, once its journal is in its place.
    fn is_sent<A: Allocator + Copy>(
        &self,
        serving: &mut Serving<WorkedHasher, A>,
        refused: (&Refuser, u64),
    ) -> Result<bool, Fail>
        requires { IsBetweenTurns serving.old }
    {
        let mut host = Noting::new(self.1, 0, None, None);
        holds(serving.renew(&mut host, 0)?)?;
        refuse(refused.0, (refused.1, true));
        Ok(
            is_played(self.1, serving, &HEARD_ONCE)?
                && is_played(self.1, serving, &HEARD_TWICE)?
                && is_played(self.1, serving, &ANSWERED)?
                && is_played(self.1, serving, &WAITS_LATER)?,
        )
    }
}

impl Call for Sends<'_> {
    fn is_refused(&mut self, alloc: &Refuser, number: u64) -> Result<bool, Fail> {
        let mut serving = opened(alloc, self.0, None)?;
        let is_starved = !self.is_sent(&mut serving, (alloc, number))?;
        was_refused(alloc, number, is_starved, true)
    }
}

/// A server that keeps a journal stops too where a growth is refused, and has asked for nothing out of order.
#[test]
fn growths_of_an_answer_and_a_payload(rt: HostRuntime) -> Result<(), Fail> {
    let settings = settings(rt.alloc())?;
    let alloc = &Refusing::new(rt.alloc());
    same(growths_of(alloc, &mut Sends(&settings, rt.alloc()))?, 94)
}

/// A line of a journal.
#[derive(Drop)]
struct Adds;

impl Call for Adds {
    fn is_refused(&mut self, alloc: &Refuser, number: u64) -> Result<bool, Fail> {
        let mut batch = Vec::new(alloc);
        alloc.refuse(number);
        let is_starved = add_entry(&mut batch, &Entry::Taken { addr: ADDR }).is_err();
        let again = was_refused(alloc, number, is_starved, false)?;
        let wanted: &[u8] = if again { b"" } else { b"taken 26011bda\n" };
        same(batch.as_slice(), wanted)?;
        Ok(again)
    }
}

// Refuses `serve_downlinks` `add_entry`: 0 or 1, by size.
#[test]
fn growths_of_a_line(rt: HostRuntime) -> Result<(), Fail> {
    same(growths_of(&Refusing::new(rt.alloc()), &mut Adds)?, 1)
}
