// A server's core, what it knows of the world around it, and what it told in a turn.
ghost use Rattle.std.specs.Prelude.{◌≡◌, ◌≤◌, ◌<◌, ◌^◌, length, map, slice_get, OnOk, IfOk, IfSome};
ghost use Rattle.std.specs.Option.{option_map};
ghost use Rattle.serve_turns.specs.Life.{AreAnswers, Makes, IsReady, after_event, after_copy, joining, number_in, refusal_of, dropping, saying_drops, telling};
ghost use Rattle.serve_turns.specs.Taking.{eui_at, session_lines};
ghost use Rattle.serve_turns.specs.Turn.{after_tick, ticking};

use crate::counts::count_more;
use crate::keeping::Keeping;
use crate::tally::{Tally, count_drop};
use crate::telling::{Text, put_drops, put_event, put_session};
use forwarder_sessions::{Forwarder, Forwarders, NoMemory, Placed};
use run_lines::{UplinkCounts, hear_name};
use server_core::{DeskFault, DeskHeard, Entry, Event, Line, Server, Settings};
use std::alloc::Allocator;
use std::hash::BuildHasher;

/// A server's core, what it knows of the packet forwarders and of its journal, what was dropped and not told yet, and the lines of
/// this turn.
#[derive(Drop)]
pub(crate) struct Answerer<S: BuildHasher, A: Allocator + Copy> {
    pub(crate) alloc: A,
    pub(crate) server: Server<S, A>,
    /// The settings of its first desk: those of a later one differ in the devices' counters alone.
    pub(crate) settings: Settings<A>,
    pub(crate) forwarders: Forwarders<A>,
    /// None where no journal is kept: then no downlink is sent.
    pub(crate) keeping: Option<Keeping<A>>,
    pub(crate) drops: Vec<Tally, A>,
    /// When it was last told what was dropped, in microseconds of the server's clock.
    pub(crate) told_at: u64,
    /// How many uplinks were answered.
    pub(crate) counts: UplinkCounts,
    pub(crate) text: Text<A>,
}

impl<S: BuildHasher, A: Allocator + Copy> Answerer<S, A> {
    /// Does what an event asks for, and tells its line and those that answer it, which are answered.
    pub(crate) fn event(&mut self, event: &Event<A>) -> Result<Vec<Entry<A>, A>, NoMemory>
        requires { IsReady self.old }
        ensures known { OnOk result (self.new.forwarders ≡ self.old.forwarders) }
        ensures makes { OnOk result (Makes (after_event event.now) self.old self.new) }
        ensures answers { IfOk result (λ entries. AreAnswers event.now entries.items self.old) }
    {
        self.server.event(0, event)?;
        let entries = self.server.take_lines(self.alloc);
        put_event(self.alloc, &mut self.text, event, &entries)?;
        count_more(&mut self.counts, &UplinkCounts::of(&entries));
        Ok(entries)
    }

    /// Takes in a copy of an uplink that the gateway at this place and with this EUI heard: it is told as `event` does, and noted of
    /// that gateway; but one that is refused is counted alone.
    pub(crate) fn copy(
        &mut self,
        eui: [u8; 8],
        place: usize,
        event: &Event<A>,
    ) -> Result<(), NoMemory>
        requires ready { IsReady self.old }
        requires place { place < length self.old.forwarders.sessions.items }
        ensures { OnOk result (Makes (after_copy eui place event.now) self.old self.new) }
    {
        self.server.event(0, event)?;
        let entries = self.server.take_lines(self.alloc);
        match refusal_of(&entries) {
            Some(fault) => count_drop(&mut self.drops, hear_name(fault), Some(eui)),
            None => {
                put_event(self.alloc, &mut self.text, event, &entries)?;
                count_more(&mut self.counts, &UplinkCounts::of(&entries));
                self.join(place, number_in(&entries));
                Ok(())
            }
        }
    }

    /// Notes that the gateway at this place told a copy of the uplink with this number, if there is one.
    fn join(&mut self, place: usize, number: Option<u64>)
        requires ready { IsReady self.old }
        requires place { place < length self.old.forwarders.sessions.items }
        ensures { Makes (joining place number) self.old self.new }
    {
        if let Some(number) = number {
            self.forwarders.join(place, number);
        }
    }

    /// Ticks the gateway with the packet forwarder at this place, where its clock can be told when the server's shows `now`, in
    /// microseconds and at most 2^60.
    pub(crate) fn tick(&mut self, place: usize, now: u64) -> Result<(), NoMemory>
        requires early { now ≤ 2 ^ 60 }
        requires ready { IsReady self.old }
        requires place { place < length self.old.forwarders.sessions.items }
        ensures known { OnOk result (self.new.forwarders ≡ self.old.forwarders) }
        ensures makes { IfSome (slice_get self.old.forwarders.sessions.items place)
            (λ k. OnOk result (Makes (after_tick A now k) self.old self.new)) }
    {
        let session = &self.forwarders.sessions()[place];
        let gateway = session.forwarder().gateway;
        match session.tick(now) {
            None => Ok(()),
            Some(at) => {
                self.event(&Event::Tick { gateway, now: at })?;
                Ok(())
            }
        }
    }

    /// Ticks all gateways, one after another.
    pub(crate) fn tick_all(&mut self, now: u64) -> Result<(), NoMemory>
        requires early { now ≤ 2 ^ 60 }
        requires ready { IsReady self.old }
        ensures { OnOk result (Makes (ticking A now) self.old self.new) }
    {
        for place in 0..self.forwarders.sessions().len() {
            self.tick(place, now)?;
        }
        Ok(())
    }

    /// Tells what was dropped, and counts anew.
    pub(crate) fn say_drops(&mut self) -> Result<(), NoMemory>
        requires { IsReady self.old }
        ensures { OnOk result (Makes saying_drops self.old self.new) }
    {
        put_drops(self.alloc, &mut self.text, &self.drops)?;
        self.drops.clear();
        Ok(())
    }

    /// Tells that a session of this gateway begins with a packet that was placed so, where one does.
    pub(crate) fn tell_session(&mut self, gateway: u16, placed: Placed) -> Result<(), NoMemory>
        requires { IsReady self.old }
        ensures known { OnOk result (self.new.forwarders ≡ self.old.forwarders) }
        ensures makes { OnOk result (Makes (telling (session_lines placed.is_new gateway placed.at)) self.old self.new) }
    {
        if placed.is_new {
            return put_session(self.alloc, &mut self.text, gateway, placed.at);
        }
        Ok(())
    }

    /// Counts what was dropped for the reason with this name.
    pub(crate) fn drop_one(
        &mut self,
        name: &'static [u8],
        eui: Option<[u8; 8]>,
    ) -> Result<(), NoMemory>
        requires { IsReady self.old }
        ensures { OnOk result (Makes (dropping name.now eui) self.old self.new) }
    {
        count_drop(&mut self.drops, name, eui)
    }

    /// The packet forwarder at this place, as the settings have it.
    pub(crate) fn forwarder_at(&self, place: usize) -> Option<Forwarder>
        ensures found { result ≡ option_map (λ k. k.forwarder) (slice_get self.now.forwarders.sessions.items place) }
        ensures within { IfSome result (λ f. place < length self.now.forwarders.sessions.items) }
    {
        let session = self.forwarders.sessions().get(place)?;
        Some(session.forwarder())
    }

    /// The EUI of the gateway at this place.
    pub(crate) fn eui_at(&self, place: usize) -> Option<[u8; 8]>
        ensures { result ≡ eui_at place self.now.forwarders.sessions.items }
    {
        Some(self.forwarder_at(place)?.eui)
    }
}

/// Why a copy was refused, by the lines that answer it; None where it was taken in.
fn refusal_of<A: Allocator>(entries: &[Entry<A>]) -> Option<DeskFault>
    ensures { result ≡ refusal_of (map (λ e. e.line) entries.now) }
{
    let entry = entries.first()?;
    match entry.line {
        Line::NotHeard(fault) => Some(fault),
        _ => None,
    }
}

/// The number of the uplink of which it is a copy, by the lines that answer it; None where it was refused.
fn number_in<A: Allocator>(entries: &[Entry<A>]) -> Option<u64>
    ensures { result ≡ number_in (map (λ e. e.line) entries.now) }
{
    let entry = entries.first()?;
    match entry.line {
        Line::Heard(DeskHeard::Opened { n, .. } | DeskHeard::Joined { n, .. }) => Some(n),
        _ => None,
    }
}
