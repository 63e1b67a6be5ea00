// A server that keeps a journal sends the downlinks of a pass, once the disk has them.
ghost use Rattle.std.specs.Prelude.{◌≡◌, ◌≤◌, ◌^◌, [], ◌∷◌, length, map, nat_lt, zip, IfSome, OnOk, OnErr};
ghost use Rattle.serve_downlinks.specs.Downlinks.{to_send};
ghost use Rattle.serve_turns.specs.Effects.{Adds};
ghost use Rattle.serve_turns.specs.Life.{IsReady, Makes};
ghost use Rattle.serve_turns.specs.Sending.{asking_kept, asking_kept_effects, delivered_as, delivering, keeping_back, sending, sending_effects, sent_one, writing};
ghost use Rattle.serve_turns.specs.Turn.{Did, Broke};

use crate::answerer::Answerer;
use crate::asking::{PullResp, asked, sendable};
use crate::host::Host;
use crate::telling::{put_kept_back, put_unsent, put_unwritten};
use forwarder_sessions::NoMemory;
use serve_downlinks::{Downlink, batch_of, downlinks_of};
use server_core::Entry;
use std::alloc::Allocator;
use std::hash::BuildHasher;

/// How far a batch got.
#[derive(Clone, Copy, Debug, PartialEq, Eq)]
pub(crate) enum Written {
    /// Not all of it was added to the journal's file.
    NotAppended,
    /// It was added, but the disk doesn't keep it.
    NotSynced,
    /// The disk keeps it.
    Synced,
}

impl<S: BuildHasher, A: Allocator + Copy> Answerer<S, A> {
    /// Sends the downlinks among the lines that answered a pass when the server's clock showed `now`, in microseconds and at most
    /// 2^60, if a journal is kept: those that may be sent get into it first, with the next downlink counters of their devices. Where
    /// they don't, none is sent.
    pub(crate) fn send_downlinks<H: Host>(
        &mut self,
        host: &mut H,
        now: u64,
        entries: &[Entry<A>],
    ) -> Result<(), NoMemory>
        requires early { now ≤ 2 ^ 60 }
        requires ready { IsReady self.old }
        ensures done { OnOk result (Did (H.effects host.old) (H.effects host.new)
            (sending now (map (λ e. e.line) entries.now)) (sending_effects now (map (λ e. e.line) entries.now))
            self.old self.new) }
        ensures broken { OnErr result (Broke (H.effects host.old) (H.effects host.new)
            (sending_effects now (map (λ e. e.line) entries.now)) self.old) }
    {
        if self.keeping.is_none() {
            return Ok(());
        }
        let downlinks = downlinks_of(self.alloc, entries)?;
        let ready = sendable(self.alloc, self.forwarders.sessions(), &downlinks)?;
        let asks = asked(self.alloc, self.forwarders.sessions(), &downlinks)?;
        put_kept_back(
            self.alloc,
            &mut self.text,
            self.forwarders.sessions(),
            &downlinks,
        )?;
        self.keep_back(is_shorter(&ready, &downlinks));
        self.ask(host, now, &ready, &asks)
    }

    /// Something was kept back, or nothing was.
    fn keep_back(&mut self, any: bool)
        requires ready { IsReady self.old }
        ensures { Makes (keeping_back any) self.old self.new }
    {
        if let Some(keeping) = &mut self.keeping {
            keeping.keep_back(any);
        }
    }

    /// Sends these PULL_RESPs of these downlinks, if there are any, and no write has failed.
    fn ask<H: Host>(
        &mut self,
        host: &mut H,
        now: u64,
        ready: &[Downlink<'_>],
        asks: &[PullResp<'_, A>],
    ) -> Result<(), NoMemory>
        requires early { now ≤ 2 ^ 60 }
        requires ready { IsReady self.old }
        ensures done { OnOk result (Did (H.effects host.old) (H.effects host.new)
            (asking_kept now (map to_send ready.now) asks.now) (asking_kept_effects now (map to_send ready.now) asks.now)
            self.old self.new) }
        ensures broken { OnErr result (Broke (H.effects host.old) (H.effects host.new)
            (asking_kept_effects now (map to_send ready.now) asks.now) self.old) }
    {
        if asks.is_empty() {
            return Ok(());
        }
        let Some(keeping) = &self.keeping else {
            return Ok(());
        };
        if keeping.failed_at().is_some() {
            return put_unwritten(self.alloc, &mut self.text, asks);
        }
        let sessions = self.forwarders.sessions();
        let batch = batch_of(
            self.alloc,
            &self.server,
            sessions,
            keeping.sessions(),
            now,
            ready,
        )?;
        let mut went = vec![in self.alloc; false; asks.len()]?;
        let written = deliver(host, &batch, asks, &mut went);
        self.tell_delivered(now, &batch, asks, written, &went)
    }

    /// Tells what became of PULL_RESPs whose batch got so far; `went` says which went out.
    fn tell_delivered(
        &mut self,
        now: u64,
        batch: &[u8],
        asks: &[PullResp<'_, A>],
        written: Written,
        went: &[bool],
    ) -> Result<(), NoMemory>
        requires ready { IsReady self.old }
        requires went { length went.now ≡ length asks.now }
        ensures { OnOk result (IfSome self.old.keeping (λ k. Makes (delivered_as written now went.now (length batch.now) asks.now k)
            self.old self.new)) }
    {
        let Some(keeping) = &mut self.keeping else {
            return Ok(());
        };
        match written {
            Written::Synced => {
                keeping.add(batch.len() as u64);
                put_unsent(self.alloc, &mut self.text, asks, went)
            }
            Written::NotAppended | Written::NotSynced => {
                keeping.fail(now);
                put_unwritten(self.alloc, &mut self.text, asks)
            }
        }
    }
}

/// Whether these are fewer than those.
fn is_shorter(these: &[Downlink<'_>], those: &[Downlink<'_>]) -> bool
    ensures { result ≡ nat_lt (length these.now) (length those.now) }
{
    these.len() < those.len()
}

/// Adds a batch to the journal's file, has the disk keep it, and then sends these PULL_RESPs; `went` tells of each whether it went
/// out. Nothing is sent where the disk doesn't keep the batch.
fn deliver<H: Host, A: Allocator>(
    host: &mut H,
    batch: &[u8],
    asks: &[PullResp<'_, A>],
    went: &mut [bool],
) -> Written
    requires { length went.old ≡ length asks.now }
    ensures len { length went.new ≡ length asks.now }
    ensures done { Adds (H.effects host.old) (H.effects host.new)
        (delivering (record { written = result; went = went.new }) batch.now asks.now) }
{
    let written = write_batch(host, batch);
    if written == Written::Synced {
        send_all(host, asks, went);
    }
    written
}

/// Adds a batch to the journal's file, and has the disk keep it.
pub(crate) fn write_batch<H: Host>(host: &mut H, batch: &[u8]) -> Written
    ensures { Adds (H.effects host.old) (H.effects host.new) (writing result batch.now) }
{
    if !host.append(batch) {
        return Written::NotAppended;
    }
    if !host.sync() {
        return Written::NotSynced;
    }
    Written::Synced
}

/// Sends these PULL_RESPs, and notes of each whether it went out.
fn send_all<H: Host, A: Allocator>(host: &mut H, asks: &[PullResp<'_, A>], went: &mut [bool])
    requires { length went.old ≡ length asks.now }
    ensures len { length went.new ≡ length asks.now }
    ensures sent { Adds (H.effects host.old) (H.effects host.new) (map sent_one (zip asks.now went.new)) }
{
    for place in 0..asks.len() {
        went[place] = send_one(host, &asks[place]);
    }
}

/// Sends one of them, and answers whether it went out.
fn send_one<H: Host, A: Allocator>(host: &mut H, ask: &PullResp<'_, A>) -> bool
    ensures { Adds (H.effects host.old) (H.effects host.new) (sent_one (ask.now, result) ∷ []) }
{
    host.send(ask.peer, &ask.bytes)
}
