// One turn of a server.
ghost use Rattle.std.specs.Prelude.{◌≡◌, ◌≤◌, ◌^◌, [], ◌∷◌, length, true, None, Err, IfErr, IfOk, IfSome, OnErr, OnOk};
ghost use Rattle.serve_turns.specs.Effects.{Adds, given};
ghost use Rattle.serve_turns.specs.Life.{Makes, IsReady};
ghost use Rattle.serve_turns.specs.Renewing.{is_in_place, renewing, renewing_effects};
ghost use Rattle.serve_turns.specs.Turn.{Did, Broke, HasActed, HasBroken, IsBetweenTurns, IsTurn, IsTold, IsCut, IsUntold, IsBroken, HasNoMoment, rests, waits};
ghost use Rattle.serve_turns.specs.Turn.{after_arrival, after_report, after_pass, arrival_effects, pass_effects, packet_of, sent_back, took, took_effects, came_in, came_in_effects};

use crate::answerer::Answerer;
use crate::command::is_control;
use crate::host::{Came, Host};
use crate::serving::Serving;
use forwarder_sessions::{Datagram, Endpoint, NoMemory};
use server_core::Event;
use std::alloc::Allocator;
use std::hash::BuildHasher;
use thiserror::Error;

/// The last moment of a server's clock, in microseconds: 36,000 years.
const LAST_MOMENT: u64 = 1 << 60;

/// How long at least between two tellings of what was dropped, in microseconds.
const TOLD_EVERY: u64 = 1_000_000;

/// Why a server stopped.
#[derive(Clone, Copy, Debug, PartialEq, Eq, Error)]
pub enum Stopped {
    /// Its clock can't be read, or shows more than 2^60 microseconds.
    #[error("the clock can't be read")]
    Clock,
    /// Its lines could not be written.
    #[error("the lines could not be written")]
    Write,
    /// A growth was refused.
    #[error("there is no memory left")]
    NoMemory,
}

impl<S: BuildHasher + Clone + Drop, A: Allocator + Copy> Serving<S, A> {
    /// Waits a short time for a datagram, for which there should be room for 65,536 bytes, and takes it in. Then, where an uplink is
    /// due to be answered, ticks each gateway of which a packet was heard in the last 2 s, and answers all that are due; a server that
    /// keeps a journal has the disk keep what it books, and sends it. Where a second has passed since that was last told, tells
    /// what was dropped. The journal is written anew where that is due. All lines of the turn are told at its end. After an Err no
    /// further turn may be made.
    ///
    /// Once 32,768 uplinks were gathered, turns take in nothing until the last of them is answered. Then the desk is made anew, so
    /// that memory stays flat, and numbers of uplinks begin at 1 again.
    pub fn turn<H: Host>(&mut self, host: &mut H, room: &mut [u8]) -> Result<(), Stopped>
        requires { IsBetweenTurns self.old }
        ensures done { OnOk result (IsTurn (H.effects host.old) (H.effects host.new) self.old self.new) }
        ensures clock { result ≡ Err Stopped.Clock → HasNoMoment (H.effects host.old) (H.effects host.new) self.old }
        ensures write { result ≡ Err Stopped.Write → IsUntold (H.effects host.old) (H.effects host.new) self.old }
        ensures memory { result ≡ Err Stopped.NoMemory → IsBroken (H.effects host.old) (H.effects host.new) self.old }
    {
        let came = self.wait(host, room);
        let Some(now) = host.now() else {
            return Err(Stopped::Clock);
        };
        if LAST_MOMENT < now {
            return Err(Stopped::Clock);
        }
        match self.act(host, now, came, room) {
            Ok(()) => self.answerer.tell(host),
            Err(_) => Err(Stopped::NoMemory),
        }
    }

    /// Writes the journal anew, if one is kept, when the server's clock shows `now`, in microseconds and at most 2^60, and answers
    /// whether it was put in place: a server that was resumed sends nothing before. Err(NoMemory) where a growth was refused.
    pub fn renew<H: Host>(&mut self, host: &mut H, now: u64) -> Result<bool, NoMemory>
        requires early { now ≤ 2 ^ 60 }
        requires between { IsBetweenTurns self.old }
        ensures between { OnOk result (IsBetweenTurns self.new) }
        ensures in_place { IfOk result (λ is_done. is_done ≡ is_in_place self.new.answerer.keeping) }
        ensures done { OnOk result (Did (H.effects host.old) (H.effects host.new) (renewing now) (renewing_effects now)
            self.old.answerer self.new.answerer) }
    {
        self.answerer.renew(host, now)
    }

    /// Waits a short time for a datagram; while the desk is to be made anew, waits as long and receives nothing.
    fn wait<H: Host>(&self, host: &mut H, room: &mut [u8]) -> Option<Came>
        ensures bound { IfSome result (λ came. came.len ≤ length room.new) }
        ensures none { rests self.now ≡ true → result ≡ None }
        ensures waited { Adds (H.effects host.old) (H.effects host.new) (waits (rests self.now) (given result room.new) ∷ []) }
    {
        if self.answerer.is_spent() {
            host.rest();
            return None;
        }
        host.receive(room)
    }

    /// Takes in the datagram that came, if one did, answers and sends what is due, says what was dropped, and writes the journal anew
    /// and makes a new desk where that is due.
    fn act<H: Host>(
        &mut self,
        host: &mut H,
        now: u64,
        came: Option<Came>,
        room: &[u8],
    ) -> Result<(), NoMemory>
        requires early { now ≤ 2 ^ 60 }
        requires within { IfSome came (λ c. c.len ≤ length room.now) }
        requires ready { IsReady self.old.answerer }
        ensures done { OnOk result (HasActed now (given came room.now) (H.effects host.old) (H.effects host.new)
            self.old.answerer self.new.answerer) }
        ensures broken { OnErr result (HasBroken now (given came room.now) (H.effects host.old) (H.effects host.new)
            self.old.answerer) }
    {
        self.take(host, now, came, room)?;
        self.answerer.pass(host, now)?;
        self.answerer.report(now)?;
        self.answerer.renew_if_due(host, now)?;
        self.answerer.renew_desk_if_due(&self.hasher)
    }

    /// Takes in the datagram that came, if one did.
    fn take<H: Host>(
        &mut self,
        host: &mut H,
        now: u64,
        came: Option<Came>,
        room: &[u8],
    ) -> Result<(), NoMemory>
        requires early { now ≤ 2 ^ 60 }
        requires within { IfSome came (λ c. c.len ≤ length room.now) }
        requires ready { IsReady self.old.answerer }
        ensures done { OnOk result (Did (H.effects host.old) (H.effects host.new) (came_in A now (given came room.now))
            (came_in_effects A now (given came room.now)) self.old.answerer self.new.answerer) }
        ensures broken { OnErr result (Broke (H.effects host.old) (H.effects host.new)
            (came_in_effects A now (given came room.now)) self.old.answerer) }
    {
        match came {
            None => Ok(()),
            Some(came) => self.take_arrival(
                host,
                &Datagram {
                    source: came.source,
                    at: now,
                    bytes: &room[..came.len],
                },
            ),
        }
    }

    /// Takes in a datagram: that of a program on the machine itself is answered, and each other one is a packet forwarder's.
    fn take_arrival<H: Host>(
        &mut self,
        host: &mut H,
        datagram: &Datagram<'_>,
    ) -> Result<(), NoMemory>
        requires early { datagram.now.at ≤ 2 ^ 60 }
        requires ready { IsReady self.old.answerer }
        ensures done { OnOk result (Did (H.effects host.old) (H.effects host.new)
            (after_arrival A datagram.now.at (packet_of datagram.now))
            (arrival_effects A datagram.now.at (packet_of datagram.now)) self.old.answerer self.new.answerer) }
        ensures broken { OnErr result (Broke (H.effects host.old) (H.effects host.new)
            (arrival_effects A datagram.now.at (packet_of datagram.now)) self.old.answerer) }
    {
        if is_control(datagram.source, datagram.bytes) {
            return self.answerer.take_control(host, datagram);
        }
        self.take_datagram(host, datagram)
    }

    /// Acknowledges a packet forwarder's datagram, where it is to be, and does what it tells.
    fn take_datagram<H: Host>(
        &mut self,
        host: &mut H,
        datagram: &Datagram<'_>,
    ) -> Result<(), NoMemory>
        requires early { datagram.now.at ≤ 2 ^ 60 }
        requires ready { IsReady self.old.answerer }
        ensures done { OnOk result (Did (H.effects host.old) (H.effects host.new)
            (took A datagram.now.at (packet_of datagram.now)) (took_effects datagram.now.at (packet_of datagram.now))
            self.old.answerer self.new.answerer) }
        ensures broken { OnErr result (Broke (H.effects host.old) (H.effects host.new)
            (took_effects datagram.now.at (packet_of datagram.now)) self.old.answerer) }
    {
        let alloc = self.answerer.alloc;
        let received = self
            .answerer
            .forwarders
            .receive(alloc, &mut self.scratch, datagram)?;
        send_back(host, datagram.source, received.acknowledgement);
        self.answerer.take_news(datagram.at, received.news)
    }
}

impl<S: BuildHasher, A: Allocator + Copy> Answerer<S, A> {
    /// Where an uplink is due to be answered at `now`, ticks the gateways, answers all that are due, and sends what answers them.
    fn pass<H: Host>(&mut self, host: &mut H, now: u64) -> Result<(), NoMemory>
        requires early { now ≤ 2 ^ 60 }
        requires ready { IsReady self.old }
        ensures done { OnOk result (Did (H.effects host.old) (H.effects host.new) (after_pass A now) (pass_effects A now)
            self.old self.new) }
        ensures broken { OnErr result (Broke (H.effects host.old) (H.effects host.new) (pass_effects A now) self.old) }
    {
        if !self.server.is_due(now) {
            return Ok(());
        }
        self.tick_all(now)?;
        let entries = self.event(&Event::Pass { now })?;
        self.send_downlinks(host, now, &entries)
    }

    /// Where a second has passed since that was told, tells what was dropped.
    fn report(&mut self, now: u64) -> Result<(), NoMemory>
        requires { IsReady self.old }
        ensures { OnOk result (Makes (after_report now) self.old self.new) }
    {
        if now.saturating_sub(self.told_at) < TOLD_EVERY {
            return Ok(());
        }
        self.told_at = now;
        self.say_drops()
    }

    /// Tells the lines of the turn, if there are any.
    fn tell<H: Host>(&mut self, host: &mut H) -> Result<(), Stopped>
        ensures told { OnOk result (IsTold (H.effects host.old) (H.effects host.new) self.old self.new) }
        ensures cut { OnErr result (IsCut (H.effects host.old) (H.effects host.new) self.old) }
        ensures write { IfErr result (λ stopped. stopped ≡ Stopped.Write) }
    {
        let text = &mut self.text.writer;
        if text.is_empty() {
            return Ok(());
        }
        match host.tell(text.as_slice()) {
            Ok(()) => {
                text.clear();
                Ok(())
            }
            Err(_) => Err(Stopped::Write),
        }
    }
}

/// Sends an acknowledgement, if there is one.
fn send_back<H: Host>(host: &mut H, to: Endpoint, acknowledgement: Option<[u8; 4]>)
    ensures { Adds (H.effects host.old) (H.effects host.new) (sent_back to acknowledgement) }
{
    if let Some(bytes) = acknowledgement {
        host.acknowledge(to, &bytes);
    }
}
