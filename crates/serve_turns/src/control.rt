// What a server does with what a program on the machine itself asks for.
ghost use Rattle.std.specs.Prelude.{◌≡◌, IfOk, OnErr, OnOk};
ghost use Rattle.std.specs.Option.{option_map};
ghost use Rattle.server_core.specs.Server.{seen};
ghost use Rattle.serve_turns.specs.Control.{after_command, after_control, after_queue_command, command_effects, control_effects, kept_by};
ghost use Rattle.serve_turns.specs.Control.{queue_batch, queue_command_effects, report_effects, reporting};
ghost use Rattle.serve_turns.specs.Controlled.{HasMet};
ghost use Rattle.serve_turns.specs.Life.{IsReady};
ghost use Rattle.serve_turns.specs.Turn.{Did, Broke, packet_of};

use crate::answerer::Answerer;
use crate::command::{Command, ToQueue, read_command};
use crate::host::Host;
use crate::keeping::Keeping;
use crate::replies::{entries_text, report_text, waits_batch};
use crate::sending::{Written, write_batch};
use forwarder_sessions::{Datagram, Endpoint, NoMemory};
use serve_journal::Payload;
use std::alloc::Allocator;
use std::hash::BuildHasher;

/// How many payloads may wait for a device.
const QUEUE_LIMIT: usize = 16;

/// The answer where the journal doesn't keep that a payload waits.
const NO_JOURNAL: &[u8] = b"no queue Journal\n";

/// The answer to what asks for nothing.
const ASKS_NOTHING: &[u8] = b"bad 0 Syntax\n";

impl<S: BuildHasher, A: Allocator + Copy> Answerer<S, A> {
    /// Does what a datagram of a program asks for, and answers it.
    pub(crate) fn take_control<H: Host>(
        &mut self,
        host: &mut H,
        datagram: &Datagram<'_>,
    ) -> Result<(), NoMemory>
        requires { IsReady self.old }
        ensures done { OnOk result (Did (H.effects host.old) (H.effects host.new)
            (after_control A datagram.now.at (packet_of datagram.now))
            (control_effects A datagram.now.at (packet_of datagram.now)) self.old self.new) }
        ensures broken { OnErr result (Broke (H.effects host.old) (H.effects host.new)
            (control_effects A datagram.now.at (packet_of datagram.now)) self.old) }
    {
        let command = read_command(self.alloc, datagram.bytes)?;
        self.answer_command(host, datagram.at, datagram.source, command)
    }

    /// Does what is asked for, and answers it.
    fn answer_command<H: Host>(
        &mut self,
        host: &mut H,
        now: u64,
        source: Endpoint,
        command: Option<Command<A>>,
    ) -> Result<(), NoMemory>
        requires { IsReady self.old }
        ensures done { OnOk result (Did (H.effects host.old) (H.effects host.new) (after_command now command)
            (command_effects now source command) self.old self.new) }
        ensures broken { OnErr result (Broke (H.effects host.old) (H.effects host.new)
            (command_effects now source command) self.old) }
    {
        match command {
            Some(Command::Queue(queued)) => self.answer_queue(host, now, source, queued),
            Some(Command::Report) => self.answer_report(host, source),
            None => {
                host.acknowledge(source, ASKS_NOTHING);
                Ok(())
            }
        }
    }

    /// Queues a payload once the journal keeps that it waits, if one is kept, and answers it.
    fn answer_queue<H: Host>(
        &mut self,
        host: &mut H,
        now: u64,
        source: Endpoint,
        queued: ToQueue<A>,
    ) -> Result<(), NoMemory>
        requires { IsReady self.old }
        ensures done { OnOk result (Did (H.effects host.old) (H.effects host.new) (after_queue_command now queued)
            (queue_command_effects now source queued) self.old self.new) }
        ensures broken { OnErr result (Broke (H.effects host.old) (H.effects host.new)
            (queue_command_effects now source queued) self.old) }
    {
        if !self.note_waiting(host, now, &queued)? {
            host.acknowledge(source, NO_JOURNAL);
            return Ok(());
        }
        let entries = self.event(&queued.into_event())?;
        let answer = entries_text(self.alloc, &entries)?;
        host.acknowledge(source, &answer);
        Ok(())
    }

    /// Has the journal keep that a payload waits, where one is kept and the payload isn't refused. Answers whether the event may be made
    /// that queues it: not where that fails, nor where a write has failed before.
    fn note_waiting<H: Host>(
        &mut self,
        host: &mut H,
        now: u64,
        queued: &ToQueue<A>,
    ) -> Result<bool, NoMemory>
        requires { IsReady self.old }
        ensures done { IfOk result (λ is_met. HasMet now queued.now is_met (H.effects host.old) (H.effects host.new)
            self.old self.new) }
        ensures unchanged { OnErr result (H.effects host.new ≡ H.effects host.old) }
    {
        let Some(keeping) = &self.keeping else {
            return Ok(true);
        };
        if keeping.failed_at().is_some() {
            return Ok(false);
        }
        let Some(batch) = self.queue_batch(queued)? else {
            return Ok(true);
        };
        let written = write_batch(host, &batch);
        self.note_written(now, written, batch.len() as u64);
        Ok(written == Written::Synced)
    }

    /// Notes how far a batch of so many bytes got when the server's clock showed `now`.
    fn note_written(&mut self, now: u64, written: Written, len: u64)
        ensures kept { self.new.keeping ≡ option_map (kept_by now written len) self.old.keeping }
        ensures others { self.new ≡ record self.old { keeping = self.new.keeping } }
    {
        if let Some(keeping) = &mut self.keeping {
            note_written_in(keeping, now, written, len);
        }
    }

    /// The batch that says that a payload waits; None where it is refused.
    fn queue_batch(&self, queued: &ToQueue<A>) -> Result<Option<Vec<u8, A>>, NoMemory>
        ensures { IfOk result (λ batch. option_map (λ b. b.items) batch
            ≡ queue_batch (seen self.now.server).desk.reg queued.now) }
    {
        if self.server.device(queued.addr).is_none()
            || QUEUE_LIMIT <= self.server.waiting(queued.addr).len()
        {
            return Ok(None);
        }
        match Payload::new(queued.port, queued.payload.as_slice()) {
            Some(payload) => Ok(Some(waits_batch(self.alloc, queued.addr, payload)?)),
            None => Ok(None),
        }
    }

    /// Answers with the report of a run that ends here.
    fn answer_report<H: Host>(&mut self, host: &mut H, source: Endpoint) -> Result<(), NoMemory>
        requires { IsReady self.old }
        ensures done { OnOk result (Did (H.effects host.old) (H.effects host.new) reporting (report_effects source)
            self.old self.new) }
        ensures broken { OnErr result (Broke (H.effects host.old) (H.effects host.new) (report_effects source) self.old) }
    {
        let report = report_text(self.alloc, &self.counts, self.server.books())?;
        host.acknowledge(source, &report);
        Ok(())
    }
}

/// Notes how far a batch of so many bytes got when the server's clock showed `now`.
fn note_written_in<A: Allocator>(keeping: &mut Keeping<A>, now: u64, written: Written, len: u64)
    ensures { keeping.new ≡ kept_by now written len keeping.old }
{
    match written {
        Written::Synced => keeping.add(len),
        Written::NotAppended | Written::NotSynced => keeping.fail(now),
    }
}
