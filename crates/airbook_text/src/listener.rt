// A server that listens, turn by turn.
ghost use Rattle.std.specs.Prelude.{◌≡◌, ◌^◌, [], Some, None, IfOk, IfErr};
ghost use Rattle.text_words.specs.Fault.{CountsWrites};
ghost use Rattle.server_station.specs.Stations.{AreInOrder};
ghost use Rattle.run_lines.specs.UplinkCounts.{AreCountsUpTo};
ghost use Rattle.run_server.specs.WorkersRun.{IsStaffed};
ghost use Rattle.airbook_text.specs.ListenTurns.{account_of, HasAnswer, IsAnswered, IsTurn};
ghost use Rattle.airbook_text.specs.Listening.{Hears, HearsInPart, SaysInPart, ReportsInPart, IsWithinLimit, IsListenFault};
ghost use Rattle.airbook_text.specs.ListenSteps.{progress, opened, Says, Turns, TurnsInPart, Reports};

use crate::source::Source;
use crate::unread::write_unread;
use run_lines::{DATAGRAM_ROOM, UplinkCounts, datagram_event, write_entries, write_report};
use run_server::Shift;
use server_core::{DeviceSetting, Event, NoMemory, Settings};
use server_workers::{Blank, Ledger, PARTS};
use std::alloc::Global;
use std::hash::BuildHasher;
use std::sync::Wait;
use std::thread::Threads;
use text_lines::ByteOut;
use text_words::TextFault;

/// A station at work, whose lines were all written, how many uplinks were answered, and whether a line began with `no` or
/// `bad`.
#[derive(Drop)]
pub(crate) struct Listener<B: Ledger, H: BuildHasher> {
    shift: Shift<B, H>,
    counts: UplinkCounts,
    refused: bool,
    ghost written: { shift.entries.items ≡ [] },
}

impl<B: Ledger, H: BuildHasher + Clone + Drop> Listener<B, H> {
    /// A station with these settings that has heard nothing.
    pub(crate) fn new(
        alloc: Global,
        hasher: H,
        settings: &Settings<Global>,
        workers: u8,
        blank: Blank,
    ) -> Result<Self, NoMemory>
        requires name { blank.name ≡ B.name }
        requires parts { blank.parts ≡ B.parts }
        requires all { blank.parts ≡ PARTS }
        requires staffed { IsStaffed workers }
        ensures gateways { IfOk result (λ l. AreInOrder settings.now.gateways l.shift.station.value) }
        ensures workers { IfOk result (λ l. l.shift.workers ≡ workers) }
        ensures opened { IfOk result
            (λ l. progress l.shift.till l.shift.receipts l.counts l.refused ≡ opened) }
    {
        let shift = Shift::new(alloc, hasher, settings, workers, blank, 0)?;
        let counts = UplinkCounts {
            sent: 0,
            unanswered: 0,
            silent: 0,
        };
        Ok(Listener {
            shift,
            counts,
            refused: false,
        })
    }
}

impl<B: Ledger + Send + Sync, H: BuildHasher + Drop + Send + Sync> Listener<B, H>
where
    H::Hasher: Send + Sync,
{
    /// Makes so many receives, answers each at once, and writes the report.
    pub(crate) fn listen<T: Threads + Wait + Sync, S: Source, W: ByteOut>(
        self,
        rt: &T,
        alloc: Global,
        devices: &[DeviceSetting],
        source: &mut S,
        turns: u32,
        writer: &mut W,
    ) -> Result<bool, TextFault>
        requires opened { progress self.shift.till self.shift.receipts self.counts self.refused ≡ opened }
        requires turns { IsWithinLimit turns }
        ensures ok { IfOk result (Hears turns self.shift.station.value devices.now (S.seen source.old) (S.seen source.new)
            (W.taken writer.old) (W.taken writer.new)) }
        ensures front { IfErr result (HearsInPart turns self.shift.station.value devices.now (S.seen source.old)
            (S.seen source.new) (W.taken writer.old) (W.taken writer.new)) }
        ensures fault { IfErr result IsListenFault }
        ensures write { CountsWrites (W.failed_calls writer.old) (W.failed_calls writer.new) result }
    {
        let mut listener = self;
        for turn in 0..turns {
            listener = match listener.turn(rt, alloc, devices, turn + 1, source, writer) {
                Ok(listener) => listener,
                Err(fault) => return Err(fault),
            };
        }
        listener.close(alloc, writer)
    }

    /// Makes one receive, and answers it.
    fn turn<T: Threads + Wait + Sync, S: Source, W: ByteOut>(
        self,
        rt: &T,
        alloc: Global,
        devices: &[DeviceSetting],
        turn: u32,
        source: &mut S,
        writer: &mut W,
    ) -> Result<Self, TextFault>
        requires room { AreCountsUpTo (2 ^ 126) self.counts }
        ensures station { IfOk result (λ l. l.shift.station.value ≡ self.shift.station.value) }
        ensures workers { IfOk result (λ l. l.shift.workers ≡ self.shift.workers) }
        ensures ok { IfOk result (λ l. Turns
            (λ r. IsTurn self.shift.station.value devices.now turn r
            (account_of self.shift.till self.shift.receipts))
            (S.seen source.old) (S.seen source.new)
            (progress self.shift.till self.shift.receipts self.counts self.refused)
            (progress l.shift.till l.shift.receipts l.counts l.refused)
            (W.taken writer.old) (W.taken writer.new)) }
        ensures front { IfErr result (TurnsInPart (HasAnswer devices.now turn)
            (λ r. IsTurn self.shift.station.value devices.now turn r
            (account_of self.shift.till self.shift.receipts))
            (S.seen source.old) (S.seen source.new) (W.taken writer.old) (W.taken writer.new)) }
        ensures fault { IfErr result IsListenFault }
        ensures write { CountsWrites (W.failed_calls writer.old) (W.failed_calls writer.new) result }
    {
        let mut into = [0; DATAGRAM_ROOM];
        match source.next(&mut into) {
            Some(count) => self.datagram(rt, alloc, devices, turn, &into[..count], writer),
            None => self.unread(turn, writer),
        }
    }

    /// Tells that the receive of a turn failed.
    fn unread<W: ByteOut>(self, turn: u32, writer: &mut W) -> Result<Self, TextFault>
        ensures station { IfOk result (λ l. l.shift.station.value ≡ self.shift.station.value) }
        ensures workers { IfOk result (λ l. l.shift.workers ≡ self.shift.workers) }
        ensures ok { IfOk result (λ l. Says (IsTurn [] [] turn None
            (account_of self.shift.till self.shift.receipts))
            (progress self.shift.till self.shift.receipts self.counts self.refused)
            (progress l.shift.till l.shift.receipts l.counts l.refused)
            (W.taken writer.old) (W.taken writer.new)) }
        ensures front { IfErr result (SaysInPart (IsTurn [] [] turn None
            (account_of self.shift.till self.shift.receipts))
            (W.taken writer.old) (W.taken writer.new)) }
        ensures fault { IfErr result (λ fault. fault ≡ TextFault.Write) }
        ensures write { CountsWrites (W.failed_calls writer.old) (W.failed_calls writer.new) result }
    {
        let Listener {
            shift,
            counts,
            refused: _,
        } = self;
        match write_unread(turn as u64, writer) {
            Err(_) => Err(TextFault::Write),
            Ok(()) => Ok(Listener {
                shift,
                counts,
                refused: true,
            }),
        }
    }

    /// Does what a datagram asks for, and writes the answer.
    fn datagram<T: Threads + Wait + Sync, W: ByteOut>(
        self,
        rt: &T,
        alloc: Global,
        devices: &[DeviceSetting],
        turn: u32,
        datagram: &[u8],
        writer: &mut W,
    ) -> Result<Self, TextFault>
        requires room { AreCountsUpTo (2 ^ 126) self.counts }
        ensures station { IfOk result (λ l. l.shift.station.value ≡ self.shift.station.value) }
        ensures workers { IfOk result (λ l. l.shift.workers ≡ self.shift.workers) }
        ensures ok { IfOk result (λ l. Says
            (IsTurn self.shift.station.value devices.now turn (Some datagram.now)
            (account_of self.shift.till self.shift.receipts))
            (progress self.shift.till self.shift.receipts self.counts self.refused)
            (progress l.shift.till l.shift.receipts l.counts l.refused)
            (W.taken writer.old) (W.taken writer.new)) }
        ensures front { IfErr result (SaysInPart
            (IsTurn self.shift.station.value devices.now turn (Some datagram.now)
            (account_of self.shift.till self.shift.receipts))
            (W.taken writer.old) (W.taken writer.new)) }
        ensures asked { IfErr result (λ _. HasAnswer devices.now turn (Some datagram.now)) }
        ensures fault { IfErr result IsListenFault }
        ensures write { CountsWrites (W.failed_calls writer.old) (W.failed_calls writer.new) result }
    {
        match datagram_event(alloc, devices, turn as u64, datagram) {
            Err(_) => Err(TextFault::NoMemory),
            Ok(None) => Ok(self),
            Ok(Some(event)) => self.event(rt, alloc, turn, &event, writer),
        }
    }

    /// Does what an event asks for, and writes the answer.
    fn event<T: Threads + Wait + Sync, W: ByteOut>(
        self,
        rt: &T,
        alloc: Global,
        turn: u32,
        event: &Event<Global>,
        writer: &mut W,
    ) -> Result<Self, TextFault>
        requires room { AreCountsUpTo (2 ^ 126) self.counts }
        ensures station { IfOk result (λ l. l.shift.station.value ≡ self.shift.station.value) }
        ensures workers { IfOk result (λ l. l.shift.workers ≡ self.shift.workers) }
        ensures ok { IfOk result (λ l. Says
            (IsAnswered self.shift.station.value turn (Some event.now)
            (account_of self.shift.till self.shift.receipts))
            (progress self.shift.till self.shift.receipts self.counts self.refused)
            (progress l.shift.till l.shift.receipts l.counts l.refused)
            (W.taken writer.old) (W.taken writer.new)) }
        ensures front { IfErr result (SaysInPart
            (IsAnswered self.shift.station.value turn (Some event.now)
            (account_of self.shift.till self.shift.receipts))
            (W.taken writer.old) (W.taken writer.new)) }
        ensures fault { IfErr result IsListenFault }
        ensures write { CountsWrites (W.failed_calls writer.old) (W.failed_calls writer.new) result }
    {
        let Listener {
            shift,
            mut counts,
            refused,
        } = self;
        let Ok(mut shift) = shift.answer(rt, alloc, turn as usize, event) else {
            return Err(TextFault::NoMemory);
        };
        let entries = shift.take_lines(alloc);
        match write_entries(entries.as_slice(), writer) {
            Err(_) => Err(TextFault::Write),
            Ok(bad) => {
                counts.add(&UplinkCounts::of(entries.as_slice()));
                Ok(Listener {
                    shift,
                    counts,
                    refused: refused | bad,
                })
            }
        }
    }

    /// Compares the books with what was answered, and writes the report.
    fn close<W: ByteOut>(self, alloc: Global, writer: &mut W) -> Result<bool, TextFault>
        ensures told { IfOk result (λ refused. refused ≡ self.refused) }
        ensures ok { IfOk result (λ _. Reports self.shift.station.value
            (progress self.shift.till self.shift.receipts self.counts self.refused)
            (W.taken writer.old) (W.taken writer.new)) }
        ensures front { IfErr result (ReportsInPart self.shift.station.value
            (account_of self.shift.till self.shift.receipts) self.counts
            (W.taken writer.old) (W.taken writer.new)) }
        ensures fault { IfErr result IsListenFault }
        ensures write { CountsWrites (W.failed_calls writer.old) (W.failed_calls writer.new) result }
    {
        let Listener {
            shift,
            counts,
            refused,
        } = self;
        let played = match shift.close(alloc) {
            Err(fault) => return Err(fault),
            Ok(played) => played,
        };
        match write_report(&counts, played.books.as_slice(), writer) {
            Err(_) => Err(TextFault::Write),
            Ok(()) => Ok(refused),
        }
    }
}
