// A worker among others.
ghost use Rattle.std.specs.Prelude.{◌≡◌, true, [], Some, List, ℕ, length};
ghost use Rattle.server_desk.specs.Register.{is_among};
ghost use Rattle.server_workers.specs.Crew.{HasSettledNone, HasDoneItsPart};
ghost use Rattle.server_workers.specs.Filing.{IsWithin};
ghost use Rattle.server_workers.specs.Lists.{lists_of};
ghost use Rattle.server_workers.specs.Served.{IsIdle, IsDone};
ghost use Rattle.server_workers.specs.Turns.{HasWorked, HasStopped};
ghost use Rattle.server_workers.specs.Working.{IsMore};

use crate::turns::InChannel;
use crate::working::work_on;
use crate::{Gate, Ledger, Station, Worked};
use crossbeam_channel::{Receiver, bounded};
use std::alloc::{AllocError, Allocator};
use std::hash::BuildHasher;
use std::marker::{Brand, PhantomData};
use std::sync::Wait;

/// The numbers that a crew works at, and how many they are.
pub(crate) trait Room {
    ghost numbers: { List ℕ };

    ghost room: { ℕ };
}

impl Room for Brand {
    ghost numbers = { [] };

    ghost room = { 0 };
}

/// One of the numbers that a crew works at.
#[derive(Drop)]
pub(crate) struct Sent<K: Room> {
    number: u64,
    crew: PhantomData<K>,
    ghost among: { is_among K.numbers number ≡ true },
}

impl<K: Room> InChannel for Sent<K> {
    ghost numbers = { Some K.numbers };

    fn number(self) -> u64 {
        self.number
    }
}

/// A worker of a crew. Its type keeps that its lists have no more room than the numbers need, that it has settled nothing
/// where it hasn't begun, that one that has begun went on until it had a reason to stop, and that its lists have what became of
/// the numbers that it took up, and nothing else.
#[derive(Drop)]
pub(crate) struct Member<K: Room, B: Ledger, A: Allocator> {
    has_begun: bool,
    worked: Worked<B, A>,
    crew: PhantomData<K>,
    ghost within: { IsWithin K.room (lists_of worked) },
    ghost before: { HasSettledNone has_begun worked },
    ghost after: { HasDoneItsPart has_begun worked },
    ghost done: { IsDone K.numbers worked },
}

/// The numbers that a crew works at, in a channel that is closed. Its type keeps that as many were sent as there are, and
/// that each is one of them.
#[derive(Drop)]
pub(crate) struct Numbers<K: Room, A: Allocator> {
    channel: Receiver<Sent<K>, A>,
    sent: usize,
    crew: PhantomData<K>,
    ghost all: { sent ≡ K.room },
}

impl<K: Room, A: Allocator + Copy> Numbers<K, A> {
    /// These numbers in a channel that is closed.
    pub(crate) fn new<R: Wait>(rt: &R, alloc: A, numbers: &[u64]) -> Result<Self, AllocError>
        requires all { length numbers.now ≡ K.room }
        requires given { numbers.now ≡ K.numbers }
    {
        let (sender, channel) = bounded(alloc, numbers.len().max(1))?;
        let mut sent = 0;
        for number in numbers {
            let item = Sent {
                number: *number,
                crew: PhantomData,
            };
            if sender.send(rt, item).is_err() {
                return Err(AllocError);
            }
            sent += 1;
        }
        Ok(Numbers {
            channel,
            sent,
            crew: PhantomData,
        })
    }
}

impl<K: Room, B: Ledger, A: Allocator> Member<K, B, A> {
    /// A worker that hasn't begun.
    pub(crate) fn new(worked: Worked<B, A>) -> Self
        requires within { IsWithin K.room (lists_of worked) }
        requires none { IsIdle worked }
        ensures { result.worked ≡ worked }
    {
        Member {
            has_begun: false,
            worked,
            crew: PhantomData,
        }
    }

    /// Whether it has begun, and what it has done.
    pub(crate) fn parted(self) -> (bool, Worked<B, A>)
        ensures begun { result.0 ≡ self.has_begun }
        ensures same { result.1 ≡ self.worked }
        ensures within { IsWithin K.room (lists_of result.1) }
        ensures before { HasSettledNone result.0 result.1 }
    {
        let Member {
            has_begun,
            worked,
            crew: _,
        } = self;
        (has_begun, worked)
    }
}

impl<K: Room, B: Ledger, A: Allocator + Copy> Member<K, B, A> {
    /// Works at the numbers, until it has a reason to stop.
    pub(crate) fn work<R: Wait, S: BuildHasher, G: Gate>(
        &mut self,
        rt: &R,
        station: &Station<B, S, A>,
        numbers: &Numbers<K, A>,
        gate: &G,
    )
        ensures more { IsMore self.old.worked self.new.worked }
        ensures turns { HasWorked (Some K.numbers) station.now self.old.worked self.new.worked }
        ensures stopped { HasStopped self.new.worked }
        ensures begun { self.new.has_begun ≡ true }
    {
        self.has_begun = true;
        work_on(rt, station, &numbers.channel, gate, &mut self.worked);
    }
}
