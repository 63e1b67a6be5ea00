// A worker asks the gate before it asks a gateway's book: whatever a try grows is grown after that.
ghost use Rattle.std.specs.Prelude.{◌≡◌};

use bumpalo::Bump;
use server_workers::{Blank, Gate, Ledger, PARTS, Station, Till};
use std::alloc::Global;
use std::marker::Brand;
use std::sync::Wait;
use std::sync::atomic::{AtomicU64, Ordering};
use std::test::Fail;
use test_asserts::holds;
use worked_inputs::{COPY, WorkedHasher, device, hasher, settings_of, uplink};

/// More than a station of one device takes.
const AMPLE_BYTES: usize = 1 << 20;

/// Notes how many bytes an arena has left when a worker asks, and when it has left the gateway.
#[derive(Drop)]
struct Meter<'a> {
    arena: &'a Bump<Global>,
    asked: AtomicU64,
    done: AtomicU64,
}

impl<'a> Meter<'a> {
    /// One that noted nothing.
    fn new(arena: &'a Bump<Global>) -> Self {
        Meter {
            arena,
            asked: AtomicU64::new(0),
            done: AtomicU64::new(0),
        }
    }

    /// How many bytes were taken between the two.
    fn taken(&self) -> u64 {
        let asked = self.asked.load(Ordering::SeqCst);
        asked.saturating_sub(self.done.load(Ordering::SeqCst))
    }
}

impl Gate for Meter<'_> {
    fn inside(&self, _gateway: u16) -> bool {
        self.asked
            .store(self.arena.chunk_capacity() as u64, Ordering::SeqCst);
        true
    }

    fn left(&self, _gateway: u16) {
        self.done
            .store(self.arena.chunk_capacity() as u64, Ordering::SeqCst);
    }
}

/// A station that takes its memory from an arena.
type ArenaStation<'a, B> = Station<B, WorkedHasher, &'a Bump<Global>>;

/// Such a station of one device answers an uplink: how many bytes the try took after the gate was asked.
fn taken_from<'a, B: Ledger, R: Wait>(
    rt: &R,
    alloc: Global,
    arena: &'a Bump<Global>,
    blank: Blank,
) -> Result<u64, Fail>
    requires name { blank.name ≡ B.name }
    requires parts { blank.parts ≡ B.parts }
    requires all { blank.parts ≡ PARTS }
{
    let (station, till) = station_of::<B>(alloc, arena, blank)?;
    hear(rt, alloc, &station)?;
    Ok(taken_by_the_answer(rt, arena, &station, till))
}

/// A station of one device that takes its memory from this arena, and its till.
fn station_of<'a, B: Ledger>(
    alloc: Global,
    arena: &'a Bump<Global>,
    blank: Blank,
) -> Result<(ArenaStation<'a, B>, Till<B>), Fail>
    requires name { blank.name ≡ B.name }
    requires parts { blank.parts ≡ B.parts }
    requires all { blank.parts ≡ PARTS }
{
    let settings = settings_of(alloc, &[device(1)])?;
    Ok(ArenaStation::<'a, B>::new(arena, hasher(), &settings, blank)?)
}

/// An uplink is heard and closed.
fn hear<B: Ledger, R: Wait>(
    rt: &R,
    alloc: Global,
    station: &ArenaStation<'_, B>,
) -> Result<(), Fail> {
    let bytes = uplink(alloc, true, 1, 0)?;
    station.hear(rt, bytes.as_slice(), COPY, 0)?;
    station.pass(rt, 200_001);
    Ok(())
}

/// It is answered: how many bytes the try took after the gate was asked.
fn taken_by_the_answer<'a, B: Ledger, R: Wait>(
    rt: &R,
    arena: &'a Bump<Global>,
    station: &ArenaStation<'a, B>,
    till: Till<B>,
) -> u64 {
    let mut till = till;
    let meter = Meter::new(arena);
    station.answer(rt, &meter, 1, &mut till, &mut 0);
    meter.taken()
}

/// The same, of an arena of its own.
fn taken_at_the_gate<B: Ledger, R: Wait>(rt: &R, alloc: Global, blank: Blank) -> Result<u64, Fail>
    requires name { blank.name ≡ B.name }
    requires parts { blank.parts ≡ B.parts }
    requires all { blank.parts ≡ PARTS }
{
    let arena = Bump::try_with_capacity(alloc, AMPLE_BYTES)?;
    taken_from::<B, R>(rt, alloc, &arena, blank)
}

#[test]
fn a_worker_asks_the_gate_before_the_book(rt: HostRuntime) -> Result<(), Fail> {
    let taken = taken_at_the_gate::<Brand, _>(&rt, rt.alloc(), Blank::new(PARTS as u64))?;
    // A frame of 12 bytes, and the book's place for the reservation.
    holds(taken > 12)?;
    Ok(())
}
