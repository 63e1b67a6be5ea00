// Gates at which workers stop.

use server_workers::{Gate, Handled, Ledger, Station, Till};
use std::alloc::Allocator;
use std::sync::Wait;
use std::sync::atomic::{AtomicU64, Ordering};
use worked_inputs::WorkedHasher;

/// Lets in whoever asks for the n-th time at a gateway, nobody where n is 0; counts how often it was asked for each.
#[derive(Drop)]
pub(crate) struct Shut {
    opens: u64,
    first: AtomicU64,
    second: AtomicU64,
}

impl Shut {
    /// A gate at which nobody has asked. It lets in whoever asks for the time of this number; nobody where it is 0.
    pub(crate) fn new(opens: u64) -> Self {
        Shut {
            opens,
            first: AtomicU64::new(0),
            second: AtomicU64::new(0),
        }
    }

    /// How often it was asked for the gateways 1 and 2.
    pub(crate) fn asked(&self) -> [u64; 2] {
        [
            self.first.load(Ordering::SeqCst),
            self.second.load(Ordering::SeqCst),
        ]
    }
}

impl Gate for Shut {
    fn inside(&self, gateway: u16) -> bool {
        let asked = if gateway == 1 {
            &self.first
        } else {
            &self.second
        };
        asked.fetch_add(1, Ordering::SeqCst).wrapping_add(1) == self.opens
    }

    fn left(&self, _gateway: u16) {}
}

/// For so many looks who asks keeps the gate: long enough for another worker to come.
const LOOKS: u32 = 10_000_000;

/// Lets everybody in, slowly, and notes whether two ask at once. Who asks has the gateway's lock, so at one gateway nobody meets
/// another.
#[derive(Drop)]
pub(crate) struct Narrow {
    asking: AtomicU64,
    crowded: AtomicU64,
}

impl Narrow {
    /// A gate at which nobody has asked.
    pub(crate) fn new() -> Self {
        Narrow {
            asking: AtomicU64::new(0),
            crowded: AtomicU64::new(0),
        }
    }

    /// Whether two asked at once.
    pub(crate) fn was_crowded(&self) -> bool {
        self.crowded.load(Ordering::SeqCst) > 0
    }
}

impl Gate for Narrow {
    fn inside(&self, _gateway: u16) -> bool {
        if self.asking.fetch_add(1, Ordering::SeqCst) > 0 {
            self.crowded.store(1, Ordering::SeqCst);
        }
        for _ in 0..LOOKS {
            self.asking.load(Ordering::SeqCst);
        }
        self.asking.fetch_sub(1, Ordering::SeqCst);
        true
    }

    fn left(&self, _gateway: u16) {}
}

/// Notes who goes where, on one thread: a digit for each call, the gateway's number for `inside` and 5 more for `left`.
#[derive(Drop)]
pub(crate) struct Log {
    calls: AtomicU64,
}

impl Log {
    /// Nobody went anywhere.
    pub(crate) fn new() -> Self {
        Log {
            calls: AtomicU64::new(0),
        }
    }

    /// Notes a digit.
    fn note(&self, digit: u64) {
        let calls = self.calls.load(Ordering::SeqCst);
        self.calls.store(calls.wrapping_mul(10).wrapping_add(digit), Ordering::SeqCst);
    }

    /// The digits so far.
    pub(crate) fn calls(&self) -> u64 {
        self.calls.load(Ordering::SeqCst)
    }
}

impl Gate for Log {
    fn inside(&self, gateway: u16) -> bool {
        self.note(gateway as u64);
        true
    }

    fn left(&self, gateway: u16) {
        self.note(gateway as u64 + 5);
    }
}

/// Notes who goes where, and asks the station for what a gateway has booked when a worker has left it, and keeps that.
#[derive(Drop)]
struct Auditor<'a, B: Ledger, A: Allocator + Copy, R: Wait> {
    rt: &'a R,
    station: &'a Station<B, WorkedHasher, A>,
    log: Log,
    booked: AtomicU64,
}

impl<B: Ledger, A: Allocator + Copy, R: Wait> Gate for Auditor<'_, B, A, R> {
    fn inside(&self, gateway: u16) -> bool {
        self.log.inside(gateway)
    }

    fn left(&self, gateway: u16) {
        self.log.left(gateway);
        if let Ok(totals) = self.station.totals(self.rt, gateway, 0) {
            self.booked.store(totals.booked, Ordering::SeqCst);
        }
    }
}

/// A number is answered at such a gate: what became of it, who went where, and what the gate was told that is booked.
pub(crate) fn audited<B: Ledger, A: Allocator + Copy, R: Wait>(
    rt: &R,
    station: &Station<B, WorkedHasher, A>,
    till: &mut Till<B>,
    number: u64,
) -> (Handled<A>, [u64; 2]) {
    let auditor = Auditor {
        rt,
        station,
        log: Log::new(),
        booked: AtomicU64::new(0),
    };
    let handled = station.answer(rt, &auditor, number, till, &mut 0);
    let booked = auditor.booked.load(Ordering::SeqCst);
    (handled, [auditor.log.calls(), booked])
}
