// A gate at which workers meet, each at a gateway of its own: each lets the others go on.

use server_workers::Gate;
use std::sync::atomic::{AtomicU64, Ordering};

/// Lets a worker go on once so many of the gateways 1 to 3 have one; counts who has left, and marks whether one found all of
/// them inside while nobody had left.
#[derive(Drop)]
pub(crate) struct Meeting {
    workers: u64,
    /// 1 for each gateway where one is or was.
    there: [AtomicU64; 3],
    met: AtomicU64,
    left: [AtomicU64; 3],
}

impl Meeting {
    /// Nobody of so many is there yet.
    pub(crate) fn new(workers: u8) -> Self {
        Meeting {
            workers: workers as u64,
            there: zeros(),
            met: AtomicU64::new(0),
            left: zeros(),
        }
    }

    /// Whether all were inside at once, and how many left each gateway.
    pub(crate) fn told(&self) -> [u64; 4] {
        let [first, second, third] = values(&self.left);
        [self.met.load(Ordering::SeqCst), first, second, third]
    }
}

impl Gate for Meeting {
    fn inside(&self, gateway: u16) -> bool {
        cell(&self.there, gateway).store(1, Ordering::SeqCst);
        let [first, second, third] = values(&self.there);
        let are_all_in = first.wrapping_add(second).wrapping_add(third) == self.workers;
        if are_all_in && values(&self.left) == [0; 3] {
            self.met.store(1, Ordering::SeqCst);
        }
        are_all_in
    }

    fn left(&self, gateway: u16) {
        cell(&self.left, gateway).fetch_add(1, Ordering::SeqCst);
    }
}

/// A nought for each gateway.
fn zeros() -> [AtomicU64; 3] {
    [AtomicU64::new(0), AtomicU64::new(0), AtomicU64::new(0)]
}

/// What is counted for each gateway.
fn values(cells: &[AtomicU64; 3]) -> [u64; 3] {
    let [first, second, third] = cells;
    [
        first.load(Ordering::SeqCst),
        second.load(Ordering::SeqCst),
        third.load(Ordering::SeqCst),
    ]
}

/// What counts for this gateway.
fn cell(cells: &[AtomicU64; 3], gateway: u16) -> &AtomicU64 {
    let [first, second, third] = cells;
    match gateway {
        1 => first,
        2 => second,
        _ => third,
    }
}
