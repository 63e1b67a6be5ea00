// Where a worker stops before it asks a gateway's book.
ghost use Rattle.std.specs.Prelude.{◌≡◌, true};

use std::thread::yield_now;

/// How often a worker asks at most, per try, whether it may go on.
pub const MAX_TURNS: u32 = 10_000_000;

/// What is told of the workers at the gateways, and may hold them up for a while. Each try at a gateway of the station
/// first calls `inside`, then asks the gateway's book, and then calls `left`.
pub trait Gate {
    /// A worker has this gateway's lock, and is about to ask the gateway's book. Where this answers false it is asked
    /// again, up to `MAX_TURNS` times per try. The lock is held meanwhile, so this must not call the station for this
    /// gateway: it would wait for itself.
    fn inside(&self, gateway: u16) -> bool;

    /// A worker has asked this gateway's book, and released the gateway's lock. It is called once per try, however that ended.
    /// The worker holds no lock, so this may call the station.
    fn left(&self, gateway: u16);
}

/// A gate that holds nobody up.
#[derive(Clone, Copy, Debug, PartialEq, Eq)]
pub struct NoGate;

impl Gate for NoGate {
    /// Lets everybody go on; takes no memory.
    fn inside(&self, _gateway: u16) -> bool
        ensures { result ≡ true }
    {
        true
    }

    /// Does nothing; takes no memory.
    fn left(&self, _gateway: u16) {}
}

/// Asks at a gate until it lets the worker go on, at most `MAX_TURNS` times; whether it did.
pub(crate) fn is_let_in<G: Gate>(gate: &G, gateway: u16) -> bool {
    for _ in 0..MAX_TURNS {
        if gate.inside(gateway) {
            return true;
        }
        yield_now();
    }
    false
}
