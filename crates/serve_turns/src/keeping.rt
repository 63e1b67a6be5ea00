// What a server knows of its journal.
ghost use Rattle.std.specs.Prelude.{◌≡◌, length};
ghost use Rattle.serve_turns.specs.Kept.{room_behind, with_added, with_failure, with_kept_back, kept_after, is_renewed, is_renewed_at};
ghost use Rattle.serve_turns.specs.Opening.{unwritten};

use std::alloc::Allocator;
use std::marker::Model;

/// How many bytes may be added behind a whole journal, whatever its length: 1 MiB.
const LEAST_ROOM: u64 = 1 << 20;

/// How long after a failure the journal is written anew, in microseconds.
const RENEWED_EVERY: u64 = 10_000_000;

/// What a server knows of its journal.
#[derive(Drop)]
pub(crate) struct Keeping<A: Allocator> {
    /// What tells each device's session from others of the same address, by DevAddr.
    sessions: Vec<(u32, [u8; 4]), A>,
    /// How many bytes may be added before the journal is written anew.
    left: u64,
    /// What the server's clock showed, in microseconds, when a write failed; None where none did, or one succeeded since.
    failed_at: Option<u64>,
}

impl<A: Allocator> Model for Keeping<A> {
    ghost use Rattle.serve_turns.specs.Kept.{Kept};

    ghost Value = { Kept };

    ghost view = { λ k. record { sessions = k.sessions.items; left = k.left; failed_at = k.failed_at } };
}

impl<A: Allocator> Keeping<A> {
    /// A journal that is still to be written: until then nothing is sent.
    pub(crate) fn new(sessions: Vec<(u32, [u8; 4]), A>) -> Self
        ensures { result ≡ unwritten sessions.items }
    {
        Keeping {
            sessions,
            left: 0,
            failed_at: Some(0),
        }
    }

    /// What tells each device's session from others of the same address.
    pub(crate) fn sessions(&self) -> &[(u32, [u8; 4])]
        ensures { result.now ≡ self.now.sessions }
    {
        &self.sessions
    }

    /// When a write failed, if the last one did.
    pub(crate) fn failed_at(&self) -> Option<u64>
        ensures { result ≡ self.now.failed_at }
    {
        self.failed_at
    }

    /// So many bytes were added.
    pub(crate) fn add(&mut self, len: u64)
        ensures { self.new ≡ with_added len self.old }
    {
        self.left = self.left.saturating_sub(len);
    }

    /// Something was kept back, or nothing was: what its device gave stands in no batch, so the journal is to be written anew.
    pub(crate) fn keep_back(&mut self, any: bool)
        ensures { self.new ≡ with_kept_back any self.old }
    {
        if any {
            self.left = 0;
        }
    }

    /// A write failed when the server's clock showed `now`.
    pub(crate) fn fail(&mut self, now: u64)
        ensures { self.new ≡ with_failure now self.old }
    {
        self.failed_at = Some(now);
    }

    /// A whole journal was put in place when the server's clock showed `now`, or that failed.
    pub(crate) fn renew(&mut self, now: u64, journal: &[u8], is_done: bool)
        ensures { self.new ≡ kept_after now is_done (length journal.now) self.old }
    {
        if !is_done {
            self.failed_at = Some(now);
            return;
        }
        self.left = room_behind(journal.len() as u64);
        self.failed_at = None;
    }

    /// Whether the journal is to be written anew when the server's clock shows `now`: 10 s after a failure, and else where there is
    /// no more room.
    pub(crate) fn is_renewed(&self, now: u64) -> bool
        ensures { result ≡ is_renewed now self.now }
    {
        is_renewed_at(now, self.failed_at, self.left)
    }
}

/// The same by when a write failed, and by how many bytes may be added.
fn is_renewed_at(now: u64, failed_at: Option<u64>, left: u64) -> bool
    ensures { result ≡ is_renewed_at now failed_at left }
{
    match failed_at {
        None => left == 0,
        Some(at) => RENEWED_EVERY <= now.saturating_sub(at),
    }
}

/// How many bytes may be added behind a whole journal of so many: four times as many, and 1 MiB at least.
fn room_behind(len: u64) -> u64
    ensures { result ≡ room_behind len }
{
    LEAST_ROOM.max(len.saturating_mul(4))
}
