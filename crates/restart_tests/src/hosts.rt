// A host that notes what it is asked to do, and may be unable to.
ghost use Rattle.std.specs.Prelude.{◌≡◌, ◌≤◌, length};

use serve_turns::{Came, Endpoint, Host};
use std::alloc::Global;
use std::test::Fail;
use test_asserts::{equal_at, holds};
use text_lines::CallFailed;

/// What a host is asked to do.
#[derive(Clone, Copy, Debug, PartialEq, Eq)]
pub(crate) enum Deed {
    Rest,
    Acknowledge,
    Append,
    Sync,
    Replace,
    Send,
    Tell,
}

/// Something that is to be asked: what, the port that it goes to, if it goes to one, and its bytes in two parts.
pub(crate) type Wanted = (Deed, u16, &'static [u8], &'static str);

/// A datagram: the port that it comes from, its head, and what stands behind it.
pub(crate) type Coming = (u16, &'static [u8], &'static str);

/// What the server's clock shows in a turn, the datagram that comes, if one does, and what is to be asked, in order.
pub(crate) type Turn = (u64, Option<Coming>, &'static [Wanted]);

/// Something that was asked.
#[derive(Drop)]
struct Asked {
    deed: Deed,
    port: u16,
    bytes: Vec<u8>,
}

/// The world of one turn.
#[derive(Drop)]
pub(crate) struct Noting {
    alloc: Global,
    now: u64,
    came: Option<Coming>,
    /// What can't be done.
    broken: Option<Deed>,
    asked: Vec<Asked>,
}

impl Noting {
    /// A world in which nothing was asked yet.
    pub(crate) fn new(alloc: Global, now: u64, came: Option<Coming>, broken: Option<Deed>) -> Self {
        Noting {
            alloc,
            now,
            came,
            broken,
            asked: Vec::new(alloc),
        }
    }

    /// Notes what is asked, and answers whether it can be done.
    fn ask(&mut self, deed: Deed, port: u16, bytes: &[u8]) -> bool {
        let Ok(bytes) = Vec::from_slice(self.alloc, bytes) else {
            return false;
        };
        let is_noted = self.asked.push(Asked { deed, port, bytes }).is_ok();
        is_noted && self.broken != Some(deed)
    }

    /// Just this was asked, in this order.
    pub(crate) fn was_asked(&self, wanted: &[Wanted]) -> Result<(), Fail> {
        self.was_asked_first(wanted)?;
        equal_at(&self.now, &self.asked.len(), &wanted.len())
    }

    /// A front of this was asked.
    pub(crate) fn was_asked_first(&self, wanted: &[Wanted]) -> Result<(), Fail> {
        for (asked, wanted) in self.asked.iter().zip(wanted) {
            equal_at(&self.now, &(asked.deed, asked.port), &(wanted.0, wanted.1))?;
            equal_at(
                &self.now,
                &asked.bytes.as_slice().strip_prefix(wanted.2),
                &Some(wanted.3.as_bytes()),
            )?;
        }
        holds(self.asked.len() <= wanted.len())
    }
}

impl Host for Noting {
    fn receive(&mut self, into: &mut [u8]) -> Option<Came> {
        let (port, head, rest) = self.came?;
        let at = put(head, into);
        let len = at + put(rest.as_bytes(), &mut into[at..]);
        let source = Endpoint {
            ip: [127, 0, 0, 1],
            port,
        };
        Some(Came { source, len })
    }

    fn rest(&mut self) {
        let _ = self.ask(Deed::Rest, 0, b"");
    }

    fn now(&mut self) -> Option<u64> {
        Some(self.now)
    }

    fn acknowledge(&mut self, to: Endpoint, bytes: &[u8]) {
        let _ = self.ask(Deed::Acknowledge, to.port, bytes);
    }

    fn append(&mut self, bytes: &[u8]) -> bool {
        self.ask(Deed::Append, 0, bytes)
    }

    fn sync(&mut self) -> bool {
        self.ask(Deed::Sync, 0, b"")
    }

    fn replace(&mut self, journal: &[u8]) -> bool {
        self.ask(Deed::Replace, 0, journal)
    }

    fn send(&mut self, to: Endpoint, bytes: &[u8]) -> bool {
        self.ask(Deed::Send, to.port, bytes)
    }

    fn tell(&mut self, lines: &[u8]) -> Result<(), CallFailed> {
        if self.ask(Deed::Tell, 0, lines) {
            return Ok(());
        }
        Err(CallFailed)
    }
}

/// Puts as much of some bytes as there is room for into the front of `into`.
fn put(bytes: &[u8], into: &mut [u8]) -> usize
    ensures room { result ≤ length into.old }
    ensures len { length into.new ≡ length into.old }
{
    let count = bytes.len().min(into.len());
    into[..count].copy_from_slice(&bytes[..count]);
    count
}
