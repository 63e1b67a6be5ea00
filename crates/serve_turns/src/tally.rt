// What was dropped, counted by name.
ghost use Rattle.std.specs.Prelude.{◌≡◌, ◌<◌, length, position, IfSome, OnOk};
ghost use Rattle.serve_turns.specs.Tallies.{is_named, one_more, dropped_by};

use forwarder_sessions::NoMemory;
use std::alloc::Allocator;
use std::marker::Model;

/// How often something was dropped for one reason.
#[derive(Drop, Debug)]
pub(crate) struct Tally {
    /// The reason's name.
    pub(crate) name: &'static [u8],
    /// How often, up to 2^64 - 1.
    pub(crate) count: u64,
    /// The EUI of the last one, where it has one.
    pub(crate) last: Option<[u8; 8]>,
}

impl Model for Tally {
    ghost use Rattle.serve_turns.specs.Tallies.{Count};

    ghost Value = { Count };

    ghost view = { λ t. record { name = t.name.now; count = t.count; last = t.last } };
}

impl Tally {
    /// Whether this is the reason's name.
    fn is_named(&self, name: &[u8]) -> bool
        ensures { result ≡ is_named name.now self.now }
    {
        self.name == name
    }

    /// Counts one more.
    fn count_one(&mut self, eui: Option<[u8; 8]>)
        ensures { self.new ≡ one_more eui self.old }
    {
        self.count = self.count.saturating_add(1);
        self.last = eui;
    }
}

/// Counts that something was dropped for the reason with this name.
pub(crate) fn count_drop<A: Allocator>(
    drops: &mut Vec<Tally, A>,
    name: &'static [u8],
    eui: Option<[u8; 8]>,
) -> Result<(), NoMemory>
    ensures { OnOk result (drops.new.items ≡ dropped_by name.now eui drops.old.items) }
{
    match place_of(drops, name) {
        Some(place) => {
            drops[place].count_one(eui);
            Ok(())
        }
        None => Ok(drops.push(Tally {
            name,
            count: 1,
            last: eui,
        })?),
    }
}

/// The place of the reason with this name.
fn place_of(drops: &[Tally], name: &[u8]) -> Option<usize>
    ensures found { result ≡ position (is_named name.now) drops.now }
    ensures within { IfSome result (λ place. place < length drops.now) }
{
    drops.iter().position(|tally| tally.is_named(name))
}
