// Datagrams in memory.
ghost use Rattle.std.specs.Prelude.{◌≤◌, length, None};

use airbook_text::Source;

/// Datagrams in memory, one after another; None stands for a receive that fails, as each does after the last.
#[derive(Drop)]
pub(crate) struct Datagrams<'a> {
    given: &'a [Option<&'a [u8]>],
    /// How many receives were made, up to 2^64 - 1.
    pub(crate) receives: u64,
}

impl<'a> Datagrams<'a> {
    /// None was received yet.
    pub(crate) fn new(given: &'a [Option<&'a [u8]>]) -> Self {
        Datagrams { given, receives: 0 }
    }
}

impl Source for Datagrams<'_> {
    ghost seen = { λ s. record { receives = s.receives; received = None } };

    fn next(&mut self, into: &mut [u8]) -> Option<usize> {
        let place = self.receives;
        self.receives = place.saturating_add(1);
        match self.given.get(place as usize) {
            Some(Some(datagram)) => Some(put(datagram, into)),
            _ => None,
        }
    }
}

/// Puts as much of a datagram as there is room for into the front of `into`.
fn put(datagram: &[u8], into: &mut [u8]) -> usize
    ensures { result ≤ length into.new }
{
    let count = datagram.len().min(into.len());
    into[..count].copy_from_slice(&datagram[..count]);
    count
}
