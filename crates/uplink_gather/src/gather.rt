ghost use Rattle.std.specs.Prelude.{◌≡◌, ◌+◌, ◌<◌, [], ◌∷◌, ◌++◌, length, Some, MatchResult, MatchBool, IfOk, IsOkAnd, IsSome};
ghost use Rattle.std.specs.Prelude.{OnOk, OnErr, IsOkUnless};
ghost use Rattle.uplink_gather.specs.Gatherings.{numbered, rewritten, due_of, is_open_at, is_closed_at, bytes_of, copies_of};
ghost use Rattle.uplink_gather.specs.Gatherings.{close_step};
ghost use Rattle.uplink_gather.specs.Hearing.{place_of, is_crowded, hear_answer, after_hearing, opening, with_copy};

use crate::newest::Newest;
use crate::stored::{Stored, make_room};
use crate::{HearFault, Heard, HeardCopy, Limits, Place, rules};
use std::alloc::{AllocError, Allocator, Global};
use std::hash::BuildHasher;
use std::marker::Model;

/// A growth was refused: there was no memory.
pub type NoMemory = AllocError;

/// The gatherings of a desk: the copies of one uplink, those with equal bytes, that its gateways heard
/// (this project's profile). All moments are in microseconds of the server's clock, any u64; arrivals may
/// come in any order.
///
/// What is closed costs nothing any more: the newest gathering of some bytes is found by their hash, and
/// what is due among those that aren't closed, whose numbers stand in a list of their own. So `copies`,
/// `bytes` and `is_closed` take the time of one look-up, `place` and `hear` that and the time of the copies
/// of one gathering, `due` and `close` at most that of the unclosed, of which `max_open` bounds the count.
#[derive(Drop)]
pub struct Gather<S: BuildHasher, A: Allocator = Global> {
    limits: Limits,
    newest: Newest<S, A>,
    stored: Vec<Stored<A>, A>,
    /// The numbers of those that aren't closed, in rising order.
    unclosed: Vec<u64, A>,
}

impl<S: BuildHasher, A: Allocator> Model for Gather<S, A> {
    ghost use Rattle.std.specs.Prelude.{map};
    ghost use Rattle.uplink_gather.specs.Gatherings.{Gatherings};
    ghost use Rattle.uplink_gather.specs.Indexed.{IsWhole, shown};

    ghost Value = { Gatherings };

    ghost view = { λ g. record { list = map (shown g.newest) g.stored.items; limits = g.limits } };

    ghost invariant = { λ g. IsWhole g.limits g.newest g.stored.items g.unclosed.items };
}

impl<S: BuildHasher, A: Allocator + Copy> Gather<S, A> {
    /// No gatherings yet. It takes no memory, so that it never answers Err.
    pub fn new(alloc: A, hasher: S, limits: Limits) -> Result<Self, NoMemory>
        ensures { IsOkAnd result (λ g. g ≡ record { list = []; limits = limits }) }
    {
        Ok(Gather {
            limits,
            newest: Newest::new(alloc, hasher),
            stored: Vec::new(alloc),
            unclosed: Vec::new(alloc),
        })
    }

    /// Takes a copy in, with the bytes of its uplink and the moment of its arrival on the server's clock,
    /// or answers the first fault that holds, in the order of `HearFault`. A fault changes nothing;
    /// `NoMemory` comes only where a growth was refused.
    pub fn hear(&mut self, bytes: &[u8], copy: HeardCopy, arrived: u64) -> Result<Heard, HearFault>
        ensures answer { MatchResult (hear_answer self.old bytes.now copy.gateway arrived)
            (λ _. IsOkUnless result HearFault.NoMemory) (λ fault. result ≡ Err fault) }
        ensures told { IfOk result (λ heard. hear_answer self.old bytes.now copy.gateway arrived ≡ Ok heard) }
        ensures step { self.new ≡ after_hearing result self.old bytes.now copy arrived }
        ensures refused { OnErr result (self.new ≡ self.old) }
    {
        match self.place(bytes, copy.gateway, arrived) {
            Ok(place) => self.hear_at(place, bytes, copy, arrived),
            Err(fault) => Err(fault),
        }
    }

    /// As `hear`, for a caller that has what `place` answered for just these bytes, this gateway and this arrival, so that the
    /// bytes aren't looked up again.
    pub fn hear_at(
        &mut self,
        place: Place,
        bytes: &[u8],
        copy: HeardCopy,
        arrived: u64,
    ) -> Result<Heard, HearFault>
        requires { place_of self.old bytes.now copy.gateway arrived ≡ Ok place }
        ensures answer { MatchResult (hear_answer self.old bytes.now copy.gateway arrived)
            (λ _. IsOkUnless result HearFault.NoMemory) (λ fault. result ≡ Err fault) }
        ensures told { IfOk result (λ heard. hear_answer self.old bytes.now copy.gateway arrived ≡ Ok heard) }
        ensures step { self.new ≡ after_hearing result self.old bytes.now copy arrived }
        ensures refused { OnErr result (self.new ≡ self.old) }
    {
        match place {
            Place::Joins(n) => self.join(n, copy),
            Place::Opens => self.begin(bytes, copy, arrived),
        }
    }

    /// Puts a copy behind those of gathering `n`.
    fn join(&mut self, n: u64, copy: HeardCopy) -> Result<Heard, HearFault>
        requires { IsSome (numbered n self.old.list) }
        ensures unless { IsOkUnless result HearFault.NoMemory }
        ensures told { IfOk result (λ heard. heard ≡ Heard.Joined n (length (copies_of n self.old.list) + 1)) }
        ensures joined { OnOk result (self.new ≡ record self.old { list = rewritten (with_copy copy) n self.old.list }) }
        ensures refused { OnErr result (self.new ≡ self.old) }
    {
        let gathering = &mut self.stored[rules::index_of(n)];
        if make_room(&mut gathering.copies).is_err() {
            return Err(HearFault::NoMemory);
        }
        gathering.copies.push_reserved(copy);
        Ok(Heard::Joined {
            n,
            copies: gathering.copies.len(),
        })
    }

    /// Opens a gathering, where there may be one more. All growths come before the first change.
    fn begin(&mut self, bytes: &[u8], copy: HeardCopy, arrived: u64) -> Result<Heard, HearFault>
        ensures crowded { MatchBool (is_crowded self.old) (result ≡ Err HearFault.Crowded)
            (IsOkUnless result HearFault.NoMemory) }
        ensures told { IfOk result (λ heard. heard ≡ Heard.Opened (length self.old.list + 1)) }
        ensures opened { OnOk result
            (self.new ≡ record self.old { list = self.old.list ++ opening bytes.now copy arrived ∷ [] }) }
        ensures refused { OnErr result (self.new ≡ self.old) }
    {
        if self.is_crowded() {
            return Err(HearFault::Crowded);
        }
        match self.append(bytes, copy, arrived) {
            Ok(n) => Ok(Heard::Opened { n }),
            Err(_) => Err(HearFault::NoMemory),
        }
    }

    /// The number of one more gathering, which this copy opens.
    fn append(&mut self, bytes: &[u8], copy: HeardCopy, arrived: u64) -> Result<u64, NoMemory>
        requires { length self.old.list < self.old.limits.max_ever }
        ensures told { IfOk result (λ n. n ≡ length self.old.list + 1) }
        ensures opened { OnOk result
            (self.new ≡ record self.old { list = self.old.list ++ opening bytes.now copy arrived ∷ [] }) }
        ensures refused { OnErr result (self.new ≡ self.old) }
    {
        let n = self.stored.len() as u64 + 1;
        let copies = Vec::from_slice(*self.stored.allocator(), &[copy])?;
        self.stored.reserve(1)?;
        self.unclosed.reserve(1)?;
        let text = self.newest.renew(bytes, n)?;
        self.stored.push_reserved(Stored {
            text,
            opened: arrived,
            closed: false,
            copies,
        });
        self.unclosed.push_reserved(n);
        Ok(n)
    }
}

impl<S: BuildHasher, A: Allocator> Gather<S, A> {
    /// Where a copy of these bytes goes that `gateway` heard and that arrived at this moment, or the first
    /// of `SameGateway`, `TooManyCopies` and `Late` that holds. Takes no memory.
    pub fn place(&self, bytes: &[u8], gateway: u16, arrived: u64) -> Result<Place, HearFault>
        ensures { result ≡ place_of self.now bytes.now gateway arrived }
    {
        match self.newest.number_of(bytes) {
            None => Ok(Place::Opens),
            Some(n) => rules::place_by(
                &self.stored[rules::index_of(n)],
                n,
                &self.limits,
                gateway,
                arrived,
            ),
        }
    }

    /// The least number of a gathering that is due: one that isn't closed, and that opened more than
    /// 200,000 µs before `now`. Takes no memory.
    pub fn due(&self, now: u64) -> Option<u64>
        ensures { result ≡ due_of now self.now.list }
    {
        rules::first_due(&self.unclosed, &self.stored, now)
    }

    /// Closes gathering `n`, and answers whether there was such a gathering that wasn't closed; else
    /// nothing changes. Takes no memory.
    pub fn close(&mut self, n: u64) -> bool
        ensures answer { result ≡ is_open_at n self.old.list }
        ensures step { self.new ≡ close_step self.old n }
    {
        match self.unclosed.binary_search(&n) {
            Ok(place) => {
                self.unclosed.remove(place);
                self.stored[rules::index_of(n)].closed = true;
                true
            }
            Err(_) => false,
        }
    }

    /// The copies of gathering `n`, in the order in which they joined; none where there is no such
    /// gathering. Takes no memory.
    pub fn copies(&self, n: u64) -> &[HeardCopy]
        ensures { result.now ≡ copies_of n self.now.list }
    {
        match rules::numbered(&self.stored, n) {
            Some(gathering) => gathering.copies.as_slice(),
            None => &[],
        }
    }

    /// The bytes of the uplink of gathering `n`; none where there is no such gathering. Takes no memory.
    pub fn bytes(&self, n: u64) -> &[u8]
        ensures { result.now ≡ bytes_of n self.now.list }
    {
        match rules::numbered(&self.stored, n) {
            Some(gathering) => self.newest.text(gathering.text),
            None => &[],
        }
    }

    /// Whether gathering `n` is there and closed. Takes no memory.
    pub fn is_closed(&self, n: u64) -> bool
        ensures { result ≡ is_closed_at n self.now.list }
    {
        match rules::numbered(&self.stored, n) {
            Some(gathering) => gathering.closed,
            None => false,
        }
    }

    /// Whether as many are unclosed, or were ever opened, as may be. Takes no memory.
    pub fn is_crowded(&self) -> bool
        ensures { result ≡ is_crowded self.now }
    {
        self.unclosed.len() >= self.limits.max_open as usize
            || self.stored.len() >= self.limits.max_ever as usize
    }
}
