ghost use Rattle.std.specs.Prelude.{◌≡◌, ◌^◌, ◌≤◌, Some, IfSome};
ghost use Rattle.gateway_clock.specs.Clock.{slow, line, top_at, ceiling, opened, heard, within, capped, risen, begun_at, offset_of};
ghost use Rattle.gateway_clock.specs.Clock.{nearest, tmst_of};

use std::marker::Model;

/// How many moments the counter of a packet forwarder tells apart.
const TURN: u64 = 1 << 32;

/// One microsecond in so many is what two clocks may differ by: 100 ppm.
const DRIFT: u64 = 10_000;

/// How late the first packet of a session may be, and how far the ceiling may stand above the line, in microseconds.
const LATEST: u64 = 2_000_000;

/// How far below the line a packet of the same session may be, in microseconds.
const REACH: u64 = 20_000_000;

/// A packet's moment on the clock of the gateway that received it.
#[derive(Clone, Copy, Debug, PartialEq, Eq)]
pub struct Placed {
    /// When it was received, in microseconds of the gateway's clock.
    pub at: u64,
    /// Whether a session begins with it: the counter doesn't go on from where it was, as after a restart of the gateway.
    pub is_new: bool,
}

/// A gateway's own clock in microseconds, as a server that hears its packets may reckon it. The counter in them has 32 bits: it
/// begins anew after 72 minutes, and anywhere after a restart. Between packets the server's own clock tells how much time has
/// passed; the two may differ by 100 ppm. The *line* is what the gateway's clock shows at least, the *ceiling* what it shows at
/// most. A packet from 20 s below the line up to the ceiling goes on with the session. Any other begins a new one, placed 2 s
/// below the line. Takes no memory.
#[derive(Drop, Debug)]
pub struct GatewayClock {
    at: u64,
    since: u64,
    top: u64,
    from: u64,
    offset: Option<u32>,
}

impl Model for GatewayClock {
    ghost use Rattle.gateway_clock.specs.Clock.{Clock, IsClock};

    ghost Value = { Clock };

    ghost view = { λ c. record { at = c.at; since = c.since; top = c.top; from = c.from; offset = c.offset } };

    ghost invariant = { λ c. IsClock (record { at = c.at; since = c.since; top = c.top; from = c.from; offset = c.offset }) };
}

/// How far a clock has come at least in so many microseconds.
fn slow(time: u64) -> u64
    ensures { result ≡ slow time }
{
    time - time / DRIFT
}

impl GatewayClock {
    /// A clock that shows nothing before `high`, in microseconds and at most 2^60, while the server's shows 0. It has no session.
    pub fn new(high: u64) -> Self
        requires { high ≤ 2 ^ 60 }
        ensures { result ≡ opened high }
    {
        GatewayClock {
            at: high,
            since: 0,
            top: high,
            from: 0,
            offset: None,
        }
    }

    /// What the gateway's clock shows at least when the server's shows `a`, both in microseconds; `a` is at most 2^60.
    pub fn line(&self, a: u64) -> u64
        requires { a ≤ 2 ^ 60 }
        ensures value { result ≡ line self.now a }
        ensures small { result ≤ 2 ^ 62 }
    {
        self.at + slow(a.saturating_sub(self.since))
    }

    /// What it had not passed when the ceiling began, and the time since then.
    fn top_at(&self, a: u64) -> u64
        requires { a ≤ 2 ^ 60 }
        ensures value { result ≡ top_at self.now a }
        ensures small { result ≤ 2 ^ 62 }
    {
        let time = a.saturating_sub(self.from);
        self.top + time + time / DRIFT
    }

    /// What the gateway's clock shows at most when the server's shows `a`, both in microseconds; `a` is at most 2^60.
    pub fn ceiling(&self, a: u64) -> u64
        requires { a ≤ 2 ^ 60 }
        ensures { result ≡ ceiling self.now a }
    {
        self.top_at(a).min(self.line(a) + LATEST)
    }

    /// Takes in a packet whose counter is `tmst` and which comes when the server's clock shows `a`, in microseconds and at most
    /// 2^60. That clock never goes back: an `a` before an earlier one counts as that.
    pub fn hear(&mut self, tmst: u32, a: u64) -> Placed
        requires { a ≤ 2 ^ 60 }
        ensures at { result.at ≡ (heard self.old tmst a).at }
        ensures session { result.is_new ≡ (heard self.old tmst a).is_new }
        ensures small { result.at ≤ 2 ^ 63 }
        ensures clock { self.new ≡ (heard self.old tmst a).clock }
    {
        let now = a.max(self.since.max(self.from));
        let found = self.within(now, tmst);
        self.cap(now);
        match found {
            Some(at) => {
                self.rise(now, at);
                Placed { at, is_new: false }
            }
            None => Placed {
                at: self.begin(now, tmst),
                is_new: true,
            },
        }
    }

    /// The counter that stands for a moment of the gateway's clock in this session; None where there is none yet.
    pub fn tmst_of(&self, start: u64) -> Option<u32>
        ensures { result ≡ tmst_of self.now start }
    {
        self.offset.map(|offset| difference(start, offset))
    }

    /// Where a packet with this counter stands in the session, if it goes on with it.
    fn within(&self, now: u64, tmst: u32) -> Option<u64>
        requires { now ≤ 2 ^ 60 }
        ensures { result ≡ within self.now now tmst }
    {
        let line = self.line(now);
        let found = nearest(line, tmst.wrapping_add(self.offset?))?;
        (line <= found + REACH && found <= self.ceiling(now)).then_some(found)
    }

    /// Begins the ceiling anew where the line holds it down.
    fn cap(&mut self, now: u64)
        requires now { now ≤ 2 ^ 60 }
        requires since { self.old.since ≤ now }
        requires from { self.old.from ≤ now }
        ensures { self.new ≡ capped self.old now }
    {
        let top = self.line(now) + LATEST;
        if top <= self.top_at(now) {
            self.top = top;
            self.from = now;
        }
    }

    /// Raises the line to a moment above it.
    fn rise(&mut self, now: u64, at: u64)
        requires now { now ≤ 2 ^ 60 }
        requires since { self.old.since ≤ now }
        requires from { self.old.from ≤ now }
        requires below { at ≤ top_at self.old now }
        ensures { self.new ≡ risen self.old now at }
    {
        if self.line(now) < at {
            self.at = at;
            self.since = now;
        }
    }

    /// Begins a session with a packet of this counter, and tells where it is placed.
    fn begin(&mut self, now: u64, tmst: u32) -> u64
        requires { now ≤ 2 ^ 60 }
        ensures at { result ≡ begun_at self.old now }
        ensures clock { self.new ≡ record self.old { offset = Some (offset_of (begun_at self.old now) tmst) } }
    {
        let at = self.line(now).saturating_sub(LATEST);
        self.offset = Some(difference(at, tmst));
        at
    }
}

/// The low 32 bits of a moment less a number of 32 bits.
fn difference(at: u64, less: u32) -> u32
    ensures { result ≡ offset_of at less }
{
    ((at % TURN) as u32).wrapping_sub(less)
}

/// The moment with these 32 bits that is nearest to the line; None where that is before 0.
fn nearest(line: u64, bits: u32) -> Option<u64>
    requires { line ≤ 2 ^ 62 }
    ensures value { result ≡ nearest line bits }
    ensures small { IfSome result (λ w. w ≤ 2 ^ 63) }
{
    let ahead = u64::from(bits.wrapping_sub((line % TURN) as u32));
    if ahead < TURN / 2 {
        Some(line + ahead)
    } else {
        line.checked_sub(TURN - ahead)
    }
}
