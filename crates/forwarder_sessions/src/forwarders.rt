// The packet forwarders of all gateways.
ghost use Rattle.std.specs.Prelude.{◌≡◌, ◌≤◌, ◌<◌, ◌^◌, map, drop, length, slice_get, slice_set, Some, IfOk, IfSome, OnOk, OnErr, All};
ghost use Rattle.gateway_clock.specs.Clock.{heard};
ghost use Rattle.forwarder_sessions.specs.Sessions.{opened_session, resumed_session, place_of, heard_by, joined_by, renumbered};
ghost use Rattle.forwarder_sessions.specs.Received.{shown, shown_news, shown_packets, received_of, known_after, head_bytes, dropped};
ghost use Rattle.forwarder_sessions.specs.Received.{packets_for, tells, after_news};

use crate::received::{DatagramFault, News, PushDropped, Received, named};
use crate::session::{Endpoint, FIRST_HIGH, Forwarder, Session};
use forwarder_packets::{
    Entry, Head, Kind, NoMemory, PushFault, acknowledgement, read_head, read_packets, read_tx_ack,
};
use gateway_clock::Placed;
use json::Scratch;
use std::alloc::{AllocError, Allocator};

/// How many bytes stand before what a datagram tells.
const HEAD_BYTES: usize = 12;

/// A datagram that came to a server.
#[derive(Clone, Copy)]
pub struct Datagram<'a> {
    pub source: Endpoint,
    /// When it came, in microseconds of the server's clock.
    pub at: u64,
    pub bytes: &'a [u8],
}

/// What is known of the packet forwarders of a server's gateways, in the order of the settings.
#[derive(Drop)]
pub struct Forwarders<A: Allocator> {
    sessions: Vec<Session, A>,
}

impl<A: Allocator + Copy> Forwarders<A> {
    /// These packet forwarders, of which nothing was heard. Err(NoMemory) where an allocation was refused.
    pub fn new(alloc: A, forwarders: &[Forwarder]) -> Result<Self, NoMemory>
        ensures { IfOk result (λ made. made.sessions.items ≡ map opened_session forwarders.now) }
    {
        let mut sessions = Vec::with_capacity(alloc, forwarders.len())?;
        for forwarder in forwarders {
            sessions.push(Session::new(*forwarder, FIRST_HIGH))?;
        }
        Ok(Forwarders { sessions })
    }

    /// These packet forwarders, of which nothing was heard since the server began, each with what its gateway's clock shows at least,
    /// in microseconds and at most 2^60: `FIRST_HIGH` where it was never heard. Err(NoMemory) where an allocation was refused.
    pub fn resumed(alloc: A, forwarders: &[(Forwarder, u64)]) -> Result<Self, NoMemory>
        requires { All (λ f. f.1 ≤ 2 ^ 60) forwarders.now }
        ensures { IfOk result (λ made. made.sessions.items ≡ map resumed_session forwarders.now) }
    {
        let mut sessions = Vec::with_capacity(alloc, forwarders.len())?;
        for (forwarder, high) in forwarders {
            sessions.push(Session::new(*forwarder, *high))?;
        }
        Ok(Forwarders { sessions })
    }

    /// What is known of them, in the order of the settings. Takes no memory.
    pub fn sessions(&self) -> &[Session]
        ensures { result.now ≡ self.now.sessions.items }
    {
        self.sessions.as_slice()
    }

    /// Takes in a datagram: the first fault of its head is told, or an EUI that no gateway has, or an address that isn't the
    /// gateway's; else it is acknowledged by its kind. Packets that are heard are then to be placed, in their order, by
    /// `hear`. A PULL_DATA alone changes what is known. The scratch is room for the reader of JSON, to be kept from one datagram
    /// to the next. Err(NoMemory) where an allocation was refused; then nothing is changed.
    pub fn receive<B: Allocator>(
        &mut self,
        alloc: A,
        scratch: &mut Scratch<B>,
        datagram: &Datagram<'_>,
    ) -> Result<Received<A>, NoMemory>
        ensures told { IfOk result (λ r. shown r
            ≡ received_of self.old.sessions.items datagram.now.source datagram.now.at datagram.now.bytes.now) }
        ensures known { OnOk result (self.new.sessions.items
            ≡ known_after self.old.sessions.items datagram.now.source datagram.now.at datagram.now.bytes.now) }
        ensures refused { OnErr result (self.new.sessions.items ≡ self.old.sessions.items) }
    {
        let head = match read_head(datagram.bytes) {
            Ok(head) => head,
            Err(fault) => return Ok(dropped(named(fault), None)),
        };
        let Some(place) = self.place_of(&head.eui) else {
            return Ok(dropped(DatagramFault::UnknownGateway, Some(head.eui)));
        };
        if !self.sessions[place].may_come(datagram.source) {
            return Ok(dropped(DatagramFault::Peer, Some(head.eui)));
        }
        let news = self.news(alloc, scratch, place, &head, datagram)?;
        Ok(Received {
            acknowledgement: acknowledgement(&head),
            news,
        })
    }

    /// Takes in a packet of the gateway at this place, whose counter is `tmst` and which comes when the server's clock shows `now`,
    /// in microseconds and at most 2^60: answers when the gateway received it, on the gateway's clock, and whether a session
    /// begins with it. Takes no memory.
    pub fn hear(&mut self, place: usize, tmst: u32, now: u64) -> Placed
        requires place { place < length self.old.sessions.items }
        requires early { now ≤ 2 ^ 60 }
        ensures at { IfSome (slice_get self.old.sessions.items place) (λ s. result.at ≡ (heard s.clock tmst now).at) }
        ensures session { IfSome (slice_get self.old.sessions.items place) (λ s. result.is_new ≡ (heard s.clock tmst now).is_new) }
        ensures known { IfSome (slice_get self.old.sessions.items place)
            (λ s. self.new.sessions.items ≡ slice_set self.old.sessions.items place (heard_by tmst now s)) }
    {
        self.sessions[place].hear(tmst, now)
    }

    /// Notes that a copy which the gateway at this place told belongs to the uplink with this number.
    pub fn join(&mut self, place: usize, number: u64)
        requires { place < length self.old.sessions.items }
        ensures { IfSome (slice_get self.old.sessions.items place)
            (λ s. self.new.sessions.items ≡ slice_set self.old.sessions.items place (joined_by number s)) }
    {
        self.sessions[place].join(number);
    }

    /// Numbers of uplinks begin at 1 again: which ones each gateway told is forgotten. All else stays: where downlinks go, and what the
    /// gateways' clocks show. No uplink of an earlier number may be left to answer. Takes no memory.
    pub fn renumber(&mut self)
        ensures { self.new.sessions.items ≡ map renumbered self.old.sessions.items }
    {
        for place in 0..self.sessions.len() {
            self.sessions[place].renumber();
        }
    }

    /// The place of the gateway with this EUI.
    fn place_of(&self, eui: &[u8; 8]) -> Option<usize>
        ensures found { result ≡ place_of eui.now self.now.sessions.items }
        ensures within { IfSome result (λ place. place < length self.now.sessions.items) }
    {
        self.sessions
            .iter()
            .position(|session| session.has_eui(eui))
    }

    /// What a datagram of the gateway at this place tells behind its head.
    fn news<B: Allocator>(
        &mut self,
        alloc: A,
        scratch: &mut Scratch<B>,
        place: usize,
        head: &Head,
        datagram: &Datagram<'_>,
    ) -> Result<News<A>, NoMemory>
        requires { place < length self.old.sessions.items }
        ensures told { IfOk result (λ news. IfSome (slice_get self.old.sessions.items place) (λ s. shown_news news
            ≡ tells head.now.kind place s head.now.token datagram.now.at (drop head_bytes datagram.now.bytes.now))) }
        ensures known { IfOk result (λ news. self.new.sessions.items
            ≡ after_news self.old.sessions.items datagram.now.source datagram.now.at (shown_news news)) }
        ensures refused { OnErr result (self.new.sessions.items ≡ self.old.sessions.items) }
    {
        let rest = past_head(datagram.bytes);
        match head.kind {
            Kind::PullData => {
                self.sessions[place].pull(datagram.source, datagram.at);
                Ok(News::Pulled { place })
            }
            Kind::PushData => {
                let recent = self.sessions[place].is_recent(datagram.at);
                let packets = packets_of(alloc, scratch, recent, rest)?;
                Ok(News::Pushed { place, packets })
            }
            Kind::TxAck => Ok(News::Told {
                place,
                token: head.token,
                ack: read_tx_ack(alloc, scratch, rest)?,
            }),
        }
    }
}

/// What becomes of the packets behind the head of a PUSH_DATA, if its gateway has sent a PULL_DATA of late.
fn packets_of<A: Allocator + Copy, B: Allocator>(
    alloc: A,
    scratch: &mut Scratch<B>,
    recent: bool,
    rest: &[u8],
) -> Result<Result<Vec<Entry<A>, A>, PushDropped>, NoMemory>
    ensures { IfOk result (λ packets. shown_packets packets ≡ packets_for recent rest.now) }
{
    if !recent {
        return Ok(Err(PushDropped::NoPull));
    }
    match read_packets(alloc, scratch, rest) {
        Ok(entries) => Ok(Ok(entries)),
        Err(PushFault::Json) => Ok(Err(PushDropped::Json)),
        Err(PushFault::NoMemory) => Err(AllocError),
    }
}

/// What stands behind the head of a datagram.
fn past_head(bytes: &[u8]) -> &[u8]
    ensures { result.now ≡ drop head_bytes bytes.now }
{
    if HEAD_BYTES < bytes.len() {
        &bytes[HEAD_BYTES..]
    } else {
        &[]
    }
}

/// What comes of a datagram that is dropped.
fn dropped<A: Allocator>(fault: DatagramFault, eui: Option<[u8; 8]>) -> Received<A>
    ensures { shown result ≡ dropped fault eui }
{
    Received {
        acknowledgement: None,
        news: News::Dropped { fault, eui },
    }
}
