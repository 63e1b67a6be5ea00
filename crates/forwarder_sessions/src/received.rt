// What a datagram of a packet forwarder comes to.
ghost use Rattle.std.specs.Prelude.{◌≡◌};
ghost use Rattle.forwarder_sessions.specs.Received.{named};

use forwarder_packets::{Entry, HeadFault, TxAck};
use std::alloc::Allocator;
use thiserror::Error;

/// Why a datagram is dropped without an acknowledgement. The first that holds is told.
#[derive(Clone, Copy, Debug, PartialEq, Eq, Error)]
pub enum DatagramFault {
    /// It has fewer than 4 bytes, or fewer than 12 and is of a known kind.
    #[error("the datagram is too short")]
    Short,
    /// Its first byte is not 2.
    #[error("the datagram is of another version of the protocol")]
    Version,
    /// It is neither PUSH_DATA nor PULL_DATA nor TX_ACK.
    #[error("a packet forwarder sends no datagram of this kind")]
    Kind,
    /// No gateway of the settings has its EUI.
    #[error("no gateway of the settings has this EUI")]
    UnknownGateway,
    /// It comes from another address than the settings allow for this gateway.
    #[error("the datagram comes from another address than the gateway's")]
    Peer,
}

/// Why the packets of a PUSH_DATA aren't heard, though it is acknowledged. The first that holds is told.
#[derive(Clone, Copy, Debug, PartialEq, Eq, Error)]
pub enum PushDropped {
    /// The gateway has sent no PULL_DATA for 60 s, so that no answer could reach it.
    #[error("the gateway has sent no PULL_DATA for 60 s")]
    NoPull,
    /// It is no JSON object, or its `rxpk` is no array.
    #[error("the datagram tells no JSON object, or its rxpk is no array")]
    Json,
}

/// What a datagram tells. A place is that of its gateway among the settings', counted from 0.
#[derive(Drop)]
pub enum News<A: Allocator> {
    /// Nothing: it is dropped. The EUI is told where there was one.
    Dropped {
        fault: DatagramFault,
        eui: Option<[u8; 8]>,
    },
    /// PULL_DATA: this gateway's downlinks go to where it came from.
    Pulled {
        place: usize,
    },
    /// PUSH_DATA: what becomes of each packet, in order.
    Pushed {
        place: usize,
        packets: Result<Vec<Entry<A>, A>, PushDropped>,
    },
    /// TX_ACK of the downlink with this token.
    Told {
        place: usize,
        token: u16,
        ack: TxAck<A>,
    },
}

/// What a datagram comes to: what is sent back at once, if anything is, and what it tells.
#[derive(Drop)]
pub struct Received<A: Allocator> {
    pub acknowledgement: Option<[u8; 4]>,
    pub news: News<A>,
}

/// The fault of a head, as that of its datagram.
pub(crate) fn named(fault: HeadFault) -> DatagramFault
    ensures { result ≡ named fault }
{
    match fault {
        HeadFault::Short => DatagramFault::Short,
        HeadFault::Version => DatagramFault::Version,
        HeadFault::Kind => DatagramFault::Kind,
    }
}
