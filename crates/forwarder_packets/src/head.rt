ghost use Rattle.std.specs.Prelude.{◌≡◌};
ghost use Rattle.forwarder_packets.specs.Head.{kind_of, head_of, acknowledgement_of};

use thiserror::Error;

/// The version of the protocol: the first byte of each datagram.
pub(crate) const VERSION: u8 = 2;

/// What a packet forwarder sends.
#[derive(Clone, Copy, Debug, PartialEq, Eq)]
pub enum Kind {
    /// PUSH_DATA: packets that were received, and the gateway's status.
    PushData,
    /// PULL_DATA: where downlinks may be sent to.
    PullData,
    /// TX_ACK: what became of a downlink.
    TxAck,
}

/// Why a datagram is none of a packet forwarder.
#[derive(Clone, Copy, Debug, PartialEq, Eq, Error)]
pub enum HeadFault {
    /// It has fewer than 4 bytes, or fewer than 12 and is of a known kind.
    #[error("the datagram is too short")]
    Short,
    /// Its first byte is not 2.
    #[error("the datagram is of another version of the protocol")]
    Version,
    /// It is neither PUSH_DATA nor PULL_DATA nor TX_ACK.
    #[error("a packet forwarder sends no datagram of this kind")]
    Kind,
}

/// The first 12 bytes of a datagram. What it tells stands behind them.
#[derive(Clone, Copy, Debug, PartialEq, Eq)]
pub struct Head {
    /// What the sender has picked, to tell its acknowledgement by; of TX_ACK that of the downlink.
    pub token: u16,
    pub kind: Kind,
    /// The gateway's EUI, first byte first.
    pub eui: [u8; 8],
}

/// Reads the head of a datagram; its first fault in the order of `HeadFault`, but that a datagram of a known kind with fewer than 12
/// bytes is Short. Takes no memory.
pub fn read_head(bytes: &[u8]) -> Result<Head, HeadFault>
    ensures { result ≡ head_of bytes.now }
{
    let [version, high, low, kind, rest @ ..] = bytes else {
        return Err(HeadFault::Short);
    };
    if *version != VERSION {
        return Err(HeadFault::Version);
    }
    let kind = kind_of(*kind).ok_or(HeadFault::Kind)?;
    let [a, b, c, d, e, f, g, h, ..] = rest else {
        return Err(HeadFault::Short);
    };
    Ok(Head {
        token: u16::from_be_bytes([*high, *low]),
        kind,
        eui: [*a, *b, *c, *d, *e, *f, *g, *h],
    })
}

/// The kind with this number, if packet forwarders send it.
fn kind_of(number: u8) -> Option<Kind>
    ensures { result ≡ kind_of number }
{
    match number {
        0 => Some(Kind::PushData),
        2 => Some(Kind::PullData),
        5 => Some(Kind::TxAck),
        _ => None,
    }
}

/// What a server answers at once: PUSH_ACK or PULL_ACK with the sender's token; nothing to TX_ACK.
pub fn acknowledgement(head: &Head) -> Option<[u8; 4]>
    ensures { result ≡ acknowledgement_of head.now }
{
    let kind = match head.kind {
        Kind::PushData => 1,
        Kind::PullData => 4,
        Kind::TxAck => return None,
    };
    let [high, low] = head.token.to_be_bytes();
    Some([VERSION, high, low, kind])
}
