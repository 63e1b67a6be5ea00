// By which name it is told why something was dropped.
ghost use Rattle.std.specs.Prelude.{◌≡◌};
ghost use Rattle.serve_turns.specs.Names as names;

use forwarder_sessions::{DatagramFault, EntryFault, PushDropped};

/// Why a datagram was dropped.
pub(crate) fn datagram_name(fault: DatagramFault) -> &'static [u8]
    ensures { result.now ≡ names.datagram_name fault }
{
    match fault {
        DatagramFault::Short => b"Short",
        DatagramFault::Version => b"Version",
        DatagramFault::Kind => b"Kind",
        DatagramFault::UnknownGateway => b"UnknownGateway",
        DatagramFault::Peer => b"Peer",
    }
}

/// Why the packets of a PUSH_DATA were not read.
pub(crate) fn push_name(fault: PushDropped) -> &'static [u8]
    ensures { result.now ≡ names.push_name fault }
{
    match fault {
        PushDropped::NoPull => b"NoPull",
        PushDropped::Json => b"Json",
    }
}

/// Why a packet was dropped.
pub(crate) fn entry_name(fault: EntryFault) -> &'static [u8]
    ensures { result.now ≡ names.entry_name fault }
{
    match fault {
        EntryFault::Many => b"Many",
        EntryFault::Shape => b"Shape",
        EntryFault::Crc => b"Crc",
        EntryFault::Modulation => b"Modulation",
        EntryFault::Rate => b"Rate",
        EntryFault::Number => b"Number",
        EntryFault::Data => b"Data",
        EntryFault::Size => b"Size",
        EntryFault::Ghost => b"Ghost",
    }
}
