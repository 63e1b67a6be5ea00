// The names of faults in the lines that answer events. None has more than 16 bytes.
ghost use Rattle.std.specs.Prelude.{◌≡◌, ◌≤◌, length};
ghost use Rattle.run_lines.specs.EntryName as names;

use lora_frame::FrameFault;
use server_core::{DeskFault, QueueFault, TakeFault};

/// Why a payload was not queued.
pub(crate) fn queue_name(fault: QueueFault) -> &'static [u8]
    ensures name { result.now ≡ names.queue_name fault }
    ensures short { length result.now ≤ 16 }
{
    match fault {
        QueueFault::UnknownDevice => b"UnknownDevice",
        QueueFault::Port => b"Port",
        QueueFault::Long => b"Long",
        QueueFault::QueueFull => b"QueueFull",
        QueueFault::NoMemory => b"NoMemory",
    }
}

/// Why a frame can't be read.
fn frame_name(fault: FrameFault) -> &'static [u8]
    ensures name { result.now ≡ names.frame_name fault }
    ensures short { length result.now ≤ 16 }
{
    match fault {
        FrameFault::Short => b"Short",
        FrameFault::Long => b"Long",
        FrameFault::NotData => b"NotData",
        FrameFault::Major => b"Major",
        FrameFault::OptionsCut => b"OptionsCut",
    }
}

/// The name of why a copy of an uplink was not taken in; it has at most 16 bytes.
pub fn hear_name(fault: DeskFault) -> &'static [u8]
    ensures name { result.now ≡ names.hear_name fault }
    ensures short { length result.now ≤ 16 }
{
    match fault {
        DeskFault::Frame(fault) => frame_name(fault),
        DeskFault::UnknownGateway => b"UnknownGateway",
        DeskFault::NoRate => b"NoRate",
        DeskFault::NoBand => b"NoBand",
        DeskFault::Moment => b"Moment",
        DeskFault::SameGateway => b"SameGateway",
        DeskFault::TooManyCopies => b"TooManyCopies",
        DeskFault::Late => b"Late",
        DeskFault::UnknownDevice => b"UnknownDevice",
        DeskFault::BadMic => b"BadMic",
        DeskFault::Crowded => b"Crowded",
        DeskFault::NoMemory => b"NoMemory",
    }
}

/// Why no ticket was given.
pub(crate) fn take_name(fault: TakeFault) -> &'static [u8]
    ensures name { result.now ≡ names.take_name fault }
    ensures short { length result.now ≤ 16 }
{
    match fault {
        TakeFault::NotReady => b"NotReady",
        TakeFault::Taken => b"Taken",
        TakeFault::Silent => b"Silent",
        TakeFault::Engaged => b"Engaged",
        TakeFault::CounterSpent => b"CounterSpent",
        TakeFault::NoMemory => b"NoMemory",
    }
}
