// Why the desk refuses.

use lora_frame::FrameFault;
use thiserror::Error;

/// Why a payload was not queued. Where several hold, the first in this order is answered.
#[derive(Clone, Copy, Debug, PartialEq, Eq, Error)]
pub enum QueueFault {
    /// The settings name no device with this DevAddr.
    #[error("no device has this address")]
    UnknownDevice,
    /// FPort lies outside of 1 to 223 (LoRaWAN L2 1.0.4, section 4.3.2).
    #[error("a downlink's port has to be 1 to 223")]
    Port,
    /// The payload has more than 242 bytes, so that its frame would have more than 255.
    #[error("a downlink's payload has at most 242 bytes")]
    Long,
    /// As many payloads wait for the device as may, 16.
    #[error("16 payloads wait for this device already")]
    QueueFull,
    /// A growth was refused; nothing is queued.
    #[error("there is no memory for one more payload")]
    NoMemory,
}

/// Why a copy of an uplink was not taken in. Where several hold, the first in this order is answered; `UnknownDevice`,
/// `BadMic` and `Crowded` come only where the copy would open a gathering.
#[derive(Clone, Copy, Debug, PartialEq, Eq, Error)]
pub enum DeskFault {
    /// The bytes are no data uplink, for the frame's own reason (LoRaWAN L2 1.0.4, section 4).
    #[error(transparent)]
    Frame(FrameFault),
    /// The settings name no gateway with this id.
    #[error("no gateway has this number")]
    UnknownGateway,
    /// The number names none of DR0 to DR6 (RP002, EU863-870).
    #[error("the data rate has to be 0 to 6")]
    NoRate,
    /// The frequency, in Hz, lies in none of the six sub-bands (EN 300 220-2, annex B).
    #[error("the uplink's channel lies in no sub-band of EU868")]
    NoBand,
    /// The uplink's end, or the moment at which it is told, in microseconds, lies above 2^60.
    #[error("a moment lies above 2^60 microseconds")]
    Moment,
    /// The gathering that the copy would join has a copy of this gateway.
    #[error("this gateway's copy of the uplink was heard before")]
    SameGateway,
    /// The gathering that the copy would join has as many copies as the limits allow.
    #[error("as many copies of the uplink were heard as are kept")]
    TooManyCopies,
    /// The gathering of these bytes takes copies no more, since it is closed or opened more than 200,000 us before, and the next
    /// may open only more than 1,000,000 us after it.
    #[error("the copy came after its gathering was over")]
    Late,
    /// The settings name no device with the frame's DevAddr.
    #[error("no device has the frame's address")]
    UnknownDevice,
    /// The MIC is not that of the device's session key and of the counter that may come next, or no counter may
    /// (LoRaWAN L2 1.0.4, sections 4.4 and 4.3.1.5).
    #[error("the frame's MIC is not that of its device and of a counter that may come next")]
    BadMic,
    /// As many gatherings are not closed, or were ever opened, as the limits allow.
    #[error("as many uplinks are gathered as may be")]
    Crowded,
    /// A growth was refused; nothing is noted.
    #[error("there is no memory for one more copy")]
    NoMemory,
}

/// Why no ticket was given. Where several hold, the first in this order is answered.
#[derive(Clone, Copy, Debug, PartialEq, Eq, Error)]
pub enum TakeFault {
    /// No uplink was gathered with this number, or copies of it may still come.
    #[error("no uplink has this number, or its gathering isn't closed")]
    NotReady,
    /// The uplink has its one ticket, or had it.
    #[error("a ticket was given for this uplink before")]
    Taken,
    /// The uplink is unconfirmed, and the device's queue is empty: there is nothing to send.
    #[error("the uplink asks for no answer, and no payload waits for its device")]
    Silent,
    /// Another uplink's ticket for this device is out, or its stub isn't settled yet.
    #[error("another ticket of this device is out")]
    Engaged,
    /// The next downlink counter would be 2^32 (FCntDown, LoRaWAN L2 1.0.4, section 4.3.1.5).
    #[error("the device's 2^32 downlink counters were all given")]
    CounterSpent,
    /// A growth was refused; the uplink stays ready.
    #[error("there is no memory for a ticket")]
    NoMemory,
}
