// What frames are made of.

use aes_cmac::Key;

/// The FPort and FRMPayload of a frame (LoRaWAN L2 1.0.4 section 4.3.2), the payload not encrypted.
#[derive(Clone, Copy, Debug)]
pub struct Body<'a> {
    /// 0 for MAC commands, 1 to 223 for the application.
    pub port: u8,
    /// FRMPayload, 0 to 242 bytes.
    pub payload: &'a [u8],
}

/// The session keys of a device.
#[derive(Clone, Copy, Debug)]
pub struct Keys {
    /// NwkSKey, for the MIC and the payload of FPort 0.
    pub nwk: Key,
    /// AppSKey, for the payload of every other FPort.
    pub app: Key,
}

/// An unconfirmed data downlink, without FOpts.
#[derive(Clone, Copy, Debug)]
pub struct Down<'a> {
    /// DevAddr.
    pub addr: u32,
    /// The whole downlink counter: the frame has its low 16 bits.
    pub counter: u32,
    /// Whether the frame acknowledges a confirmed uplink.
    pub ack: bool,
    /// FPending: whether more downlinks wait.
    pub pending: bool,
    /// FPort and FRMPayload; `None` for a frame with neither.
    pub body: Option<Body<'a>>,
}

/// A data uplink, as a device writes it.
#[derive(Clone, Copy, Debug)]
pub struct Up<'a> {
    /// Whether the frame asks for an acknowledgement.
    pub confirmed: bool,
    /// DevAddr.
    pub addr: u32,
    /// The whole uplink counter: the frame has its low 16 bits.
    pub counter: u32,
    /// ADR: whether the network may set the data rate.
    pub adr: bool,
    /// ADRACKReq: whether any downlink is asked for.
    pub adr_ack_req: bool,
    /// Whether the frame acknowledges a confirmed downlink.
    pub ack: bool,
    /// FOpts, at most 15 bytes.
    pub options: &'a [u8],
    /// FPort and FRMPayload; `None` for a frame with neither.
    pub body: Option<Body<'a>>,
}
