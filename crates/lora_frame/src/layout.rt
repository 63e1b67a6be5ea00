// Places, lengths, ports and types of data frames (LoRaWAN L2 1.0.4 section 4).

ghost use Rattle.std.specs.Prelude.{◌≡◌};
ghost use Rattle.lora_frame.specs.Ports.{is_application_port};

/// The place of DevAddr, after MHDR.
pub(crate) const ADDR_AT: usize = 1;

/// The place of FCtrl, after DevAddr.
pub(crate) const CONTROL_AT: usize = 5;

/// The place of FCnt, after FCtrl.
pub(crate) const COUNTER_AT: usize = 6;

/// The place of FOpts, after FCnt.
pub(crate) const OPTIONS_AT: usize = 8;

/// The bytes of the MIC, which a frame ends in (LoRaWAN L2 1.0.4 section 4.4).
pub const MIC_LEN: usize = 4;

/// The bytes of a frame without FOpts, FPort and FRMPayload: MHDR (1), FHDR (7) and MIC (4) (LoRaWAN L2 1.0.4 sections 4.1
/// and 4.3.1).
pub const EMPTY_LEN: usize = OPTIONS_AT + MIC_LEN;

/// The bytes of a frame without FOpts beside its FRMPayload: those of an empty one, and FPort (1) (LoRaWAN L2 1.0.4 section
/// 4.3.2).
pub const BESIDE_PAYLOAD: usize = EMPTY_LEN + 1;

/// The bytes of the longest frame.
pub(crate) const MAX_LEN: usize = 255;

/// The bytes of the longest FOpts.
pub(crate) const MAX_OPTIONS: usize = 15;

/// The bytes of the longest FRMPayload, beside FPort and without FOpts, so that the PHYPayload has 255 bytes (LoRaWAN L2 1.0.4
/// section 4.3.3).
pub const MAX_PAYLOAD: usize = MAX_LEN - BESIDE_PAYLOAD;

/// The greatest FPort that an application's payload may have; the least is 1 (LoRaWAN L2 1.0.4 section 4.3.2).
pub const MAX_PORT: u8 = 223;

/// Whether an application's payload may have this FPort, 1 to 223 (LoRaWAN L2 1.0.4 section 4.3.2). Needs no memory.
pub fn is_application_port(port: u8) -> bool
    ensures { result ≡ is_application_port port }
{
    (1..=MAX_PORT).contains(&port)
}

/// The bits of MHDR below the type, which is its top three (LoRaWAN L2 1.0.4 section 4.2.1).
pub(crate) const TYPE_SHIFT: u32 = 5;

/// The bits of Major in MHDR (LoRaWAN L2 1.0.4 section 4.2.2).
pub(crate) const MAJOR_MASK: u8 = 0x03;

/// The bit of ADR in FCtrl: the network may set the data rate (LoRaWAN L2 1.0.4 section 4.3.1).
pub(crate) const ADR: u8 = 0x80;

/// The bit of ADRACKReq in an uplink's FCtrl: a downlink is asked for (LoRaWAN L2 1.0.4 section 4.3.1).
pub(crate) const ADR_ACK_REQ: u8 = 0x40;

/// The bit of ACK in FCtrl: a confirmed frame is acknowledged (LoRaWAN L2 1.0.4 section 4.3.1).
pub(crate) const ACK: u8 = 0x20;

/// The bit of FPending in a downlink's FCtrl: more downlinks wait (LoRaWAN L2 1.0.4 section 4.3.1).
pub(crate) const F_PENDING: u8 = 0x10;

/// The bits of FOptsLen in FCtrl, for 0 to 15 bytes (LoRaWAN L2 1.0.4 section 4.3.1).
pub(crate) const FOPTS_LEN_MASK: u8 = 0x0f;

/// The type of an unconfirmed data uplink, in the top three bits of MHDR.
pub(crate) const UNCONFIRMED_UP: u8 = 2;

/// The type of an unconfirmed data downlink.
pub(crate) const UNCONFIRMED_DOWN: u8 = 3;

/// The type of a confirmed data uplink.
pub(crate) const CONFIRMED_UP: u8 = 4;
