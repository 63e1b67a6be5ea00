// A payload that waits for a device.
ghost use Rattle.std.specs.Prelude.{◌≡◌, ◌≤◌, length};
ghost use Rattle.serve_journal.specs.Payload.{payload_of};

use lora_frame::{MAX_PAYLOAD, is_application_port};
use std::marker::Model;

/// A payload that waits for a device: FPort, 1 to 223, and FRMPayload, 0 to 242 bytes, not encrypted (LoRaWAN L2 1.0.4, sections
/// 4.3.2 and 4.3.3).
#[derive(Debug, Drop)]
pub struct Payload {
    port: u8,
    room: [u8; MAX_PAYLOAD],
    len: usize,
}

impl Model for Payload {
    ghost use Rattle.std.specs.Prelude.{take, ◌≤◌, ◌≡◌, true};
    ghost use Rattle.lora_frame.specs.Ports.{is_application_port};
    ghost use Rattle.serve_journal.specs.Payload.{Waiting};

    ghost Value = { Waiting };

    ghost view = { λ p. record { port = p.port; bytes = take p.len p.room } };

    ghost invariant = { λ p. (p.len ≤ 242) × (is_application_port p.port ≡ true) };
}

impl Payload {
    /// A payload for this FPort with these bytes. None where the port isn't one of 1 to 223, or there are more than 242 bytes.
    pub fn new(port: u8, bytes: &[u8]) -> Option<Self>
        ensures { result ≡ payload_of port bytes.now }
    {
        if !is_application_port(port) || bytes.len() > MAX_PAYLOAD {
            return None;
        }
        let len = bytes.len();
        let mut room = [0; MAX_PAYLOAD];
        room[..len].copy_from_slice(bytes);
        Some(Payload { port, room, len })
    }

    /// FPort, 1 to 223.
    pub fn port(&self) -> u8
        ensures { result ≡ self.now.port }
    {
        self.port
    }

    /// FRMPayload, 0 to 242 bytes.
    pub fn as_slice(&self) -> &[u8]
        ensures bytes { result.now ≡ self.now.bytes }
        ensures few { length result.now ≤ MAX_PAYLOAD }
    {
        &self.room[..self.len]
    }
}
