// The datagram that asks a gateway for a downlink.
ghost use Rattle.std.specs.Prelude.{◌≡◌, ◌≤◌, ◌%◌, ◌^◌, length, IfOk};
ghost use Rattle.forwarder_packets.specs.PullResp.{pull_resp_of, IsShort};
ghost use Rattle.serve_downlinks.specs.Downlinks.{to_send};
ghost use Rattle.serve_downlinks.specs.Datagram.{token_of, asked_for};

use crate::Downlink;
use forwarder_packets::{Transmission, pull_resp};
use forwarder_sessions::NoMemory;
use std::alloc::Allocator;

/// The PULL_RESP that asks a gateway for a downlink (Semtech's UDP protocol for packet forwarders, version 2): it begins at this
/// counter of the gateway's microseconds, with this power in dBm. Its token is the low 16 bits of the uplink's number. It has
/// at most 513 bytes where the frame has at most 255, the channel is below 1 GHz, and the power below 100 dBm. Err(NoMemory) where
/// an allocation was refused.
pub fn pull_resp_for<A: Allocator + Copy>(
    alloc: A,
    downlink: &Downlink<'_>,
    tmst: u32,
    power_dbm: u8,
) -> Result<Vec<u8, A>, NoMemory>
    ensures bytes { IfOk result (λ datagram. datagram.items
        ≡ pull_resp_of (token_of (to_send downlink.now)) (asked_for tmst power_dbm (to_send downlink.now))) }
    ensures short { IfOk result (λ datagram. IsShort (asked_for tmst power_dbm (to_send downlink.now))
        → length datagram.items ≤ 513) }
{
    let transmission = Transmission {
        tmst,
        freq_hz: downlink.candidate.freq_hz,
        power_dbm,
        rate: downlink.candidate.rate,
        frame: downlink.frame,
    };
    pull_resp(alloc, token_of(downlink.number), &transmission)
}

/// The low 16 bits of a number.
fn token_of(number: u64) -> u16
    ensures { result ≡ number % 2 ^ 16 }
{
    (number % 65_536) as u16
}
