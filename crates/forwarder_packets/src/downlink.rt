// The datagram that hands a transmission to a packet forwarder.
ghost use Rattle.std.specs.Prelude.{◌≡◌, ◌≤◌, ◌+◌, ◌++◌, IfOk, length};
ghost use Rattle.forwarder_packets.specs.Entry.{rate_name};
ghost use Rattle.forwarder_packets.specs.PullResp.{digit_at, six_digits, megahertz, timing_of, radio_of, frame_of, fields_of, pull_resp_of, IsShort, PullRespsReadBack};
ghost use Rattle.forwarder_packets.specs.Seen.{sent};

use crate::head::VERSION;
use crate::packet::NoMemory;
use base64::engine::general_purpose::STANDARD;
use radio_airtime::DataRate;
use std::alloc::Allocator;
use text_lines::TextLine;

/// The kind of a PULL_RESP.
const PULL_RESP: u8 = 3;

/// How many bytes a datagram has at most whose frame has at most 255.
const MOST_BYTES: usize = 513;

/// A transmission that a gateway is asked for.
#[derive(Clone, Copy)]
pub struct Transmission<'a> {
    /// The gateway's counter of microseconds at which it begins.
    pub tmst: u32,
    /// The centre of its channel in Hz.
    pub freq_hz: u32,
    /// Its power in dBm.
    pub power_dbm: u8,
    pub rate: DataRate,
    /// Its PHYPayload.
    pub frame: &'a [u8],
}

/// The PULL_RESP that asks for a transmission; the token is the one by which its TX_ACK tells what became of it. It has at most
/// 513 bytes where the frame has at most 255, the channel is below 1 GHz, and the power below 100 dBm. Err(NoMemory) where an
/// allocation was refused.
pub fn pull_resp<A: Allocator + Copy>(
    alloc: A,
    token: u16,
    transmission: &Transmission<'_>,
) -> Result<Vec<u8, A>, NoMemory>
    ensures bytes { IfOk result (λ datagram. datagram.items ≡ pull_resp_of token (sent transmission.now)) }
    ensures short { IfOk result (λ datagram. IsShort (sent transmission.now) → length datagram.items ≤ 513) }
{
    let [high, low] = token.to_be_bytes();
    let data = STANDARD.encode(alloc, transmission.frame)?;
    let mut datagram = Vec::with_capacity(alloc, MOST_BYTES)?;
    datagram.extend_from_slice(&[VERSION, high, low, PULL_RESP])?;
    datagram.extend_from_slice(fields(transmission).as_slice())?;
    datagram.extend_from_slice(data.as_bytes())?;
    datagram.extend_from_slice(b"\"}}")?;
    Ok(datagram)
}

/// The JSON of a transmission up to its bytes.
fn fields(transmission: &Transmission<'_>) -> TextLine
    ensures { result ≡ fields_of (sent transmission.now) }
{
    let mut text = TextLine::new();
    add_timing(&mut text, transmission);
    add_radio(&mut text, transmission);
    add_frame(&mut text, transmission);
    text
}

/// Adds when it begins, and its channel.
fn add_timing(text: &mut TextLine, transmission: &Transmission<'_>)
    requires { length text.old + 100 ≤ 1024 }
    ensures text { text.new ≡ text.old ++ timing_of (sent transmission.now) }
    ensures len { length text.new ≤ length text.old + 100 }
{
    text.text(b"{\"txpk\":{\"imme\":false,\"tmst\":");
    text.number(u64::from(transmission.tmst));
    text.text(b",\"freq\":");
    add_megahertz(text, transmission.freq_hz);
}

/// Adds its power and its data rate.
fn add_radio(text: &mut TextLine, transmission: &Transmission<'_>)
    requires { length text.old + 100 ≤ 1024 }
    ensures text { text.new ≡ text.old ++ radio_of (sent transmission.now) }
    ensures len { length text.new ≤ length text.old + 100 }
{
    text.text(b",\"rfch\":0,\"powe\":");
    text.number(u64::from(transmission.power_dbm));
    text.text(b",\"modu\":\"LORA\",\"datr\":\"");
    text.text(rate_name(transmission.rate));
}

/// Adds how many bytes the frame has.
fn add_frame(text: &mut TextLine, transmission: &Transmission<'_>)
    requires { length text.old + 100 ≤ 1024 }
    ensures text { text.new ≡ text.old ++ frame_of (sent transmission.now) }
    ensures len { length text.new ≤ length text.old + 100 }
{
    text.text(b"\",\"codr\":\"4/5\",\"ipol\":true,\"size\":");
    text.number(transmission.frame.len() as u64);
    text.text(b",\"ncrc\":true,\"data\":\"");
}

/// Adds a frequency in MHz with six decimals.
fn add_megahertz(text: &mut TextLine, freq_hz: u32)
    requires { length text.old + 27 ≤ 1024 }
    ensures text { text.new ≡ text.old ++ megahertz freq_hz }
    ensures len { length text.new ≤ length text.old + 27 }
{
    text.number(u64::from(freq_hz / 1_000_000));
    text.text(b".");
    text.text(&six_digits(freq_hz));
}

/// The last six decimal digits of a number, with leading zeros.
fn six_digits(number: u32) -> [u8; 6]
    ensures { result ≡ six_digits number }
{
    [
        digit_at(100_000, number),
        digit_at(10_000, number),
        digit_at(1_000, number),
        digit_at(100, number),
        digit_at(10, number),
        digit_at(1, number),
    ]
}

/// The decimal digit of a number that has this weight.
fn digit_at(weight: u32, number: u32) -> u8
    requires { 1 ≤ weight }
    ensures { result ≡ digit_at weight number }
{
    b'0' + (number / weight % 10) as u8
}

/// The data rate's name: spreading factor and bandwidth in kHz.
fn rate_name(rate: DataRate) -> &'static [u8]
    ensures name { result.now ≡ rate_name rate }
    ensures short { length result.now ≤ 9 }
{
    match rate {
        DataRate::Dr0 => b"SF12BW125",
        DataRate::Dr1 => b"SF11BW125",
        DataRate::Dr2 => b"SF10BW125",
        DataRate::Dr3 => b"SF9BW125",
        DataRate::Dr4 => b"SF8BW125",
        DataRate::Dr5 => b"SF7BW125",
        DataRate::Dr6 => b"SF7BW250",
    }
}

/// A law: a JSON reader finds in that text just the fields of a transmission, under `txpk`, and each says what was asked for: the
/// numbers by their digits, the data rate by its name, and the frame in base64.
pub fn law_pull_resps_read_back()
    ensures { PullRespsReadBack }
{}
