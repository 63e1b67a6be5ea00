ghost use Rattle.std.specs.Prelude.{◌≡◌, ◌+◌, ◌-◌, ◌^◌, ◌≤◌, All, IfOk};
ghost use Rattle.std.specs.Option.{ForSome};
ghost use Rattle.radio_airtime.specs.DataRate.{number_of};
ghost use Rattle.lora_frame.specs.Ports.{longest_payload};
ghost use Rattle.rx_windows.specs.Windows.{IsHeard, IsPlan, rx1_rate, is_carried, frame_len, rx1_start, rx1_of, rx2_of};
ghost use Rattle.rx_windows.specs.Windows.{candidates_of};

use crate::{Candidate, Plan, Window};
use radio_airtime::DataRate;
use std::alloc::Allocator;
use uplink_gather::{HeardCopy, NoMemory};

/// A second, in microseconds.
const SECOND: u64 = 1_000_000;

/// The bytes of a frame without FOpts, FPort and payload, as a length on air.
const EMPTY_LEN: u8 = lora_frame::EMPTY_LEN as u8;

/// The bytes of a frame without FOpts beside its payload.
const BESIDE_PAYLOAD: u8 = lora_frame::BESIDE_PAYLOAD as u8;

/// What could be sent to a device, in the order of the copies given: RX1 of each copy and then RX2 of each copy,
/// each on the gateway that heard that copy (LoRaWAN L2 1.0.4, section 3.3), in one growth of their number. A
/// candidate carries the payload at the head of the queue where its frame fits the rate, else it is an empty
/// frame (this project's profile). Each copy ended by 2^60 microseconds. Err(NoMemory) where the growth is
/// refused.
pub fn candidates<A: Allocator>(
    alloc: A,
    copies: &[HeardCopy],
    plan: &Plan,
) -> Result<Vec<Candidate, A>, NoMemory>
    requires heard { All IsHeard copies.now }
    requires plan { IsPlan plan.now }
    ensures { IfOk result (λ list. list.items ≡ candidates_of copies.now plan.now) }
{
    let mut list = Vec::with_capacity(alloc, copies.len().saturating_mul(2))?;
    let first = copies.iter().map(|copy| rx1(copy, plan));
    let second = copies.iter().map(|copy| rx2(copy, plan));
    list.extend(first.chain(second))?;
    Ok(list)
}

/// RX1 on the gateway that heard the copy.
fn rx1(copy: &HeardCopy, plan: &Plan) -> Candidate
    requires heard { IsHeard copy.now }
    requires plan { IsPlan plan.now }
    ensures { result ≡ rx1_of plan.now copy.now }
{
    let rate = rx1_rate(copy.rate, plan.offset);
    Candidate {
        gateway: copy.gateway,
        window: Window::Rx1,
        start: rx1_start(copy, plan),
        freq_hz: copy.freq_hz,
        rate,
        len: frame_len(rate, plan.payload),
        carries: is_carried(rate, plan.payload),
    }
}

/// RX2 on the gateway that heard the copy.
fn rx2(copy: &HeardCopy, plan: &Plan) -> Candidate
    requires heard { IsHeard copy.now }
    requires plan { IsPlan plan.now }
    ensures { result ≡ rx2_of plan.now copy.now }
{
    Candidate {
        gateway: copy.gateway,
        window: Window::Rx2,
        start: rx1_start(copy, plan) + SECOND,
        freq_hz: plan.rx2_freq,
        rate: plan.rx2_rate,
        len: frame_len(plan.rx2_rate, plan.payload),
        carries: is_carried(plan.rx2_rate, plan.payload),
    }
}

/// When RX1 opens, in microseconds of the gateway's clock.
fn rx1_start(copy: &HeardCopy, plan: &Plan) -> u64
    requires heard { IsHeard copy.now }
    requires plan { IsPlan plan.now }
    ensures value { result ≡ rx1_start plan.now copy.now }
    ensures bound { result ≤ 2 ^ 60 + 15000000 }
{
    copy.at + u64::from(plan.delay) * SECOND
}

/// The uplink's rate lowered by the offset, DR0 at the lowest.
fn rx1_rate(rate: DataRate, offset: u8) -> DataRate
    ensures value { result ≡ rx1_rate rate offset }
    ensures number { number_of result ≡ number_of rate - offset }
{
    DataRate::from_number(rate.number().saturating_sub(offset)).unwrap_or(DataRate::Dr0)
}

/// Whether a frame at the rate carries the payload at the head of the queue.
fn is_carried(rate: DataRate, payload: Option<u8>) -> bool
    requires { ForSome payload (λ n. n ≤ longest_payload) }
    ensures { result ≡ is_carried rate payload }
{
    payload.is_some_and(|n| BESIDE_PAYLOAD + n <= rate.max_phy())
}

/// The length in bytes of the frame that is sent at the rate.
fn frame_len(rate: DataRate, payload: Option<u8>) -> u8
    requires { ForSome payload (λ n. n ≤ longest_payload) }
    ensures { result ≡ frame_len rate payload }
{
    match payload {
        Some(n) if is_carried(rate, payload) => BESIDE_PAYLOAD + n,
        _ => EMPTY_LEN,
    }
}
