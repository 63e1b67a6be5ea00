// Worked uplinks.

ghost use Rattle.std.specs.Prelude.{◌≡◌, ◌^◌, ◌≤◌};
ghost use Rattle.std.specs.Option.{ForSome};
ghost use Rattle.rx_windows.specs.Windows.{IsHeard, IsPlan};

use radio_airtime::DataRate;
use rx_windows::{Candidate, Plan, Window, candidates, rank};
use std::test::Fail;
use test_asserts::{equal, holds};
use uplink_gather::HeardCopy;

/// A copy at DR5 on 868.1 MHz.
pub(crate) fn copy(gateway: u16, at: u64, snr: i16, rssi: i16) -> HeardCopy
    requires { at ≤ 2 ^ 60 }
    ensures gateway { result.gateway ≡ gateway }
    ensures heard { IsHeard result }
{
    HeardCopy {
        gateway,
        at,
        freq_hz: 868_100_000,
        rate: DataRate::Dr5,
        snr,
        rssi,
    }
}

/// How a device listens, with RX2 on 869.525 MHz at DR0; the delay in seconds, the payload in bytes.
pub(crate) fn plan(delay: u8, offset: u8, payload: Option<u8>) -> Plan
    requires delay_from { 1 ≤ delay }
    requires delay_to { delay ≤ 15 }
    requires offset { offset ≤ 5 }
    requires payload { ForSome payload (λ n. n ≤ 242) }
    ensures { IsPlan result }
{
    Plan {
        delay,
        offset,
        rx2_freq: 869_525_000,
        rx2_rate: DataRate::Dr0,
        payload,
    }
}

/// RX1 with an empty frame.
fn first(gateway: u16, start: u64, rate: DataRate) -> Candidate {
    Candidate {
        gateway,
        window: Window::Rx1,
        start,
        freq_hz: 868_100_000,
        rate,
        len: 12,
        carries: false,
    }
}

/// RX2 with an empty frame.
fn second(gateway: u16, start: u64) -> Candidate {
    Candidate {
        gateway,
        window: Window::Rx2,
        start,
        freq_hz: 869_525_000,
        rate: DataRate::Dr0,
        len: 12,
        carries: false,
    }
}

#[test]
fn three_copies(rt: HostRuntime) -> Result<(), Fail> {
    let mut copies = [
        copy(1, 5_000_000, 55, -90),
        copy(2, 6_000_000, 55, -80),
        copy(3, 7_000_000, -20, -60),
    ];
    rank(&mut copies);
    let ranked = [
        copy(2, 6_000_000, 55, -80),
        copy(1, 5_000_000, 55, -90),
        copy(3, 7_000_000, -20, -60),
    ];
    holds(copies.as_slice() == ranked.as_slice())?;
    let found = candidates(rt.alloc(), &ranked, &plan(1, 2, None))?;
    let wanted = [
        first(2, 7_000_000, DataRate::Dr3),
        first(1, 6_000_000, DataRate::Dr3),
        first(3, 8_000_000, DataRate::Dr3),
        second(2, 8_000_000),
        second(1, 7_000_000),
        second(3, 9_000_000),
    ];
    holds(found.as_slice() == wanted.as_slice())?;
    Ok(())
}

#[test]
fn of_equal_signals_the_smaller_gateway_is_first() -> Result<(), Fail> {
    let mut copies = [
        copy(9, 5_000_000, 55, -80),
        copy(2, 6_000_000, 55, -80),
        copy(5, 7_000_000, 55, -80),
    ];
    rank(&mut copies);
    let ranked = [
        copy(2, 6_000_000, 55, -80),
        copy(5, 7_000_000, 55, -80),
        copy(9, 5_000_000, 55, -80),
    ];
    holds(copies.as_slice() == ranked.as_slice())?;
    Ok(())
}

#[test]
fn offsets_of_rx1_end_at_dr0(rt: HostRuntime) -> Result<(), Fail> {
    let slow = HeardCopy {
        rate: DataRate::Dr1,
        ..copy(1, 5_000_000, 0, -100)
    };
    // 113 bytes fit DR3, which is two below DR5, and 64 bytes are the most at DR0
    let cases = [
        (copy(1, 5_000_000, 0, -100), 2, DataRate::Dr3, true),
        (copy(1, 5_000_000, 0, -100), 5, DataRate::Dr0, false),
        (slow, 1, DataRate::Dr0, false),
        (slow, 2, DataRate::Dr0, false),
        (slow, 5, DataRate::Dr0, false),
    ];
    for (heard, offset, rate, carries) in cases {
        holds(heard.at <= 1 << 60 && offset <= 5)?;
        let found = candidates(rt.alloc(), &[heard], &plan(1, offset, Some(100)))?;
        let rx1 = Candidate {
            len: if carries { 113 } else { 12 },
            carries,
            ..first(1, 6_000_000, rate)
        };
        holds(found.as_slice() == [rx1, second(1, 7_000_000)].as_slice())?;
    }
    Ok(())
}

#[test]
fn no_copies(rt: HostRuntime) -> Result<(), Fail> {
    let found = candidates(rt.alloc(), &[], &plan(1, 0, None))?;
    holds(found.is_empty())?;
    Ok(())
}

#[test]
fn longest_delay(rt: HostRuntime) -> Result<(), Fail> {
    let copies = [copy(1, 5_000_000, 0, -100)];
    let found = candidates(rt.alloc(), &copies, &plan(15, 0, None))?;
    let wanted = [first(1, 20_000_000, DataRate::Dr5), second(1, 21_000_000)];
    holds(found.as_slice() == wanted.as_slice())?;
    Ok(())
}

#[test]
fn payload_that_fits_only_rx1(rt: HostRuntime) -> Result<(), Fail> {
    let copies = [copy(1, 5_000_000, 0, -100)];
    let found = candidates(rt.alloc(), &copies, &plan(1, 0, Some(100)))?;
    let carrying = Candidate {
        len: 113,
        carries: true,
        ..first(1, 6_000_000, DataRate::Dr5)
    };
    let wanted = [carrying, second(1, 7_000_000)];
    holds(found.as_slice() == wanted.as_slice())?;
    Ok(())
}

#[test]
fn window_names(rt: HostRuntime) -> Result<(), Fail> {
    let names = format!(in rt.alloc(); "{} {}", Window::Rx1, Window::Rx2)?;
    equal(&names.as_str(), &"RX1 RX2")?;
    Ok(())
}
