//! Two gateways hear an uplink, and two workers answer it.
#![tactic(auto)]

ghost use Rattle.std.specs.Prelude.{◌≡◌};

use radio_airtime::DataRate;
use server_desk::{DeviceSetting, GatewaySetting, Heard1, Settings};
use server_workers::{Blank, Ledger, NoGate, PARTS, Station, serve};
use std::alloc::Global;
use std::hash::{BuildHasherDefault, FoldHasher};
use std::io;
use std::marker::Brand;
use std::sync::Wait;
use std::thread::Threads;

/// A confirmed uplink of the device below, with counter 7.
static UPLINK: [u8; 12] = [
    0x80, 0xda, 0x1b, 0x01, 0x26, 0x00, 0x07, 0x00, 0x09, 0xc8, 0x91, 0x41,
];

const DEVICE: DeviceSetting = DeviceSetting {
    addr: 0x2601_1bda,
    nwk: [
        0x2b, 0x7e, 0x15, 0x16, 0x28, 0xae, 0xd2, 0xa6, 0xab, 0xf7, 0x15, 0x88, 0x09, 0xcf, 0x4f,
        0x3c,
    ],
    app: [0, 1, 2, 3, 4, 5, 6, 7, 8, 9, 10, 11, 12, 13, 14, 15],
    delay: 1,
    offset: 0,
    rx2_freq: 869_525_000,
    rx2_rate: DataRate::Dr0,
    up: None,
    down: 0,
};

/// A gateway's copy, whose uplink ended at this moment of the gateway's clock.
fn copy(gateway: u16, at: u64, rssi: i16) -> Heard1 {
    Heard1 {
        gateway,
        at,
        freq_hz: 868_100_000,
        rate: 5,
        snr: 55,
        rssi,
    }
}

/// The settings of two gateways and the device.
fn settings_of(alloc: Global) -> Option<Settings<Global>> {
    let gateways = [1, 2].map(|id| GatewaySetting {
        id,
        cap: 4_096,
        gap: 45_000,
    });
    Settings::new(gateways.to_vec(alloc).ok()?, [DEVICE].to_vec(alloc).ok()?).ok()
}

/// Serves one uplink, and tells what was booked.
fn serve_one<B: Ledger + Send + Sync, R: AllocGlobal + Print + Threads + Wait + Sync>(
    rt: &R,
    blank: Blank,
) -> io::Result<()>
    requires name { blank.name ≡ B.name }
    requires parts { blank.parts ≡ B.parts }
    requires all { blank.parts ≡ PARTS }
{
    let alloc = rt.alloc();
    let Some(settings) = settings_of(alloc) else {
        return println!(rt; "the settings are refused");
    };
    let hasher: BuildHasherDefault<FoldHasher> = BuildHasherDefault::new();
    let Ok((station, till)) = Station::<B, _, _>::new(alloc, hasher, &settings, blank) else {
        return println!(rt; "there is no memory");
    };
    let _ = station.hear(rt, &UPLINK, copy(1, 5_000_000, -90), 1_000);
    let _ = station.hear(rt, &UPLINK, copy(2, 9_000_000, -80), 1_100);
    let _ = station.tick(rt, 1, 5_600_001);
    let _ = station.tick(rt, 2, 9_599_901);
    let Some(number) = station.pass(rt, 201_001) else {
        return println!(rt; "nothing is closed");
    };
    let Ok(served) = serve(rt, alloc, &station, &[number], till, 2, &NoGate) else {
        return println!(rt; "nobody works");
    };
    for receipt in served.receipts.iter() {
        println!(rt;
            "{} on {} at {}",
            receipt.number, receipt.gateway, receipt.reservation.start
        )?;
    }
    let mut tills = Vec::new(alloc);
    if tills.push(served.till).is_err() {
        return println!(rt; "there is no memory");
    }
    match station.finish(alloc, tills, &served.receipts) {
        Ok(closing) => println!(rt; "{} us are booked", closing.booked),
        Err(fault) => println!(rt; "{}", fault.cause),
    }
}

fn main(rt: HostRuntime) -> io::Result<()> {
    serve_one::<Brand, _>(&rt, Blank::new(PARTS as u64))
}
