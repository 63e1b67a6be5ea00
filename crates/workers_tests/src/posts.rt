// A station at its post, with the tills of its ledger and the receipts of what it booked.
ghost use Rattle.std.specs.Prelude.{◌≡◌};

use answer_ticket::Receipt;
use gateway_book::Totals;
use server_core::{DeviceSetting, GatewaySetting, Settings};
use server_workers::{Blank, Ledger, PARTS, Station, Till};
use std::alloc::{Allocator, Global};
use std::sync::Wait;
use std::test::Fail;
use worked_inputs::{WorkedHasher, device, hasher};

pub(crate) type TestStation<B> = Station<B, WorkedHasher>;

/// A station at work.
#[derive(Drop)]
pub(crate) struct Post<'a, B: Ledger, R: Wait> {
    pub(crate) rt: &'a R,
    pub(crate) alloc: Global,
    pub(crate) station: TestStation<B>,
    /// The last one counts what is settled.
    pub(crate) tills: Vec<Till<B>>,
    pub(crate) receipts: Vec<Receipt<Global>>,
}

/// A station of these gateways and of the devices from address 1 on, which heard nothing.
pub(crate) fn opened<'a, B: Ledger, R: Wait>(
    rt: &'a R,
    alloc: Global,
    gateways: &[u16],
    devices: u32,
    blank: Blank,
) -> Result<Post<'a, B, R>, Fail>
    requires name { blank.name ≡ B.name }
    requires parts { blank.parts ≡ B.parts }
    requires all { blank.parts ≡ PARTS }
{
    let settings = settings_of(alloc, gateways, devices)?;
    let (station, till) = Station::new(alloc, hasher(), &settings, blank)?;
    Ok(Post {
        rt,
        alloc,
        station,
        tills: listed(alloc, till)?,
        receipts: Vec::new(alloc),
    })
}

/// One till as a list.
fn listed<B: Ledger>(alloc: Global, till: Till<B>) -> Result<Vec<Till<B>>, Fail> {
    let mut tills = Vec::new(alloc);
    tills.push(till)?;
    Ok(tills)
}

/// The settings of these gateways and of the devices from address 1 on.
pub(crate) fn settings_of(
    alloc: Global,
    gateways: &[u16],
    devices: u32,
) -> Result<Settings<Global>, Fail> {
    let mut settings = Vec::new(alloc);
    for id in gateways {
        settings.push(GatewaySetting {
            id: *id,
            cap: 4_096,
            gap: 0,
        })?;
    }
    Ok(Settings::new(settings, devices_of(alloc, devices)?)?)
}

/// So many devices, from address 1 on.
fn devices_of(alloc: Global, count: u32) -> Result<Vec<DeviceSetting>, Fail> {
    let mut devices = Vec::new(alloc);
    for before in 0..count {
        devices.push(device(before + 1))?;
    }
    Ok(devices)
}

/// What the books of the gateways 1 and 2 have counted.
pub(crate) fn totals_at<B: Ledger, A: Allocator + Copy, R: Wait>(
    rt: &R,
    station: &Station<B, WorkedHasher, A>,
) -> [Option<Totals>; 2] {
    [station.totals(rt, 1, 0).ok(), station.totals(rt, 2, 0).ok()]
}
