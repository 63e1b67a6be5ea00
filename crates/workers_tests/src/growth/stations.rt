// Work at stations whose growths are refused.
ghost use Rattle.std.specs.Prelude.{◌≡◌, ◌<◌, IfOk};

use crate::asks::copy_of;
use crate::posts::settings_of;
use refusing_alloc::{MOST_GROWTHS, Refuser, Refusing, same, was_refused};
use server_core::Settings;
use server_workers::{Blank, Ledger, PARTS, Station, Till};
use std::alloc::{Allocator, Global};
use std::marker::Brand;
use std::sync::Wait;
use std::test::Fail;
use worked_inputs::{WorkedHasher, hasher, uplink};

/// Some work takes so many growths at a new station of gateways 1 and 2, which heard an uplink of each of so many devices; each
/// is refused once.
pub(crate) fn takes<R: Wait, W: AtWork>(
    rt: &R,
    memory: Global,
    heard: u32,
    work: &W,
    growths: u64,
) -> Result<(), Fail> {
    let settings = settings_of(memory, &[1, 2], heard.max(2))?;
    let alloc = &Refusing::new(memory);
    for number in 1..MOST_GROWTHS {
        let blank = Blank::new(PARTS as u64);
        if !is_refused::<Brand, _, _, _>(
            rt, memory, alloc, alloc, &settings, blank, heard, work, number,
        )? {
            return same(number - 1, growths);
        }
    }
    Err(Fail::from("no end of growths"))
}

fn is_refused<B: Ledger, A: Allocator + Copy, R: Wait, W: AtWork>(
    rt: &R,
    memory: Global,
    alloc: &Refuser,
    own: A,
    settings: &Settings<Global>,
    blank: Blank,
    heard: u32,
    work: &W,
    number: u64,
) -> Result<bool, Fail>
    requires name { blank.name ≡ B.name }
    requires parts { blank.parts ≡ B.parts }
    requires all { blank.parts ≡ PARTS }
{
    let (station, till) = opened::<B, _, _>(rt, memory, own, settings, blank, heard)?;
    work.is_refused(rt, alloc, own, station, till, number)
}

/// A new station of these settings that heard an uplink of each of so many devices, and the till with all parts of its ledger.
pub(crate) fn opened<B: Ledger, A: Allocator + Copy, R: Wait>(
    rt: &R,
    memory: Global,
    own: A,
    settings: &Settings<Global>,
    blank: Blank,
    heard: u32,
) -> Result<(Station<B, WorkedHasher, A>, Till<B>), Fail>
    requires name { blank.name ≡ B.name }
    requires parts { blank.parts ≡ B.parts }
    requires all { blank.parts ≡ PARTS }
    ensures { IfOk result (λ made. 16 < made.1.parts) }
{
    let made = Station::<B, _, _>::new(own, hasher(), settings, blank)?;
    hears(rt, memory, &made.0, heard)?;
    Ok(made)
}

/// A station hears a confirmed uplink of the device with this address, by gateway `1 + addr mod 2`, until a million microseconds
/// for each address, and closes it: that with the address as its number.
fn hears_one<B: Ledger, A: Allocator + Copy, R: Wait>(
    rt: &R,
    memory: Global,
    station: &Station<B, WorkedHasher, A>,
    addr: u32,
) -> Result<(), Fail> {
    station.hear(rt, &uplink(memory, true, addr, 0)?, copy_of(addr), 0)?;
    same(station.pass(rt, 200_001), Some(addr as u64))
}

/// The same of each of so many devices.
fn hears<B: Ledger, A: Allocator + Copy, R: Wait>(
    rt: &R,
    memory: Global,
    station: &Station<B, WorkedHasher, A>,
    heard: u32,
) -> Result<(), Fail> {
    for before in 0..heard {
        hears_one(rt, memory, station, before + 1)?;
    }
    Ok(())
}

/// Refuses the growth of this number, and all after it, where a station of these settings is made: whether there was one.
fn is_made_without<B: Ledger, A: Allocator + Copy>(
    alloc: &Refuser,
    own: A,
    settings: &Settings<Global>,
    blank: Blank,
    number: u64,
) -> Result<bool, Fail>
    requires name { blank.name ≡ B.name }
    requires parts { blank.parts ≡ B.parts }
    requires all { blank.parts ≡ PARTS }
{
    alloc.refuse_from(number);
    let is_starved = Station::<B, _, _>::new(own, hasher(), settings, blank).is_err();
    was_refused(alloc, number, is_starved, true)
}

// Refuses `server_station` `Station::new`: by size: 1 more than its desk.
/// It takes eight growths.
#[test]
fn a_station_is_made(rt: HostRuntime) -> Result<(), Fail> {
    let settings = settings_of(rt.alloc(), &[1, 2], 1)?;
    let alloc = &Refusing::new(rt.alloc());
    for number in 1..=9 {
        let blank = Blank::new(PARTS as u64);
        let is_refused = is_made_without::<Brand, _>(alloc, alloc, &settings, blank, number)?;
        same((number, is_refused), (number, number <= 8))?;
    }
    Ok(())
}

/// What is done at a station.
pub(crate) trait AtWork {
    /// Does it with the growth of this number refused: whether there was one. The station takes its memory from that allocator,
    /// which stands behind a type parameter too, and the till has all parts of its ledger.
    fn is_refused<B: Ledger, A: Allocator + Copy, R: Wait>(
        &self,
        rt: &R,
        alloc: &Refuser,
        own: A,
        station: Station<B, WorkedHasher, A>,
        till: Till<B>,
        number: u64,
    ) -> Result<bool, Fail>
        requires { 16 < till.parts };
}
