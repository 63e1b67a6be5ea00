// A day of a station's ledger, with two workers' tills.
ghost use Rattle.std.specs.Prelude.{◌≡◌};

use air_ledger::{Blank, Ledger, PARTS, Till, begin};
use std::alloc::Global;
use std::marker::Brand;
use std::process::Abort;
use std::test::Fail;
use test_asserts::holds;

/// Two workers count airtime with a part each, up to the greatest total, 2^62 us; their tills are gathered with the rest. Answers
/// the total, and the parts of the rest, of one worker's till, and of all.
fn day<B: Ledger>(alloc: Global, blank: Blank) -> Result<(u64, u32, u32, u32), Fail>
    requires name { blank.name ≡ B.name }
    requires parts { blank.parts ≡ B.parts }
    requires all { blank.parts ≡ PARTS }
{
    let (mut tally, mut rest) = begin::<B>(blank);
    let mut first = rest.split();
    let mut second = rest.split();
    tally.add(&mut first, 41_216);
    tally.add(&mut second, 991_232);
    tally.add(&mut first, 20_608);
    tally.add(&mut second, (1 << 62) - 1_053_056);
    let (left, one) = (rest.parts(), first.parts());
    let mut tills = Vec::with_capacity(alloc, 3)?;
    tills.push_reserved(first);
    tills.push_reserved(second);
    tills.push_reserved(rest);
    match Till::gather(tills) {
        Ok(mut whole) => {
            tally.audit(&mut whole);
            Ok((tally.total(), left, one, whole.parts()))
        }
        Err(_) => Ok((0, 0, 0, 0)),
    }
}

/// Whether tills of which there are none are handed back.
fn nothing_gathered<B: Ledger>(alloc: Global) -> bool {
    let tills: Vec<Till<B>> = Vec::new(alloc);
    match Till::gather(tills) {
        Ok(_) => false,
        Err(back) => back.is_empty(),
    }
}

#[test]
fn all_parts_hold_all_airtime(rt: HostRuntime) -> Result<(), Fail> {
    let told = day::<Brand>(rt.alloc(), Blank::new(PARTS as u64))?;
    assert_eq!(rt; told, (1 << 62, 65_534, 1, 65_536));
    Ok(())
}

#[test]
fn no_tills_are_handed_back(rt: HostRuntime) -> Result<(), Fail> {
    holds(nothing_gathered::<Brand>(rt.alloc()))?;
    Ok(())
}
