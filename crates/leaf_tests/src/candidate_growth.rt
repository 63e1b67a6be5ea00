// What the candidates of an uplink take from their allocator: one growth for all. An arena gives nothing back for a growth
// that another one follows, so growing along with the list would take more.
ghost use Rattle.std.specs.Prelude.{All};
ghost use Rattle.rx_windows.specs.Windows.{IsHeard};

use crate::windows::{copy, plan};
use bumpalo::Bump;
use rx_windows::candidates;
use std::alloc::Global;
use std::test::Fail;
use test_asserts::{equal, holds};
use uplink_gather::HeardCopy;

/// More than these candidates take.
const AMPLE_BYTES: usize = 4_096;

/// How many bytes an arena gave for the candidates of these copies, and how many there are.
fn taken(alloc: Global, copies: &[HeardCopy]) -> Result<(usize, usize), Fail>
    requires { All IsHeard copies.now }
{
    let arena = Bump::try_with_capacity(alloc, AMPLE_BYTES)?;
    let free = arena.chunk_capacity();
    let found = candidates(&arena, copies, &plan(1, 2, None))?;
    Ok((free.saturating_sub(arena.chunk_capacity()), found.len()))
}

#[test]
fn candidates_take_one_growth_for_all(rt: HostRuntime) -> Result<(), Fail> {
    let [one, other] = [copy(1, 5_000_000, 55, -90), copy(2, 6_000_000, 55, -80)];
    let (for_two, two) = taken(rt.alloc(), &[one])?;
    equal(&two, &2)?;
    holds(for_two > 0)?;
    let (for_six, six) = taken(rt.alloc(), &[one, other, one])?;
    equal(&(for_six, six), &(for_two.saturating_mul(3), 6))?;
    let (for_ten, ten) = taken(rt.alloc(), &[one, other, one, other, one])?;
    equal(&(for_ten, ten), &(for_two.saturating_mul(5), 10))?;
    Ok(())
}
