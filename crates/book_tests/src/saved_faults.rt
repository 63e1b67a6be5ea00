// Texts that are no saved book, and books for which there is no memory.
ghost use Rattle.std.specs.Prelude.{◌≡◌, []};

use crate::asks::book_spaced;
use crate::saved::{SECOND, loaded, saved};
use bumpalo::Bump;
use gateway_book::{GatewayBook, LoadFault, MemoryIn};
use resv_list::{Roster, VecRoster};
use resv_tree::TreeRoster;
use std::alloc::Global;
use std::test::Fail;
use test_asserts::{equal, equal_at, holds, holds_at};

const FIRST_LINE: LoadFault = LoadFault::Syntax { line: 1 };

const GATEWAY_LINE: LoadFault = LoadFault::Syntax { line: 2 };

/// Texts that are no saved book, and why. The last two have an hour of a sub-band that is nearly full.
static FAULTS: [(&[u8], LoadFault); 20] = [
    (b"airbook 9\n", LoadFault::Version),
    (
        b"airbook 3\ngateway 1 4096 0 0\nend 0\n",
        LoadFault::Version,
    ),
    (b"airbook 02\ngateway 1 4096 0 0\nend 0\n", FIRST_LINE),
    (b"airbook 2\r\ngateway 1 4096 0 0\nend 0\n", FIRST_LINE),
    (b"airbook 1\ngateway 1 4096 0 0\nend 0\n", GATEWAY_LINE),
    (b"airbook 2\ngateway 1 4096 0\nend 0\n", GATEWAY_LINE),
    (b"airbook 2\ngateway 1\t4096 0 0\nend 0\n", GATEWAY_LINE),
    (b"airbook 2\ngateway 1  4096 0 0\nend 0\n", GATEWAY_LINE),
    (
        b"airbook 2\ngateway 1 0 0 0\nend 0\n",
        LoadFault::Unlawful { line: 2 },
    ),
    (
        b"airbook 2\ngateway 1 4096 0 100001\nend 0\n",
        LoadFault::Unlawful { line: 2 },
    ),
    (
        b"airbook 2\ngateway 1 4096 0 0\nr 01 0 868100000 5 12\nend 1\n",
        LoadFault::Syntax { line: 3 },
    ),
    (
        b"airbook 2\ngateway 1 4096 0 0\nr 1 0 868100000 7 12\nend 1\n",
        LoadFault::Syntax { line: 3 },
    ),
    (
        b"airbook 2\ngateway 1 4096 0 0\nr 1 0 4294967295 5 12\nend 1\n",
        LoadFault::Unlawful { line: 3 },
    ),
    (
        b"airbook 2\ngateway 1 4096 3600000001 0\nr 1 0 868100000 5 12\nend 1\n",
        LoadFault::Unlawful { line: 3 },
    ),
    (
        b"airbook 1\ngateway 1 4096 0\nr 1 10000000 868100000 5 12\nr 2 10041215 868100000 5 12\nend 2\n",
        LoadFault::Unlawful { line: 4 },
    ),
    (
        b"airbook 2\ngateway 1 4096 0 1000\nr 1 10000000 868100000 5 12\nr 2 10041216 868100000 5 12\nend 2\n",
        LoadFault::Unlawful { line: 4 },
    ),
    (
        b"airbook 2\ngateway 1 1 0 0\nr 1 0 868100000 5 12\nr 2 10041216 868100000 5 12\nend 2\n",
        LoadFault::Unlawful { line: 4 },
    ),
    (
        b"airbook 2\ngateway 1 9 0 0\nr 1 10041216 868100000 5 12\nr 2 0 868100000 5 12\nend 2\n",
        LoadFault::Unlawful { line: 4 },
    ),
    (
        b"airbook 1\ngateway 1 4096 0\nr 1 0 863500000 0 12\nr 2 1000000 863500000 0 12\nr 3 2000000 863500000 0 12\n\
          r 4 3000000 863500000 0 12\nend 4\n",
        LoadFault::Unlawful { line: 6 },
    ),
    (
        b"airbook 1\ngateway 1 4096 0\nr 1 0 863500000 0 12\nr 2 1000000 863500000 0 12\nr 3 2000000 863500000 0 12\nend 2\n",
        LoadFault::Syntax { line: 6 },
    ),
];

/// The number of the line at which a text is at fault.
fn line_of(fault: LoadFault) -> u64 {
    match fault {
        LoadFault::Version => 1,
        LoadFault::Syntax { line } | LoadFault::Unlawful { line } => line,
        _ => 0,
    }
}

/// How many bytes so many lines from the first on have, with their ends.
fn bytes_of(text: &[u8], lines: u64) -> u64 {
    let (mut left, mut bytes) = (lines, 0u64);
    for byte in text {
        if left > 0 {
            bytes = bytes.saturating_add(1);
        }
        if *byte == b'\n' {
            left = left.saturating_sub(1);
        }
    }
    bytes
}

#[test]
fn no_read_follows_a_line_at_fault(rt: HostRuntime) -> Result<(), Fail> {
    for (place, (text, fault)) in FAULTS.iter().enumerate() {
        let behind = bytes_of(text, line_of(*fault)).saturating_add(1);
        let mut reader = MemoryIn::failing(text, 1, behind);
        let told = GatewayBook::load(&mut reader, VecRoster::new(rt.alloc())).err();
        equal_at(&place, &told, &Some(*fault))?;
    }
    Ok(())
}

/// A line of which 81 bytes tell that it is too long.
const LONG_LINE: &[u8] =
    b"r 1000000001000000000100000000010000000001000000000100000000010000000001000000001 left\n";

/// Behind so many lines of a saved book just these are read of it: its end may be long in coming.
fn is_left(alloc: Global, lines: u64) -> Result<(), Fail> {
    let text = cut(alloc, SECOND, lines, LONG_LINE)?;
    let mut reader = MemoryIn::new(text.as_slice());
    let told = GatewayBook::load(&mut reader, VecRoster::new(alloc)).err();
    let line = lines.saturating_add(1);
    equal_at(&lines, &told, &Some(LoadFault::Syntax { line }))?;
    equal_at(&lines, &reader.bytes, &b" left\n".as_slice())
}

#[test]
fn a_long_line_is_read_no_further_than_tells_so(rt: HostRuntime) -> Result<(), Fail> {
    for lines in 0..4 {
        is_left(rt.alloc(), lines)?;
    }
    Ok(())
}

/// A saved book of forty transmissions.
fn forty<R: Roster + Drop>(alloc: Global, roster: R) -> Result<Vec<u8, Global>, Fail>
    requires { R.list roster ≡ [] }
{
    let mut book = GatewayBook::new(roster, 1, 64, 0)?;
    book_spaced(&mut book, 40)?;
    saved(alloc, &book)
}

/// How many the book of a text keeps.
fn kept_of<R: Roster + Drop>(text: &[u8], roster: R) -> Result<usize, LoadFault>
    requires { R.list roster ≡ [] }
{
    Ok(loaded(text, roster)?.totals().kept)
}

/// Whether there was memory for the forty; no other fault is met.
fn are_kept(kept: Result<usize, LoadFault>) -> Result<bool, Fail> {
    if kept == Err(LoadFault::NoMemory) {
        return Ok(false);
    }
    equal(&kept, &Ok(40))?;
    Ok(true)
}

/// An arena of so many bytes that takes no more.
fn arena_of(alloc: Global, bytes: usize) -> Result<Bump<Global>, Fail> {
    let arena = Bump::try_with_capacity(alloc, bytes)?;
    arena.set_allocation_limit(Some(arena.allocated_bytes()));
    Ok(arena)
}

/// Whether there is memory for the forty in a vector, in an arena of so many bytes.
fn fill_vector(alloc: Global, text: &[u8], bytes: usize) -> Result<bool, Fail> {
    let arena = arena_of(alloc, bytes)?;
    are_kept(kept_of(text, VecRoster::new(&arena)))
}

/// The same in a tree.
fn fill_tree(alloc: Global, text: &[u8], bytes: usize) -> Result<bool, Fail> {
    let arena = arena_of(alloc, bytes)?;
    are_kept(kept_of(text, TreeRoster::new(&arena)))
}

#[test]
fn each_growth_that_is_refused_is_told(rt: HostRuntime) -> Result<(), Fail> {
    let text = forty(rt.alloc(), VecRoster::new(rt.alloc()))?;
    let mut loads = (false, false);
    for step in 0..256 {
        let vector = fill_vector(rt.alloc(), text.as_slice(), 64 * step)?;
        let tree = fill_tree(rt.alloc(), text.as_slice(), 64 * step)?;
        holds(step > 1 || !vector && !tree)?;
        holds_at(&step, (vector || !loads.0) && (tree || !loads.1))?;
        loads = (vector, tree);
    }
    equal(&loads, &(true, true))
}

/// The first lines of a text, so many, and another one behind them.
fn cut(alloc: Global, text: &[u8], lines: u64, last: &[u8]) -> Result<Vec<u8, Global>, Fail> {
    let mut cut = Vec::new(alloc);
    let mut left = lines;
    for line in text.split_inclusive(|byte| *byte == b'\n') {
        if left > 0 {
            cut.extend_from_slice(line)?;
            left = left.saturating_sub(1);
        }
    }
    cut.extend_from_slice(last)?;
    Ok(cut)
}

/// Why a text is no saved book, in a tree in an arena that has no room for forty members.
fn fault_in_arena(alloc: Global, text: &[u8]) -> Result<Option<LoadFault>, Fail> {
    let arena = arena_of(alloc, 2_048)?;
    Ok(loaded(text, TreeRoster::new(&arena)).err())
}

/// Whether there is room for so many of the forty. A line behind them that is at fault is told then, and needs no room.
fn tells_what_follows(alloc: Global, text: &[u8], count: u64) -> Result<bool, Fail> {
    let lines = count.saturating_add(2);
    let line = lines.saturating_add(1);
    let ended = cut(alloc, text, lines, b"")?;
    let spoiled = cut(alloc, text, lines, b"r 99 0 868100000 5 12\n")?;
    let are_kept = fault_in_arena(alloc, &ended)? == Some(LoadFault::Syntax { line });
    let wanted = if are_kept {
        LoadFault::Unlawful { line }
    } else {
        LoadFault::NoMemory
    };
    equal_at(&count, &fault_in_arena(alloc, &spoiled)?, &Some(wanted))?;
    Ok(are_kept)
}

#[test]
fn a_line_at_fault_needs_no_memory(rt: HostRuntime) -> Result<(), Fail> {
    let text = forty(rt.alloc(), VecRoster::new(rt.alloc()))?;
    holds(tells_what_follows(rt.alloc(), text.as_slice(), 1)?)?;
    for count in 2..40 {
        tells_what_follows(rt.alloc(), text.as_slice(), count)?;
    }
    holds(!tells_what_follows(rt.alloc(), text.as_slice(), 40)?)
}
