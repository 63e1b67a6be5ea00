// What the writing of a frame takes from its allocator: one growth of the frame's own length. An arena gives nothing back
// for a growth that another one follows, so two growths would take more.

use bumpalo::Bump;
use lora_frame::{Body, Down, Key, Keys, Up, downlink, uplink_bytes};
use std::alloc::Global;
use std::test::Fail;
use test_asserts::{equal_at, holds};

/// More than any frame takes.
const AMPLE_BYTES: usize = 4_096;

fn keys() -> Keys {
    Keys {
        nwk: Key::new([1; 16]),
        app: Key::new([2; 16]),
    }
}

/// What a payload of so many bytes is, of a downlink or an uplink.
fn body(bytes: &[u8]) -> Option<Body<'_>> {
    Some(Body {
        port: 1,
        payload: bytes,
    })
}

/// How many bytes an arena gave for a downlink with this payload, and how long the frame is.
fn taken_by_downlink(alloc: Global, payload: &[u8]) -> Result<(usize, usize), Fail> {
    let arena = Bump::try_with_capacity(alloc, AMPLE_BYTES)?;
    let free = arena.chunk_capacity();
    let down = Down {
        addr: 1,
        counter: 0,
        ack: true,
        pending: false,
        body: body(payload),
    };
    let frame = downlink(&arena, &down, &keys())?;
    Ok((free.saturating_sub(arena.chunk_capacity()), frame.len()))
}

/// The same of an uplink.
fn taken_by_uplink(alloc: Global, payload: &[u8]) -> Result<(usize, usize), Fail> {
    let arena = Bump::try_with_capacity(alloc, AMPLE_BYTES)?;
    let free = arena.chunk_capacity();
    let up = Up {
        confirmed: true,
        addr: 1,
        counter: 7,
        adr: false,
        adr_ack_req: false,
        ack: false,
        options: &[],
        body: body(payload),
    };
    let frame = uplink_bytes(&arena, &up, &keys())?;
    Ok((free.saturating_sub(arena.chunk_capacity()), frame.len()))
}

static PAYLOAD: [u8; 242] = [7; 242];

/// How many bytes of the payload a frame has.
static SIZES: [usize; 10] = [1, 2, 11, 15, 16, 17, 51, 115, 222, 242];

/// Fails where a frame with so many bytes of the payload takes more, or less, than its own length.
fn takes_its_length(alloc: Global, size: usize) -> Result<(), Fail> {
    holds(size <= 242)?;
    let wanted = (size + 13, size + 13);
    equal_at(&size, &taken_by_downlink(alloc, &PAYLOAD[..size])?, &wanted)?;
    equal_at(&size, &taken_by_uplink(alloc, &PAYLOAD[..size])?, &wanted)
}

#[test]
fn a_frame_takes_one_growth_of_its_own_length(rt: HostRuntime) -> Result<(), Fail> {
    for size in &SIZES {
        takes_its_length(rt.alloc(), *size)?;
    }
    Ok(())
}
