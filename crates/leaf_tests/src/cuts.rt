// What is read of an uplink that was cut.

use lora_frame::{Body, FrameFault, Key, Keys, Up, UpFault, read_uplink, uplink_bytes};
use std::alloc::Global;
use std::test::Fail;
use test_asserts::{equal, equal_at};

/// How long the uplink of this test is.
const LEN: usize = 228;

/// An uplink with 15 bytes of options, and 200 of payload on port 1.
fn long_uplink(alloc: Global) -> Result<Vec<u8>, UpFault> {
    let up = Up {
        confirmed: true,
        addr: 0x2601_1bda,
        counter: 7,
        adr: false,
        adr_ack_req: false,
        ack: false,
        options: &[2; 15],
        body: Some(Body {
            port: 1,
            payload: &[3; 200],
        }),
    };
    let keys = Keys {
        nwk: Key::new([1; 16]),
        app: Key::new([2; 16]),
    };
    uplink_bytes(alloc, &up, &keys)
}

/// The port that bytes say as an uplink.
fn port_in(bytes: &[u8]) -> Result<Option<u8>, FrameFault> {
    read_uplink(bytes).map(|uplink| uplink.port)
}

#[test]
fn an_uplink_is_read_from_its_options_on(rt: HostRuntime) -> Result<(), Fail> {
    let frame = long_uplink(rt.alloc())?;
    equal(&frame.len(), &LEN)?;
    for len in 0..=LEN {
        let wanted = match len {
            0..=11 => Err(FrameFault::Short),
            12..=26 => Err(FrameFault::OptionsCut),
            27 => Ok(None),
            _ => Ok(Some(1)),
        };
        equal_at(&len, &port_in(&frame.as_slice()[..len]), &wanted)?;
    }
    Ok(())
}
