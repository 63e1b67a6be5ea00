// Worked frames, and the published example of a LoRaWAN decoder.

use lora_frame::{
    Body, Down, DownFault, FrameFault, Key, Keys, Up, UpFault, Uplink, check_mic, downlink,
    read_uplink, uplink_bytes,
};
use std::alloc::Global;
use std::test::Fail;
use test_asserts::{equal, equal_at, holds};

const NWK: [u8; 16] = [
    0x2b, 0x7e, 0x15, 0x16, 0x28, 0xae, 0xd2, 0xa6, 0xab, 0xf7, 0x15, 0x88, 0x09, 0xcf, 0x4f, 0x3c,
];

const APP: [u8; 16] = [
    0x00, 0x01, 0x02, 0x03, 0x04, 0x05, 0x06, 0x07, 0x08, 0x09, 0x0a, 0x0b, 0x0c, 0x0d, 0x0e, 0x0f,
];

const ADDR: u32 = 0x2601_1bda;

fn keys() -> Keys {
    Keys {
        nwk: Key::new(NWK),
        app: Key::new(APP),
    }
}

fn empty_down() -> Down<'static> {
    Down {
        addr: ADDR,
        counter: 0,
        ack: true,
        pending: false,
        body: None,
    }
}

fn empty_up() -> Up<'static> {
    Up {
        confirmed: true,
        addr: ADDR,
        counter: 7,
        adr: false,
        adr_ack_req: false,
        ack: false,
        options: &[],
        body: None,
    }
}

/// The bytes of a downlink under the keys of these tests.
fn down(alloc: Global, down: &Down) -> Result<Vec<u8>, DownFault> {
    downlink(alloc, down, &keys())
}

/// The bytes of an uplink under the keys of these tests.
fn up(alloc: Global, up: &Up) -> Result<Vec<u8>, UpFault> {
    uplink_bytes(alloc, up, &keys())
}

/// As many zeros as no payload may have.
static ZEROS: [u8; 243] = [0; 243];

/// A payload of so many zeros.
fn zeros(port: u8, size: usize) -> Option<Body<'static>> {
    Some(Body {
        port,
        payload: ZEROS.get(..size)?,
    })
}

#[test]
fn an_empty_downlink(rt: HostRuntime) -> Result<(), Fail> {
    let frame = down(rt.alloc(), &empty_down())?;
    equal(&frame.len(), &12)?;
    holds(frame.as_slice()[..8] == [0x60, 0xda, 0x1b, 0x01, 0x26, 0x20, 0x00, 0x00])
}

#[test]
fn a_downlink_with_more_to_come(rt: HostRuntime) -> Result<(), Fail> {
    let more = Down {
        pending: true,
        ..empty_down()
    };
    let frame = down(rt.alloc(), &more)?;
    equal(&frame.len(), &12)?;
    equal(&frame[5], &0x30)
}

/// The port and size of a payload, and how long its downlink is.
static DOWNLINKS: [(u8, usize, Result<usize, DownFault>); 6] = [
    (9, 100, Ok(113)),
    (0, 100, Err(DownFault::Port)),
    (224, 100, Err(DownFault::Port)),
    (223, 242, Ok(255)),
    (1, 243, Err(DownFault::Long)),
    (0, 243, Err(DownFault::Port)),
];

/// How long a downlink with this payload is.
fn down_len(alloc: Global, body: Option<Body>) -> Result<usize, DownFault> {
    let full = Down {
        body,
        ..empty_down()
    };
    Ok(down(alloc, &full)?.len())
}

#[test]
fn downlinks(rt: HostRuntime) -> Result<(), Fail> {
    for (port, size, wanted) in &DOWNLINKS {
        equal_at(
            &(*port, *size),
            &down_len(rt.alloc(), zeros(*port, *size)),
            wanted,
        )?;
    }
    Ok(())
}

#[test]
fn an_empty_uplink(rt: HostRuntime) -> Result<(), Fail> {
    let frame = up(rt.alloc(), &empty_up())?;
    equal(&frame.len(), &12)?;
    holds(frame.as_slice()[..8] == [0x80, 0xda, 0x1b, 0x01, 0x26, 0x00, 0x07, 0x00])
}

/// The port of a payload, the size of options and of the payload, and how long the uplink is.
static UPLINKS: [(u8, usize, usize, Result<usize, UpFault>); 9] = [
    (223, 0, 0, Ok(13)),
    (224, 0, 0, Err(UpFault::Port)),
    (224, 16, 0, Err(UpFault::Port)),
    (0, 0, 0, Ok(13)),
    (1, 16, 0, Err(UpFault::Long)),
    (1, 0, 242, Ok(255)),
    (1, 0, 243, Err(UpFault::Long)),
    (1, 15, 227, Ok(255)),
    (1, 15, 228, Err(UpFault::Long)),
];

/// How long an uplink with these options and this payload is.
fn up_len(alloc: Global, options: &[u8], body: Option<Body>) -> Result<usize, UpFault> {
    let full = Up {
        options,
        body,
        ..empty_up()
    };
    Ok(up(alloc, &full)?.len())
}

#[test]
fn uplinks(rt: HostRuntime) -> Result<(), Fail> {
    for (port, options, size, wanted) in &UPLINKS {
        holds(*options <= 16)?;
        let found = up_len(rt.alloc(), &ZEROS[..*options], zeros(*port, *size));
        equal_at(&(*port, *options, *size), &found, wanted)?;
    }
    Ok(())
}

// DevAddr 49be7df1, FCnt 2, FPort 1, the payload "test".
#[test]
fn published_uplink(rt: HostRuntime) -> Result<(), Fail> {
    let nwk = Key::new([
        0x44, 0x02, 0x42, 0x41, 0xed, 0x4c, 0xe9, 0xa6, 0x8c, 0x6a, 0x8b, 0xc0, 0x55, 0x23, 0x3f,
        0xd3,
    ]);
    let app = Key::new([
        0xec, 0x92, 0x58, 0x02, 0xae, 0x43, 0x0c, 0xa7, 0x7f, 0xd3, 0xdd, 0x73, 0xcb, 0x2c, 0xc5,
        0x88,
    ]);
    let up = Up {
        confirmed: false,
        addr: 0x49be_7df1,
        counter: 2,
        body: Some(Body {
            port: 1,
            payload: b"test",
        }),
        ..empty_up()
    };
    let frame = uplink_bytes(rt.alloc(), &up, &Keys { nwk, app })?;
    let wanted = [
        0x40, 0xf1, 0x7d, 0xbe, 0x49, 0x00, 0x02, 0x00, 0x01, 0x95, 0x43, 0x78, 0x76, 0x2b, 0x11,
        0xff, 0x0d,
    ];
    holds(frame.as_slice() == wanted.as_slice())?;
    Ok(())
}

/// A port, and the uplink with the payload "test" on it. FRMPayload is under NwkSKey on FPort 0, and else under AppSKey; these
/// bytes were made with OpenSSL's AES and CMAC.
static ON_PORTS: [(u8, [u8; 17]); 2] = [
    (
        0,
        [
            0x80, 0xda, 0x1b, 0x01, 0x26, 0x00, 0x07, 0x00, 0x00, 0xd1, 0x2b, 0x3f, 0x28, 0x90,
            0xe3, 0xb6, 0xc1,
        ],
    ),
    (
        1,
        [
            0x80, 0xda, 0x1b, 0x01, 0x26, 0x00, 0x07, 0x00, 0x01, 0x37, 0x24, 0xba, 0xf8, 0x76,
            0xa3, 0xc0, 0x99,
        ],
    ),
];

/// Whether an uplink with the payload "test" on this port has these bytes.
fn is_up(alloc: Global, port: u8, wanted: &[u8]) -> Result<bool, UpFault> {
    let payload = b"test";
    let body = Some(Body { port, payload });
    let full = Up { body, ..empty_up() };
    Ok(up(alloc, &full)?.as_slice() == wanted)
}

/// ADR, ADRACKReq and ACK of an uplink, and its FCtrl.
static CONTROLS: [((bool, bool, bool), u8); 4] = [
    ((true, false, false), 0x80),
    ((false, true, false), 0x40),
    ((false, false, true), 0x20),
    ((true, true, true), 0xe0),
];

/// FCtrl of an uplink with these bits, and the bits that are read of it.
fn controlled(
    alloc: Global,
    (adr, adr_ack_req, ack): (bool, bool, bool),
) -> Result<(u8, (bool, bool, bool)), Fail> {
    let asking = Up {
        adr,
        adr_ack_req,
        ack,
        ..empty_up()
    };
    let frame = up(alloc, &asking)?;
    let uplink = read(frame.as_slice())?;
    let control = frame.as_slice().get(5).ok_or("it has no FCtrl")?;
    Ok((*control, (uplink.adr, uplink.adr_ack_req, uplink.ack)))
}

#[test]
fn bits_of_control_are_written_and_read(rt: HostRuntime) -> Result<(), Fail> {
    for (bits, control) in &CONTROLS {
        equal_at(bits, &controlled(rt.alloc(), *bits)?, &(*control, *bits))?;
    }
    Ok(())
}

/// An uplink with counter 66,051, ADR and ACK, three bytes of FOpts, and the bytes 1 to 20 on port 7, as the model in
/// `tests/lorawan.py` makes it.
const WHOLE: [u8; 36] = [
    0x40, 0xda, 0x1b, 0x01, 0x26, 0xa3, 0x03, 0x02, 0x02, 0x03, 0x05, 0x07, 0xe9, 0xbe, 0x6b, 0xf8,
    0xeb, 0xc0, 0xef, 0xc9, 0x7c, 0x45, 0xa8, 0x60, 0x72, 0x40, 0xb4, 0x45, 0x54, 0x13, 0xb8, 0xfb,
    0xbf, 0xef, 0xb1, 0x55,
];

#[test]
fn an_uplink_with_all_its_parts(rt: HostRuntime) -> Result<(), Fail> {
    let whole = Up {
        confirmed: false,
        counter: 66_051,
        adr: true,
        ack: true,
        options: &[2, 3, 5],
        body: Some(Body {
            port: 7,
            payload: &[
                1, 2, 3, 4, 5, 6, 7, 8, 9, 10, 11, 12, 13, 14, 15, 16, 17, 18, 19, 20,
            ],
        }),
        ..empty_up()
    };
    holds(up(rt.alloc(), &whole)?.as_slice() == WHOLE.as_slice())
}

#[test]
fn ports_choose_the_key_of_the_payload(rt: HostRuntime) -> Result<(), Fail> {
    for (port, wanted) in &ON_PORTS {
        holds(is_up(rt.alloc(), *port, wanted)?)?;
    }
    Ok(())
}

#[test]
fn longest_uplink_is_read(rt: HostRuntime) -> Result<(), Fail> {
    let body = zeros(1, 242);
    let full = Up { body, ..empty_up() };
    let frame = up(rt.alloc(), &full)?;
    equal(&frame.len(), &255)?;
    let uplink = read(frame.as_slice())?;
    equal(&(uplink.port, uplink.payload_at), &(Some(1), 9))?;
    holds(has_mic(frame.as_slice(), 7))
}

/// What bytes say as an uplink.
fn read(bytes: &[u8]) -> Result<Uplink, FrameFault> {
    read_uplink(bytes)
}

/// Whether bytes are an uplink that ends in its MIC.
fn has_mic(bytes: &[u8], counter: u32) -> bool {
    read_uplink(bytes).is_ok() && check_mic(bytes, &keys().nwk, counter)
}

/// Bytes, and why they are no uplink: twelve with one option more than they hold, and one less, among them. How many there are is
/// looked at before what they say.
static NO_UPLINKS: [(&[u8], FrameFault); 7] = [
    (&[0; 11], FrameFault::Short),
    (&[0; 256], FrameFault::Long),
    (&[0x40, 0, 0, 0, 0, 1, 0, 0, 0, 0, 0], FrameFault::Short),
    (&[0x40; 256], FrameFault::Long),
    (
        &[0x40, 0, 0, 0, 0, 1, 0, 0, 0, 0, 0, 0],
        FrameFault::OptionsCut,
    ),
    (&[0; 12], FrameFault::NotData),
    (&[0x41; 12], FrameFault::Major),
];

#[test]
fn faults_of_uplinks() -> Result<(), Fail> {
    for (bytes, fault) in &NO_UPLINKS {
        equal(&read(bytes).err(), &Some(*fault))?;
    }
    Ok(())
}

#[test]
fn what_an_uplink_says(rt: HostRuntime) -> Result<(), Fail> {
    let frame = up(rt.alloc(), &empty_up())?;
    let uplink = read(frame.as_slice())?;
    holds(uplink.confirmed)?;
    equal(&(uplink.addr, uplink.low), &(ADDR, 7))?;
    equal(&(uplink.port, uplink.payload_at), &(None, 8))
}

#[test]
fn codes_of_uplinks(rt: HostRuntime) -> Result<(), Fail> {
    let mut frame = up(rt.alloc(), &empty_up())?;
    holds(has_mic(frame.as_slice(), 7))?;
    holds(!has_mic(frame.as_slice(), 65543))?;
    equal(&frame.len(), &12)?;
    frame[11] ^= 1;
    holds(read(frame.as_slice()).is_ok())?;
    holds(!has_mic(frame.as_slice(), 7))
}
