// Worked settings: what each key says, and the fault of texts that give none.
use airbook_text::{DataRate, DeviceSetting, GatewaySetting, ReadFault, read_settings};
use std::alloc::Global;
use std::test::Fail;
use test_asserts::{equal_at, holds};

const GATEWAY: &str = "[[gateway]]\nid = 1\n";

const DEVICE: &str =
    "[[device]]\naddr = \"26011bda\"\nnwkskey = \"2b7e151628aed2a6abf7158809cf4f3c\"\n\
     appskey = \"000102030405060708090a0b0c0d0e0f\"\n";

const ALL_KEYS: &str =
    "site = 3\n[[gateway]]\nid = 65535\ncap = 65536\ngap = 100000\nplace = \"roof\"\n[[device]]\n\
     addr = \"26011bda\"\nnwkskey = \"2b7e151628aed2a6abf7158809cf4f3c\"\n\
     appskey = \"000102030405060708090a0b0c0d0e0f\"\ndelay = 15\noffset = 5\nrx2_freq = 868300000\nrx2_dr = 6\n\
     up = 4294967295\ndown = 4294967296\nname = \"pump\"\n";

const INLINE: &str =
    "gateway = [{id = 1}]\ndevice = [{addr = \"26011BDA\", nwkskey = \"2B7E151628AED2A6ABF7158809CF4F3C\", appskey = \
     \"000102030405060708090A0b0C0d0E0f\"}]\n";

/// The device of `DEVICE`, with the default of every other key.
const PLAIN: DeviceSetting = DeviceSetting {
    addr: 0x2601_1bda,
    nwk: [
        0x2b, 0x7e, 0x15, 0x16, 0x28, 0xae, 0xd2, 0xa6, 0xab, 0xf7, 0x15, 0x88, 0x09, 0xcf, 0x4f,
        0x3c,
    ],
    app: [0, 1, 2, 3, 4, 5, 6, 7, 8, 9, 10, 11, 12, 13, 14, 15],
    delay: 1,
    offset: 0,
    rx2_freq: 869_525_000,
    rx2_rate: DataRate::Dr0,
    up: None,
    down: 0,
};

/// Whether a text gives these gateways and devices, and no others.
fn gives(
    alloc: Global,
    text: &str,
    gateways: &[GatewaySetting],
    devices: &[DeviceSetting],
) -> Result<bool, Fail> {
    let settings = read_settings(alloc, text)?;
    Ok(settings.gateways() == gateways && settings.devices() == devices)
}

#[test]
fn keys_are_read(rt: HostRuntime) -> Result<(), Fail> {
    let alloc = rt.alloc();
    let plain = [GatewaySetting {
        id: 1,
        cap: 4_096,
        gap: 0,
    }];
    let greatest = [GatewaySetting {
        id: 65_535,
        cap: 65_536,
        gap: 100_000,
    }];
    let full = DeviceSetting {
        delay: 15,
        offset: 5,
        rx2_freq: 868_300_000,
        rx2_rate: DataRate::Dr6,
        up: Some(4_294_967_295),
        down: 4_294_967_296,
        ..PLAIN
    };
    let both = format!(in alloc; "{GATEWAY}{DEVICE}")?;
    holds(gives(alloc, GATEWAY, &plain, &[])?)?;
    holds(gives(alloc, both.as_str(), &plain, &[PLAIN])?)?;
    holds(gives(alloc, ALL_KEYS, &greatest, &[full])?)?;
    holds(gives(alloc, INLINE, &plain, &[PLAIN])?)?;
    Ok(())
}

/// The name of the fault of a text.
fn fault_of(alloc: Global, text: &str) -> Option<&'static str> {
    read_settings(alloc, text).err().map(ReadFault::name)
}

/// The name of the fault of a gateway, a device, and these lines behind them.
fn fault_behind(alloc: Global, lines: &str) -> Result<Option<&'static str>, Fail> {
    let text = format!(in alloc; "{GATEWAY}{DEVICE}{lines}")?;
    Ok(fault_of(alloc, text.as_str()))
}

/// A text, and its fault.
static OF_GATEWAYS: [(&str, &str); 15] = [
    ("", "Count"),
    ("gateway = []\n", "Count"),
    ("gateway = [", "NotToml"),
    ("gateway = 1\n", "Kind"),
    ("gateway = [1]\n", "Kind"),
    ("[gateway]\nid = 1\n", "Kind"),
    ("[[gateway]]\n", "Missing"),
    ("[[gateway]]\nid = \"1\"\n", "Kind"),
    ("[[gateway]]\nid = 65536\n", "Kind"),
    ("[[gateway]]\nid = -1\n", "Kind"),
    ("[[gateway]]\nid = 0\n", "Range"),
    ("[[gateway]]\nid = 1\ngap = 100001\n", "Range"),
    ("[[gateway]]\nid = 1\ngap = 4294967296\n", "Kind"),
    ("[[gateway]]\nid = 1\ngap = -1\n", "Kind"),
    (
        "[[gateway]]\nid = 1\n[[gateway]]\nid = 1\n",
        "DoubleGateway",
    ),
];

#[test]
fn faults_of_gateways_are_named(rt: HostRuntime) -> Result<(), Fail> {
    for (text, name) in &OF_GATEWAYS {
        equal_at(text, &fault_of(rt.alloc(), text), &Some(*name))?;
    }
    Ok(())
}

/// Lines behind a gateway and a device, and the fault of them all.
static OF_DEVICES: [(&str, &str); 20] = [
    ("rx2_dr = 7\n", "Kind"),
    ("up = 4294967296\n", "Kind"),
    ("delay = 256\n", "Kind"),
    ("delay = 0\n", "Range"),
    ("delay = 16\n", "Range"),
    ("delay = 255\n", "Range"),
    ("offset = 256\n", "Kind"),
    ("up = -1\n", "Kind"),
    ("down = 4294967297\n", "Range"),
    ("down = 9223372036854775807\n", "Range"),
    ("down = -1\n", "Kind"),
    ("rx2_freq = 865000000\n", "NoBand"),
    ("rx2_freq = 4294967295\n", "NoBand"),
    ("rx2_freq = 5164492296\n", "Kind"),
    (DEVICE, "DoubleDevice"),
    ("[[device]]\naddr = \"26011bd\"\n", "Kind"),
    ("[[device]]\naddr = 26011000\n", "Kind"),
    ("[[device]]\naddr = \"26011bdb\"\n", "Missing"),
    (
        "[[device]]\naddr = \"26011bdb\"\nappskey = \"000102030405060708090a0b0c0d0e0f\"\n",
        "Missing",
    ),
    (
        "[[device]]\nnwkskey = \"2b7e151628aed2a6abf7158809cf4f3c\"\nappskey = \"000102030405060708090a0b0c0d0e0f\"\n",
        "Missing",
    ),
];

#[test]
fn faults_of_devices_are_named(rt: HostRuntime) -> Result<(), Fail> {
    for (text, name) in &OF_DEVICES {
        equal_at(text, &fault_behind(rt.alloc(), text)?, &Some(*name))?;
    }
    Ok(())
}
