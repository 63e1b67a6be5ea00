// Settings as a server is given them.

use server_desk::{DeviceSetting, GatewaySetting, Settings};
use std::alloc::Global;
use std::test::Fail;
use test_asserts::{equal, holds};
use worked_inputs::{DEVICE, settings_of};

const GATEWAY: GatewaySetting = GatewaySetting {
    id: 1,
    cap: 4_096,
    gap: 0,
};

/// The name of the fault of settings with these lists.
fn fault_of(
    alloc: Global,
    gateways: &[GatewaySetting],
    devices: &[DeviceSetting],
) -> Result<Option<&'static str>, Fail> {
    Ok(named(gateways.to_vec(alloc)?, devices.to_vec(alloc)?))
}

/// The name of the fault of these settings.
fn named(gateways: Vec<GatewaySetting>, devices: Vec<DeviceSetting>) -> Option<&'static str> {
    match Settings::new(gateways, devices) {
        Ok(_) => None,
        Err(fault) => Some(fault.name()),
    }
}

/// The settings of these gateways alone.
fn settings_without_devices(
    alloc: Global,
    gateways: &[GatewaySetting],
) -> Result<Settings<Global>, Fail> {
    Ok(Settings::new(gateways.to_vec(alloc)?, Vec::new(alloc))?)
}

#[test]
fn settings_show_the_lists_as_given(rt: HostRuntime) -> Result<(), Fail> {
    let last = GatewaySetting {
        id: 65_535,
        cap: 65_536,
        gap: 100_000,
    };
    let gateways = [GATEWAY, last];
    let settings = settings_without_devices(rt.alloc(), &gateways)?;
    equal(&settings.gateways(), &gateways.as_slice())?;
    let settings = settings_of(rt.alloc(), &[DEVICE])?;
    equal(&settings.devices(), &[DEVICE].as_slice())?;
    Ok(())
}

const ZERO: GatewaySetting = GatewaySetting { id: 0, ..GATEWAY };

const WIDE: GatewaySetting = GatewaySetting {
    id: 2,
    cap: 65_537,
    gap: 0,
};

const SLOW: GatewaySetting = GatewaySetting {
    id: 2,
    cap: 4_096,
    gap: 100_001,
};

/// The first again, with a cap out of range.
const WIDE_AGAIN: GatewaySetting = GatewaySetting {
    cap: 65_537,
    ..GATEWAY
};

static GATEWAYS: [(&[GatewaySetting], &str); 7] = [
    (&[ZERO; 65], "Count"),
    (&[], "Count"),
    (&[GATEWAY, ZERO, GATEWAY], "Range"),
    (&[GATEWAY, GATEWAY, WIDE], "DoubleGateway"),
    (&[GATEWAY, WIDE_AGAIN], "Range"),
    (&[WIDE], "Range"),
    (&[SLOW], "Range"),
];

#[test]
fn the_first_fault_of_the_gateways_is_named(rt: HostRuntime) -> Result<(), Fail> {
    for (gateways, name) in &GATEWAYS {
        equal(&fault_of(rt.alloc(), gateways, &[])?, &Some(*name))?;
    }
    Ok(())
}

const LATE: DeviceSetting = DeviceSetting {
    delay: 16,
    ..DEVICE
};

const SPENT: DeviceSetting = DeviceSetting {
    down: 4_294_967_297,
    ..DEVICE
};

const BETWEEN: DeviceSetting = DeviceSetting {
    rx2_freq: 865_000_000,
    ..DEVICE
};

/// It would listen at once.
const AT_ONCE: DeviceSetting = DeviceSetting { delay: 0, ..DEVICE };

/// As many as there may be are looked at, one by one, and one more are not.
static DEVICES: [(&[DeviceSetting], &str); 8] = [
    (&[LATE], "Range"),
    (&[AT_ONCE], "Range"),
    (&[SPENT], "Range"),
    (&[BETWEEN], "NoBand"),
    (&[DEVICE, BETWEEN, LATE], "NoBand"),
    (&[DEVICE, DEVICE], "DoubleDevice"),
    (&[DEVICE; 1_024], "DoubleDevice"),
    (&[DEVICE; 1_025], "Count"),
];

#[test]
fn the_first_fault_of_the_devices_is_named(rt: HostRuntime) -> Result<(), Fail> {
    for (devices, name) in &DEVICES {
        equal(&fault_of(rt.alloc(), &[GATEWAY], devices)?, &Some(*name))?;
    }
    Ok(())
}

#[test]
fn a_device_is_shown_without_its_keys(rt: HostRuntime) -> Result<(), Fail> {
    let shown = format!(in rt.alloc(); "{DEVICE:?}")?;
    holds(shown.as_str().starts_with("DeviceSetting { addr: "))?;
    holds(shown.as_str().ends_with(", .. }"))?;
    holds(!shown.as_str().contains("nwk"))?;
    holds(!shown.as_str().contains("["))?;
    Ok(())
}
