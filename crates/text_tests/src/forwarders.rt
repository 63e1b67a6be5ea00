// Worked settings of a server that packet forwarders are pointed at: what is set of each forwarder, and the fault of other texts.
use serve_settings::{Forwarder, ServeFault, read_serve_settings};
use std::alloc::Global;
use std::test::Fail;
use test_asserts::{equal_at, holds};

const GATEWAY: &str = "[[gateway]]\nid = 1\ngap = 45000\n";

const EUI: &str = "eui = \"AA555a0000000001\"\n";

const TWO: &str =
    "[[gateway]]\nid = 2\ngap = 100000\neui = \"aa555a0000000002\"\nfrom = \"192.0.2.7\"\npower = 27\nlead = 700000\n\
     [[gateway]]\nid = 1\ngap = 45000\neui = \"ffffffffffffffff\"\npower = 0\nlead = 0\n";

/// The forwarder of `EUI`, with the default of every other key.
const PLAIN: Forwarder = Forwarder {
    eui: [0xaa, 0x55, 0x5a, 0, 0, 0, 0, 1],
    from: None,
    power_dbm: 14,
    lead_us: 400_000,
};

/// Whether a text gives these gateways, by their numbers, and these forwarders.
fn gives(alloc: Global, text: &str, ids: &[u16], forwarders: &[Forwarder]) -> Result<bool, Fail> {
    let read = read_serve_settings(alloc, text)?;
    let gateways = read.settings.gateways();
    let mut are_same = gateways.len() == ids.len();
    for (gateway, id) in gateways.iter().zip(ids) {
        are_same = are_same && gateway.id == *id;
    }
    Ok(are_same && read.forwarders.as_slice() == forwarders)
}

#[test]
fn forwarders_are_read(rt: HostRuntime) -> Result<(), Fail> {
    let alloc = rt.alloc();
    let first = Forwarder {
        eui: [0xaa, 0x55, 0x5a, 0, 0, 0, 0, 2],
        from: Some([192, 0, 2, 7]),
        power_dbm: 27,
        lead_us: 700_000,
    };
    let second = Forwarder {
        eui: [0xff; 8],
        power_dbm: 0,
        lead_us: 0,
        ..PLAIN
    };
    let one = format!(in alloc; "{GATEWAY}{EUI}")?;
    holds(gives(alloc, one.as_str(), &[1], &[PLAIN])?)?;
    holds(gives(alloc, TWO, &[2, 1], &[first, second])?)?;
    Ok(())
}

/// Lines behind those of a gateway, and the fault.
static LINES: [(&str, &str); 20] = [
    ("", "Missing"),
    ("eui = 1\n", "Kind"),
    ("eui = \"aa555a000000000\"\n", "Kind"),
    ("eui = \"aa555a00000000012\"\n", "Kind"),
    ("eui = \"aa555a000000000g\"\n", "Kind"),
    ("eui = \"aa555a0000000001\"\nfrom = 5\n", "Kind"),
    ("eui = \"aa555a0000000001\"\nfrom = \"192.0.2\"\n", "Kind"),
    (
        "eui = \"aa555a0000000001\"\nfrom = \"192.0.2.256\"\n",
        "Kind",
    ),
    (
        "eui = \"aa555a0000000001\"\nfrom = \"192.0.2.07\"\n",
        "Kind",
    ),
    ("eui = \"aa555a0000000001\"\nfrom = \"::1\"\n", "Kind"),
    ("eui = \"aa555a0000000001\"\npower = 28\n", "Range"),
    ("eui = \"aa555a0000000001\"\npower = 256\n", "Kind"),
    ("eui = \"aa555a0000000001\"\npower = -1\n", "Kind"),
    ("eui = \"aa555a0000000001\"\nlead = 700001\n", "Range"),
    ("eui = \"aa555a0000000001\"\nlead = 4294967296\n", "Kind"),
    ("eui = \"aa555a0000000001\"\nlead = \"long\"\n", "Kind"),
    (
        "eui = \"aa555a0000000001\"\npower = 28\nlead = \"long\"\n",
        "Range",
    ),
    (
        "eui = \"aa555a0000000001\"\n[[gateway]]\nid = 2\neui = \"aa555a0000000001\"\n",
        "Gap",
    ),
    (
        "eui = \"aa555a0000000001\"\n[[gateway]]\nid = 2\ngap = 45000\neui = \"AA555A0000000001\"\n",
        "DoubleEui",
    ),
    ("[[gateway]]\nid = 0\n", "Range"),
];

#[test]
fn faults_of_forwarders(rt: HostRuntime) -> Result<(), Fail> {
    for (place, (lines, fault)) in LINES.iter().enumerate() {
        let text = format!(in rt.alloc(); "{GATEWAY}{lines}")?;
        let name = read_serve_settings(rt.alloc(), text.as_str())
            .err()
            .map(ServeFault::name);
        equal_at(&place, &name, &Some(*fault))?;
    }
    Ok(())
}
