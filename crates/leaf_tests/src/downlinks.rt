// The datagrams that hand transmissions to packet forwarders.

use forwarder_packets::{NoMemory, Transmission, pull_resp};
use radio_airtime::DataRate;
use refusing_alloc::{MOST_GROWTHS, Refuser, Refusing};
use std::alloc::Allocator;
use std::test::Fail;
use test_asserts::{equal, equal_at};

/// A transmission, its token, and the JSON that asks for it.
type Row = (u16, Transmission<'static>, &'static str);

static ROWS: [Row; 3] = [
    (
        1,
        Transmission {
            tmst: 32_704,
            freq_hz: 868_100_000,
            power_dbm: 14,
            rate: DataRate::Dr5,
            frame: b"\x60\xda\x1b\x01\x26\x20\x00\x00\x24\x03\x47\xca",
        },
        r#"{"txpk":{"imme":false,"tmst":32704,"freq":868.100000,"rfch":0,"powe":14,"modu":"LORA","datr":"SF7BW125","codr":"4/5","ipol":true,"size":12,"ncrc":true,"data":"YNobASYgAAAkA0fK"}}"#,
    ),
    (
        65_535,
        Transmission {
            tmst: 4_294_967_295,
            freq_hz: 869_525_000,
            power_dbm: 27,
            rate: DataRate::Dr0,
            frame: b"\xff\xfe",
        },
        r#"{"txpk":{"imme":false,"tmst":4294967295,"freq":869.525000,"rfch":0,"powe":27,"modu":"LORA","datr":"SF12BW125","codr":"4/5","ipol":true,"size":2,"ncrc":true,"data":"//4="}}"#,
    ),
    (
        258,
        Transmission {
            tmst: 0,
            freq_hz: 868_000_300,
            power_dbm: 0,
            rate: DataRate::Dr6,
            frame: b"",
        },
        r#"{"txpk":{"imme":false,"tmst":0,"freq":868.000300,"rfch":0,"powe":0,"modu":"LORA","datr":"SF7BW250","codr":"4/5","ipol":true,"size":0,"ncrc":true,"data":""}}"#,
    ),
];

/// Whether the datagram of a row is its head and its JSON.
fn is_asked<A: Allocator + Copy>(alloc: A, row: &Row) -> Result<bool, NoMemory> {
    let (token, transmission, json) = row;
    let datagram = pull_resp(alloc, *token, transmission)?;
    let [high, low] = token.to_be_bytes();
    Ok(match datagram.as_slice() {
        [2, first, second, 3, text @ ..] => {
            *first == high && *second == low && text == json.as_bytes()
        }
        _ => false,
    })
}

#[test]
fn transmissions_that_are_asked_for(rt: HostRuntime) -> Result<(), Fail> {
    for (place, row) in ROWS.iter().enumerate() {
        equal_at(&place, &is_asked(rt.alloc(), row), &Ok(true))?;
    }
    Ok(())
}

/// Whether no datagram is made where the growth of any number is refused that is asked for.
fn each_is_refused(alloc: &Refuser) -> Result<(), Fail> {
    for number in 1..MOST_GROWTHS {
        alloc.refuse(number);
        let asked_for = is_asked(alloc, &ROWS[0]);
        let asked = alloc.asked();
        alloc.grant();
        if asked < number {
            return equal(&asked_for, &Ok(true));
        }
        equal_at(&number, &asked_for.is_err(), &true)?;
    }
    Err(Fail::from("no end of growths"))
}

// Refuses `forwarder_packets` `pull_resp`: 1 for the datagram, where its frame has at most 255 bytes; by size for the frame in base64.
#[test]
fn growths_of_downlinks(rt: HostRuntime) -> Result<(), Fail> {
    each_is_refused(&Refusing::new(rt.alloc()))
}
