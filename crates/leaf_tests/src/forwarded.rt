// Packets that a gateway's forwarder tells, and what becomes of each.

use forwarder_packets::{Entry, EntryFault, PushFault, read_packets};
use json::Scratch;
use radio_airtime::DataRate;
use refusing_alloc::{MOST_GROWTHS, Refuser, Refusing};
use std::alloc::Allocator;
use std::test::Fail;
use test_asserts::{equal, equal_at};

/// What is compared of an entry: of a packet its numbers and how many bytes it has, or its fault.
type Told = Result<(u32, u32, DataRate, i16, i16, usize), EntryFault>;

fn told<A: Allocator>(entry: &Entry<A>) -> Told {
    match entry {
        Entry::Heard(packet) => Ok((
            packet.tmst,
            packet.freq_hz,
            packet.rate,
            packet.snr,
            packet.rssi,
            packet.bytes.len(),
        )),
        Entry::Dropped(fault) => Err(*fault),
    }
}

/// What a text behind the head of a PUSH_DATA tells of its first packet; None where it has none.
fn first<A: Allocator + Copy>(
    alloc: A,
    scratch: &mut Scratch,
    text: &str,
) -> Result<Option<Told>, PushFault> {
    let entries = read_packets(alloc, scratch, text.as_bytes())?;
    Ok(entries.first().map(|entry| told(entry)))
}

const HEARD: &str =
    r#"{"rxpk":[{"tmst":5000000,"freq":868.100000,"stat":1,"modu":"LORA","datr":"SF7BW125","codr":"4/5","rssi":-90,"lsnr":5.5,"size":12,"data":"gNobASYABwAJyJFB"}]}"#;

/// Entries that are told of, each with one thing changed, and what they come to.
static ENTRIES: [(&str, Told); 9] = [
    (
        HEARD,
        Ok((5_000_000, 868_100_000, DataRate::Dr5, 55, -90, 12)),
    ),
    (r#"{"rxpk":[5]}"#, Err(EntryFault::Shape)),
    (
        r#"{"rxpk":[{"tmst":5000000,"freq":868.1,"stat":"1","modu":"LORA","datr":"SF7BW125","rssi":-90,"lsnr":5.5,"size":12,"data":"gNobASYABwAJyJFB"}]}"#,
        Err(EntryFault::Shape),
    ),
    (
        r#"{"rxpk":[{"tmst":5000000,"freq":868.1,"stat":-1,"modu":"FSK","datr":"SF7BW125","rssi":-90,"lsnr":5.5,"size":12,"data":"gNobASYABwAJyJFB"}]}"#,
        Err(EntryFault::Crc),
    ),
    (
        r#"{"rxpk":[{"tmst":5000000,"freq":868.1,"stat":1,"modu":"FSK","datr":"50000","rssi":-90,"lsnr":5.5,"size":12,"data":"gNobASYABwAJyJFB"}]}"#,
        Err(EntryFault::Modulation),
    ),
    (
        r#"{"rxpk":[{"tmst":4294967296,"freq":868.1,"stat":1,"modu":"LORA","datr":"SF6BW125","rssi":-90,"lsnr":5.5,"size":12,"data":"gNobASYABwAJyJFB"}]}"#,
        Err(EntryFault::Rate),
    ),
    (
        r#"{"rxpk":[{"tmst":4294967296,"freq":868.1,"stat":1,"modu":"LORA","datr":"SF7BW125","rssi":-90,"lsnr":5.5,"size":12,"data":"?"}]}"#,
        Err(EntryFault::Number),
    ),
    (
        r#"{"rxpk":[{"tmst":4294967295,"freq":868.1,"stat":1,"modu":"LORA","datr":"SF7BW250","rssi":-90,"lsnr":5.5,"size":12,"data":"?"}]}"#,
        Err(EntryFault::Data),
    ),
    (
        r#"{"rxpk":[{"tmst":4294967295,"freq":868.1,"stat":1,"modu":"LORA","datr":"SF7BW250","rssi":-90,"lsnr":5.5,"size":13,"data":"gNobASYABwAJyJFB"}]}"#,
        Err(EntryFault::Size),
    ),
];

#[test]
fn packets_of_packet_forwarders(rt: HostRuntime) -> Result<(), Fail> {
    let scratch = &mut Scratch::new(rt.alloc());
    for (place, (text, wanted)) in ENTRIES.iter().enumerate() {
        equal_at(
            &place,
            &first(rt.alloc(), scratch, text),
            &Ok(Some(*wanted)),
        )?;
    }
    Ok(())
}

/// Texts that tell no packets, and what they come to.
static NONE: [(&str, Result<Option<Told>, PushFault>); 6] = [
    ("", Err(PushFault::Json)),
    ("{", Err(PushFault::Json)),
    ("[]", Err(PushFault::Json)),
    (r#"{"rxpk":5}"#, Err(PushFault::Json)),
    (r#"{"rxpk":[]}"#, Ok(None)),
    (r#"{"stat":{"time":"2026-11-30 00:00:00 GMT"}}"#, Ok(None)),
];

#[test]
fn datagrams_without_packets(rt: HostRuntime) -> Result<(), Fail> {
    let scratch = &mut Scratch::new(rt.alloc());
    for (place, (text, wanted)) in NONE.iter().enumerate() {
        equal_at(&place, &first(rt.alloc(), scratch, text), wanted)?;
    }
    Ok(())
}

/// Three times the same bytes, of which the second is received best, and as well as the third; and others.
const GHOSTS: &str = r#"{"rxpk":[
    {"tmst":1,"freq":868.1,"stat":1,"modu":"LORA","datr":"SF7BW125","rssi":-90,"lsnr":-2.5,"size":3,"data":"AQID"},
    {"tmst":2,"freq":868.1,"stat":1,"modu":"LORA","datr":"SF7BW125","rssi":-90,"lsnr":5.5,"size":3,"data":"AQID"},
    {"tmst":3,"freq":868.3,"stat":1,"modu":"LORA","datr":"SF7BW125","rssi":-90,"lsnr":5.5,"size":3,"data":"AQID"},
    {"tmst":4,"freq":868.1,"stat":1,"modu":"LORA","datr":"SF7BW125","rssi":-90,"lsnr":-9,"size":3,"data":"AQIE"}]}"#;

#[test]
fn the_packet_that_is_received_best_stands(rt: HostRuntime) -> Result<(), Fail> {
    let scratch = &mut Scratch::new(rt.alloc());
    let entries = match read_packets(rt.alloc(), scratch, GHOSTS.as_bytes()) {
        Ok(entries) => entries,
        Err(_) => return Err(Fail::from("no packets")),
    };
    let counters = [Err(EntryFault::Ghost), Ok(2), Err(EntryFault::Ghost), Ok(4)];
    for (place, (entry, wanted)) in entries.iter().zip(&counters).enumerate() {
        equal_at(&place, &told(entry).map(|packet| packet.0), wanted)?;
    }
    equal(&entries.len(), &counters.len())
}

/// Whether no packet is told where the growth of any number is refused that is asked for.
fn each_is_refused(alloc: &Refuser, scratch: &mut Scratch) -> Result<(), Fail> {
    for number in 1..MOST_GROWTHS {
        alloc.refuse(number);
        let told = first(alloc, scratch, HEARD);
        let asked = alloc.asked();
        alloc.grant();
        if asked < number {
            return equal(&told, &Ok(Some(ENTRIES[0].1)));
        }
        equal_at(&number, &told, &Err(PushFault::NoMemory))?;
    }
    Err(Fail::from("no end of growths"))
}

// Refuses `forwarder_packets` `read_packets`: 1 for the bytes of each packet; by size for the JSON, the packets and the ghosts.
#[test]
fn growths_of_packets(rt: HostRuntime) -> Result<(), Fail> {
    each_is_refused(&Refusing::new(rt.alloc()), &mut Scratch::new(rt.alloc()))
}
