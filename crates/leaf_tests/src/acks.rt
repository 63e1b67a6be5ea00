// What a gateway's forwarder tells of a transmission that it was handed.

use forwarder_packets::{NoMemory, TxAck, read_tx_ack};
use json::Scratch;
use refusing_alloc::{MOST_GROWTHS, Refuser, Refusing};
use std::alloc::Allocator;
use std::test::Fail;
use test_asserts::{equal, equal_at};

/// Whether what these bytes tell is that the transmission goes on air, or failed by the error with this name.
fn tells<A: Allocator + Copy>(
    alloc: A,
    scratch: &mut Scratch,
    bytes: &[u8],
    wanted: Option<&str>,
) -> Result<bool, NoMemory> {
    Ok(match (read_tx_ack(alloc, scratch, bytes)?, wanted) {
        (TxAck::Acked, None) => true,
        (TxAck::Failed(name), Some(error)) => name.as_slice() == error.as_bytes(),
        _ => false,
    })
}

/// What stands behind the head of a TX_ACK, and the error that it tells.
static ACKS: [(&[u8], Option<&str>); 18] = [
    (b"", None),
    (b"{}", None),
    (br#"{"txpk_ack":{}}"#, None),
    (br#"{"txpk_ack":5}"#, None),
    (br#"{"txpk_ack":{"error":"NONE"}}"#, None),
    (
        br#"{"txpk_ack":{"error":"TOO_EARLY","error":"NONE"}}"#,
        None,
    ),
    (br#"{"txpk_ack":{"warn":"TX_POWER"}}"#, None),
    (br#"{"txpk_ack":{"error":"TOO_LATE"}}"#, Some("TOO_LATE")),
    (
        br#"{"txpk_ack":{"error":"NONE","error":"TX_FREQ"}}"#,
        Some("TX_FREQ"),
    ),
    (
        br#"{"txpk_ack":{"error":"A23456789_123456789_123456789_12"}}"#,
        Some("A23456789_123456789_123456789_12"),
    ),
    (
        br#"{"txpk_ack":{"error":"A23456789_123456789_123456789_123"}}"#,
        Some("Other"),
    ),
    (br#"{"txpk_ack":{"error":"too late"}}"#, Some("Other")),
    (br#"{"txpk_ack":{"error":""}}"#, Some("Other")),
    (br#"{"txpk_ack":{"error":null}}"#, Some("Other")),
    (b"[]", Some("Other")),
    (b"{", Some("Other")),
    (b" ", Some("Other")),
    (b"{\"\xff\":0}", Some("Other")),
];

#[test]
fn acks_of_packet_forwarders(rt: HostRuntime) -> Result<(), Fail> {
    let scratch = &mut Scratch::new(rt.alloc());
    for (place, (bytes, wanted)) in ACKS.iter().enumerate() {
        equal_at(
            &place,
            &tells(rt.alloc(), scratch, bytes, *wanted),
            &Ok(true),
        )?;
    }
    Ok(())
}

/// Whether nothing is told where the growth of any number is refused that is asked for.
fn each_is_refused(alloc: &Refuser, scratch: &mut Scratch) -> Result<(), Fail> {
    let (bytes, wanted) = ACKS[7];
    for number in 1..MOST_GROWTHS {
        alloc.refuse(number);
        let told = tells(alloc, scratch, bytes, wanted);
        let asked = alloc.asked();
        alloc.grant();
        if asked < number {
            return equal(&told, &Ok(true));
        }
        equal_at(&number, &told.is_err(), &true)?;
    }
    Err(Fail::from("no end of growths"))
}

// Refuses `forwarder_packets` `read_tx_ack`: 1 for the error's name; by size for the JSON.
#[test]
fn growths_of_acks(rt: HostRuntime) -> Result<(), Fail> {
    each_is_refused(&Refusing::new(rt.alloc()), &mut Scratch::new(rt.alloc()))
}
