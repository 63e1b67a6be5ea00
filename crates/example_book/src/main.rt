//! Books transmissions of one gateway, and tells when one more could begin.
#![tactic(auto)]

use gateway_book::{Ask, GatewayBook};
use radio_airtime::DataRate;
use resv_tree::TreeRoster;
use std::io;

/// Twelve bytes at DR0 in sub-band K: 991,232 us on air, of which three fill an hour.
fn ask_at(start: u64) -> Ask {
    Ask {
        number: start,
        start,
        freq_hz: 863_500_000,
        rate: DataRate::Dr0,
        len: 12,
    }
}

fn main(rt: HostRuntime) -> io::Result<()> {
    let Ok(mut book) = GatewayBook::new(TreeRoster::new(rt.alloc()), 1, 4_096, 45_000) else {
        return println!(rt; "the cap or the gap is out of range");
    };
    book.tick(10_000_000);
    for start in [10_000_000, 12_000_000, 14_000_000, 3_609_999_999] {
        match book.book(ask_at(start)) {
            Ok(reservation) => println!(rt; "{start} ends at {}", reservation.end())?,
            Err(refusal) => println!(rt; "{start}: {refusal}")?,
        }
    }
    match book.earliest(ask_at(0), 10_000_000, 4_000_000_000) {
        Some(start) => println!(rt; "the next one at {start}"),
        None => println!(rt; "there is no room"),
    }
}
