// What a station hears, and what it is asked.

use crate::posts::Post;
use gateway_book::{CancelFault, Totals};
use server_core::{DeskFault, DeskHeard, Heard1, QueueFault};
use server_workers::{Ledger, TotalsFault};
use std::sync::Wait;
use std::test::Fail;
use test_asserts::equal_at;
use worked_inputs::{COPY, uplink};

/// What a station hears: a copy of a confirmed uplink, until 5,000,000 us where nothing else is said.
#[derive(Clone, Copy)]
pub(crate) enum Heard {
    /// Gateway 1 heard the uplink of the device with this address and this counter.
    Of(u32, u32),
    /// This gateway heard the first uplink of the device with this address, with this signal-to-noise ratio.
    By(u32, u16, i16),
    /// Gateway 1 heard the first uplink of the device with this address, and the station is told at this moment.
    At(u32, u64),
}

/// What a station is asked, and what it is to answer.
#[derive(Clone, Copy)]
pub(crate) enum Ask {
    /// To close the least gathering that is due at this moment: its number.
    Pass(u64, Option<u64>),
    /// To queue this payload for the device with this address: how many wait then.
    Queue(u32, &'static [u8], Result<usize, QueueFault>),
    /// For the totals of this gateway, by someone who saw so much booked there.
    Totals(u16, u64, Result<Totals, TotalsFault>),
    /// To raise the floor of this gateway: what it is then.
    Tick(u16, u64, Option<u64>),
    /// To cancel what the receipt at this place names: its airtime.
    Cancel(usize, Result<u64, CancelFault>),
    /// Nothing: the receipt at this place is as if it were of this gateway.
    Readdress(usize, u16),
    /// Nothing: a till is split from the last one, which has so many parts then.
    Split(u32),
}

/// What a station answers to a copy of an uplink.
type Answered = Result<DeskHeard, DeskFault>;

impl<B: Ledger, R: Wait> Post<'_, B, R> {
    /// What is answered to a copy of an uplink.
    pub(crate) fn hear(&self, heard: Heard) -> Result<Answered, Fail> {
        match heard {
            Heard::Of(addr, counter) => self.hear_copy(addr, counter, COPY, 0),
            Heard::By(addr, gateway, snr) => self.hear_copy(
                addr,
                0,
                Heard1 {
                    gateway,
                    snr,
                    ..COPY
                },
                0,
            ),
            Heard::At(addr, arrived) => self.hear_copy(addr, 0, COPY, arrived),
        }
    }

    /// A copy of an uplink is heard.
    fn hear_copy(
        &self,
        addr: u32,
        counter: u32,
        copy: Heard1,
        arrived: u64,
    ) -> Result<Answered, Fail> {
        let bytes = uplink(self.alloc, true, addr, counter)?;
        Ok(self.station.hear(self.rt, bytes.as_slice(), copy, arrived))
    }

    /// An uplink of each of so many devices is heard, and closed: that with the device's address as its number.
    pub(crate) fn hear_all(&self, place: usize, count: u32) -> Result<(), Fail> {
        for before in 0..count {
            self.hear_first(place, before + 1)?;
        }
        for before in 0..count {
            let passed = self.station.pass(self.rt, 200_001);
            equal_at(&place, &passed, &Some(before as u64 + 1))?;
        }
        Ok(())
    }

    /// The first uplink of the device with this address opens the gathering with that number.
    fn hear_first(&self, place: usize, addr: u32) -> Result<(), Fail> {
        let opened = DeskHeard::Opened {
            n: addr as u64,
            repeat: false,
        };
        equal_at(
            &place,
            &self.hear_copy(addr, 0, copy_of(addr), 0)?,
            &Ok(opened),
        )
    }
}

/// The copy of a device's uplink that the gateway `1 + addr mod 2` heard, until a million microseconds for each address.
pub(crate) fn copy_of(addr: u32) -> Heard1 {
    Heard1 {
        gateway: 1 + (addr % 2) as u16,
        at: 1_000_000 * addr as u64,
        ..COPY
    }
}

impl<B: Ledger, R: Wait> Post<'_, B, R> {
    /// A station is asked, by the step at this place: its answer is compared.
    pub(crate) fn ask(&mut self, place: usize, ask: Ask) -> Result<(), Fail> {
        let station = &self.station;
        match ask {
            Ask::Pass(now, wanted) => equal_at(&place, &station.pass(self.rt, now), &wanted),
            Ask::Queue(addr, payload, wanted) => {
                equal_at(&place, &station.queue(self.rt, addr, 9, payload), &wanted)
            }
            Ask::Totals(gateway, seen, wanted) => {
                equal_at(&place, &station.totals(self.rt, gateway, seen), &wanted)
            }
            Ask::Tick(gateway, now, wanted) => {
                equal_at(&place, &station.tick(self.rt, gateway, now), &wanted)
            }
            Ask::Cancel(receipt, wanted) => equal_at(&place, &self.cancel(receipt)?, &wanted),
            Ask::Readdress(receipt, gateway) => self.readdress(receipt, gateway),
            Ask::Split(wanted) => equal_at(&place, &self.split()?, &wanted),
        }
    }

    /// What a receipt names is cancelled.
    fn cancel(&self, place: usize) -> Result<Result<u64, CancelFault>, Fail> {
        let receipt = self.receipts.get(place).ok_or("there is a receipt")?;
        Ok(self.station.cancel(self.rt, receipt))
    }

    /// A receipt becomes another gateway's.
    fn readdress(&mut self, place: usize, gateway: u16) -> Result<(), Fail> {
        let receipt = self.receipts.get_mut(place).ok_or("there is a receipt")?;
        receipt.gateway = gateway;
        Ok(())
    }

    /// A till is split off: how many parts the other has then.
    fn split(&mut self) -> Result<u32, Fail> {
        let till = self.tills.last_mut().ok_or("there is a till")?;
        if till.parts() < 2 {
            return Err(Fail::from("it has one part"));
        }
        let part = till.split();
        let parts = till.parts();
        self.tills.push(part)?;
        Ok(parts)
    }
}
