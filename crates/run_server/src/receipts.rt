// What was booked in a run with workers, by number.
ghost use Rattle.std.specs.Prelude.{◌≡◌, ◌<◌, ◌≤◌, [], length, insert, slice_get, vec_len, vec_capacity};
ghost use Rattle.std.specs.Prelude.{IsOk, OnOk, OnErr, IfOk, IfSome, Some};
ghost use Rattle.std.specs.Option.{option_and_then, option_map};
ghost use Rattle.run_server.specs.Booking.{booking_of};
ghost use Rattle.run_server.specs.Bookings.{bookings_in, booked_for, HasOneMore, HasMore, IsMarkedAt, open_receipts};

use crate::numbered::{end_of_lesser, place_of};
use answer_ticket::{Bytes, Receipt};
use server_core::NoMemory;
use std::alloc::Global;
use std::marker::Model;

/// What was booked, by number, and whether it was cancelled. The frames were told, and are not kept.
#[derive(Drop)]
pub struct Receipts {
    receipts: Vec<Receipt<Global>>,
    /// Whether the one at the same place was cancelled.
    are_cancelled: Vec<bool>,
}

impl Model for Receipts {
    ghost use Rattle.std.specs.Prelude.{List};
    ghost use Rattle.run_server.specs.Booking.{Booking};
    ghost use Rattle.run_server.specs.Bookings.{bookings_in, AreFlaggedByNumber};

    ghost Value = { List Booking };

    ghost view = { λ r. bookings_in r.receipts.items r.are_cancelled.items };

    ghost invariant = { λ r. AreFlaggedByNumber r.receipts.items r.are_cancelled.items };
}

impl Receipts {
    /// Nothing was booked; so many receipts are taken in without a growth.
    pub(crate) fn with_room(alloc: Global, room: usize) -> Result<Self, NoMemory>
        ensures { IfOk result (λ receipts. receipts ≡ []) }
    {
        Ok(Receipts {
            receipts: Vec::with_capacity(alloc, room)?,
            are_cancelled: Vec::with_capacity(alloc, room)?,
        })
    }

    /// Takes in receipts.
    pub(crate) fn add_all(
        &mut self,
        alloc: Global,
        receipts: Vec<Receipt<Global>>,
    ) -> Result<(), NoMemory>
        ensures { OnOk result (HasMore receipts.items self.old self.new) }
    {
        for receipt in receipts {
            self.add(alloc, receipt)?;
        }
        Ok(())
    }

    /// Takes in a receipt.
    fn add(&mut self, alloc: Global, receipt: Receipt<Global>) -> Result<(), NoMemory>
        ensures { OnOk result (HasOneMore (booking_of receipt) self.old self.new) }
    {
        self.are_cancelled.reserve(1)?;
        let at = end_of_lesser(&self.receipts, self.receipts.len(), receipt.number);
        put(&mut self.receipts, at, without_frame(alloc, receipt))?;
        let has_room = put(&mut self.are_cancelled, at, false).is_ok();
        prove!(has_room); // It was reserved.
        Ok(())
    }

    /// The place of the first booking for the uplink with this number.
    pub(crate) fn place_of(&self, number: u64) -> Option<usize>
        ensures within { IfSome result (λ at. at < length self.now) }
        ensures found { option_and_then (slice_get self.now) result ≡ booked_for number self.now }
    {
        place_of(self.receipts.as_slice(), 0, number)
    }

    /// The receipt of the booking at this place.
    pub(crate) fn receipt_at(&self, at: usize) -> &Receipt<Global>
        requires { at < length self.now }
        ensures { option_map (λ b. b.receipt) (slice_get self.now at) ≡ Some result.now }
    {
        &self.receipts[at]
    }

    /// Marks the booking at this place as cancelled.
    pub(crate) fn mark(&mut self, at: usize)
        requires { at < length self.old }
        ensures { IsMarkedAt at self.old self.new }
    {
        self.are_cancelled[at] = true;
    }

    /// The receipts of what was not cancelled. Where nothing was, that is all of them, and takes no memory.
    pub(crate) fn not_cancelled(self, alloc: Global) -> Result<Vec<Receipt<Global>>, NoMemory>
        ensures { IfOk result (λ receipts. receipts.items ≡ open_receipts self) }
    {
        let Receipts {
            receipts,
            are_cancelled,
        } = self;
        if !are_cancelled.contains(&true) {
            return Ok(receipts);
        }
        open_receipts(alloc, receipts, are_cancelled)
    }
}

/// Puts an item at this place, which is mostly behind all others, where it is pushed.
fn put<T: Drop>(items: &mut Vec<T>, at: usize, item: T) -> Result<(), NoMemory>
    requires { at ≤ vec_len items.old }
    ensures put { OnOk result (items.new.items ≡ insert items.old.items at item) }
    ensures kept { OnErr result (items.new.items ≡ items.old.items) }
    ensures succeeds { vec_len items.old < vec_capacity items.old → IsOk result }
{
    if at < items.len() {
        return Ok(items.insert(at, item)?);
    }
    Ok(items.push(item)?)
}

/// Those of these receipts that are not cancelled.
fn open_receipts(
    alloc: Global,
    receipts: Vec<Receipt<Global>>,
    are_cancelled: Vec<bool>,
) -> Result<Vec<Receipt<Global>>, NoMemory>
    ensures { IfOk result (λ kept. kept.items ≡ open_receipts (bookings_in receipts.items are_cancelled.items)) }
{
    let mut kept = Vec::with_capacity(alloc, receipts.len())?;
    for (receipt, is_cancelled) in receipts.into_iter().zip(are_cancelled) {
        if !is_cancelled {
            kept.push(receipt)?;
        }
    }
    Ok(kept)
}

/// A receipt without its frame.
fn without_frame(alloc: Global, receipt: Receipt<Global>) -> Receipt<Global>
    ensures { result ≡ (booking_of receipt).receipt }
{
    let mut receipt = receipt;
    receipt.frame = Bytes::new(Vec::new(alloc));
    receipt
}
