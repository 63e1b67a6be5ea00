// What a worker begins with, and what it leaves.
ghost use Rattle.std.specs.Prelude.{◌≡◌, [], None, IfOk, IfErr};
ghost use Rattle.server_workers.specs.Filing.{AreEmptyFor};
ghost use Rattle.server_workers.specs.Lists.{lists_of};

use crate::filed::Filed;
use crate::{Ledger, Till, Worked};
use std::alloc::Allocator;

impl<B: Ledger, A: Allocator + Copy> Worked<B, A> {
    /// Nothing done yet, with a till of one part and no amount, and with room for `room` items in each list. Err hands
    /// the till back where a growth was refused.
    pub fn new(alloc: A, till: Till<B>, room: u32) -> Result<Self, Till<B>>
        requires { till ≡ record { parts = 1; amount = 0 } }
        ensures till { IfOk result (λ worked. worked.till ≡ till) }
        ensures empty { IfOk result (λ worked. AreEmptyFor room (lists_of worked)) }
        ensures overrun { IfOk result (λ worked. worked.overrun ≡ 0) }
        ensures stopped { IfOk result (λ worked. worked.stopped ≡ None) }
        ensures back { IfErr result (λ back. back ≡ till) }
    {
        match Filed::with_room(alloc, room as usize) {
            Ok(filed) => Ok(Worked::idle(till, filed)),
            Err(_) => Err(till),
        }
    }
}

impl<B: Ledger, A: Allocator> Worked<B, A> {
    /// Nothing done yet, with this till and these lists. Takes no memory.
    pub(crate) fn idle(till: Till<B>, filed: Filed<A>) -> Self
        requires till { till ≡ record { parts = 1; amount = 0 } }
        requires outcomes { filed.outcomes.items ≡ [] }
        ensures till { result.till ≡ till }
        ensures lists { lists_of result ≡ filed }
        ensures overrun { result.overrun ≡ 0 }
        ensures stopped { result.stopped ≡ None }
    {
        let Filed {
            receipts,
            outcomes,
            skipped,
            refused,
            strays,
        } = filed;
        Worked {
            till,
            receipts,
            outcomes,
            skipped,
            refused,
            strays,
            overrun: 0,
            stopped: None,
        }
    }

    /// Its till, what it filed, and how many of its tries went on.
    pub(crate) fn parted(self) -> (Till<B>, Filed<A>, u64)
        ensures till { result.0 ≡ self.till }
        ensures lists { result.1 ≡ lists_of self }
        ensures overrun { result.2 ≡ self.overrun }
    {
        let Worked {
            till,
            receipts,
            outcomes,
            skipped,
            refused,
            strays,
            overrun,
            stopped: _,
        } = self;
        let filed = Filed {
            receipts,
            outcomes,
            skipped,
            refused,
            strays,
        };
        (till, filed, overrun)
    }
}
