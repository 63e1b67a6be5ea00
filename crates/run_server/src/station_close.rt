// The end of a run on a station: the books are compared with what was answered.
ghost use Rattle.std.specs.Prelude.{◌≡◌, ◌≢◌, IfOk, IfErr};
ghost use Rattle.book_audit.specs.Audit.{booked_by};
ghost use Rattle.run_server.specs.Bookings.{open_receipts};
ghost use Rattle.run_server.specs.WorkersRun.{IsClosing, IsClosingFault};
ghost use Rattle.run_server.specs.FinishFaults.{IsFinishFault, IsPlayFault};

use crate::station_run::{Played, Shift};
use server_workers::{Closing, FinishCause, Ledger};
use std::alloc::Global;
use std::hash::BuildHasher;
use text_words::TextFault;

impl<B: Ledger + Send + Sync, S: BuildHasher + Drop + Send + Sync> Shift<B, S>
where
    S::Hasher: Send + Sync,
{
    /// Compares the books with what was answered, and with the receipts of what was not cancelled. `Settings`: they don't go
    /// together, by the name of the station's cause (Apart, Doubled or Lost). `NoMemory`: a growth was refused. The shift is gone
    /// then, and the lines that it had told.
    pub fn close(self, alloc: Global) -> Result<Played, TextFault>
        ensures entries { IfOk result (λ played. played.entries ≡ self.entries) }
        ensures books { IfOk result (λ played. IsClosing self.station.value (open_receipts self.receipts)
            played.totals.items played.books.items) }
        ensures booked { IfOk result (λ played. booked_by played.books.items ≡ self.till.amount) }
        ensures cause { IfErr result (λ fault. fault ≢ TextFault.NoMemory
            → IsClosingFault self.station.value (open_receipts self.receipts) fault) }
        ensures fault { IfErr result IsPlayFault }
    {
        let Shift {
            station,
            till,
            receipts,
            entries,
            workers: _,
        } = self;
        let Ok(receipts) = receipts.not_cancelled(alloc) else {
            return Err(TextFault::NoMemory);
        };
        let Ok(mut tills) = Vec::with_capacity(alloc, 1) else {
            return Err(TextFault::NoMemory);
        };
        tills.push_reserved(till);
        match Box::into_inner(station).finish(alloc, tills, receipts.as_slice()) {
            Ok(Closing { totals, books, .. }) => Ok(Played {
                entries,
                totals,
                books,
            }),
            Err(fault) => Err(named(fault.cause)),
        }
    }
}

/// Why a station could not be closed, as a text call answers it.
pub(crate) fn named(cause: FinishCause) -> TextFault
    ensures exact { IsFinishFault cause result }
    ensures play { IsPlayFault result }
{
    match cause {
        FinishCause::TillMissing => TextFault::Settings("TillMissing"),
        FinishCause::Apart { .. } => TextFault::Settings("Apart"),
        FinishCause::Doubled { .. } => TextFault::Settings("Doubled"),
        FinishCause::Lost { .. } => TextFault::Settings("Lost"),
        FinishCause::NoMemory => TextFault::NoMemory,
    }
}
