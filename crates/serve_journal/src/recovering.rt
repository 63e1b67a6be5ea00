// The saved book of a gateway, out of a journal.
ghost use Rattle.std.specs.Prelude.{◌≡◌, ◌==◌, find, OnOk, IfErr, IsOkAnd};
ghost use Rattle.std.specs.Option.{option_copied};
ghost use Rattle.std.specs.Io.KnownBytes.{Appends};
ghost use Rattle.text_lines.specs.Calls.{CountsWhere};
ghost use Rattle.serve_journal.specs.Reading.{journal_of};
ghost use Rattle.serve_journal.specs.Recovering.{recovered, IsRecoverFault, is_write};

use crate::{JournalFault, JournalGateway, JournalState, read_journal};
use std::alloc::Allocator;
use text_lines::ByteOut;
use thiserror::Error;

/// Why no book was recovered.
#[derive(Clone, Copy, Debug, PartialEq, Eq, Error)]
pub enum RecoverFault {
    /// The journal was not read.
    #[error("{0}")]
    Unread(JournalFault),
    /// The journal has no gateway with this number.
    #[error("the journal has no gateway with this number")]
    NoGateway,
    /// A call of the writer failed. A front of the text was written.
    #[error("the saved book could not be written")]
    Write,
}

/// Reads a journal, the bytes of its file, and writes the book of the gateway with this number as a saved book, of version 2.
pub fn recover<A: Allocator + Copy, W: ByteOut>(
    alloc: A,
    bytes: &[u8],
    id: u16,
    writer: &mut W,
) -> Result<(), RecoverFault>
    ensures ok { OnOk result (IsOkAnd (recovered id (journal_of bytes.now)) (Appends (W.taken writer.old) (W.taken writer.new))) }
    ensures err { IfErr result (IsRecoverFault (recovered id (journal_of bytes.now))) }
    ensures write { CountsWhere is_write (W.failed_calls writer.old) (W.failed_calls writer.new) result }
{
    let state = match read_journal(alloc, bytes) {
        Ok(state) => state,
        Err(fault) => return Err(RecoverFault::Unread(fault)),
    };
    let Some(gateway) = state.gateway(id) else {
        return Err(RecoverFault::NoGateway);
    };
    match gateway.book.save(writer) {
        Ok(()) => Ok(()),
        Err(_) => Err(RecoverFault::Write),
    }
}

impl<A: Allocator + Clone> JournalState<A> {
    /// The gateway with this number.
    pub fn gateway(&self, id: u16) -> Option<&JournalGateway<A>>
        ensures { option_copied result ≡ find (λ m. m.id == id) self.now.gateways }
    {
        self.gateways.iter().find(|gateway| gateway.is_numbered(id))
    }
}
