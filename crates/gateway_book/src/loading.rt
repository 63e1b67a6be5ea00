// A book that is opened again from its saved text.
ghost use Rattle.std.specs.Prelude.{◌≡◌, ◌+◌, ◌<◌, ◌≤◌, ◌==◌, [], None, length, MatchBool, MatchResult, IsOkUnless, IfOk, OnOk};
ghost use Rattle.text_lines.specs.Calls.{CountsWhere};
ghost use Rattle.gateway_book.specs.Loading.{Loads, is_read, may_follow, joined, saved_empty};
ghost use Rattle.gateway_book.specs.Opening.{open_fault};
ghost use Rattle.gateway_book.specs.Saved.{saved_of, opened_again};
ghost use Rattle.gateway_book.specs.SavedLines.{TakesBytes};
ghost use Rattle.gateway_book.specs.Step.{reservation_of};

use crate::saved_line::{Entry, SavedGateway};
use crate::saved_steps::{bytes_of, read_entry, read_opening};
use crate::{Ask, GatewayBook, MAX_CAP};
use resv_list::Roster;
use text_lines::{ByteIn, HeldLine};
use thiserror::Error;

/// Why no book was read. Lines count from 1, and the first that is at fault is told.
#[derive(Clone, Copy, Debug, PartialEq, Eq, Error)]
pub enum LoadFault {
    /// A call of the reader failed.
    #[error("the saved book could not be read")]
    Read,
    /// The line is not spelled as it would be saved.
    #[error("line {line} of the saved book is not spelled as it would be saved")]
    Syntax { line: u64 },
    /// The version is another than 1 and 2.
    #[error("the version of the saved book is neither 1 nor 2")]
    Version,
    /// No book could hold what the line says beside what the lines before it say.
    #[error("line {line} of the saved book says what no book may hold beside the lines before it")]
    Unlawful { line: u64 },
    /// There was no memory for a member.
    #[error("there is no memory for a transmission of the saved book")]
    NoMemory,
}

impl<R: Roster> GatewayBook<R> {
    /// Reads a saved text, up to the line feed of its last line, and opens its book again, over an empty roster. What it keeps
    /// is booked, and nothing is cancelled or retired. The reader is asked for one byte at a time, so it should be buffered.
    pub fn load<I: ByteIn>(reader: &mut I, roster: R) -> Result<Self, LoadFault>
    where
        R: Drop,
        requires { R.list roster ≡ [] }
        ensures answer { Loads (I.left reader.old) (I.left reader.new) result }
        ensures opened { IfOk result (λ b. b ≡ opened_again (saved_of b)) }
        ensures read { CountsWhere is_read (I.failed_calls reader.old) (I.failed_calls reader.new) result }
    {
        let (book, _) = GatewayBook::load_counted(reader, roster)?;
        Ok(book)
    }

    /// The same, with the number of bytes that were read.
    pub fn load_counted<I: ByteIn>(reader: &mut I, roster: R) -> Result<(Self, u64), LoadFault>
    where
        R: Drop,
        requires { R.list roster ≡ [] }
        ensures answer { MatchResult result (λ read. Loads (I.left reader.old) (I.left reader.new) (Ok read.0))
            (λ fault. Loads (I.left reader.old) (I.left reader.new) (Err fault)) }
        ensures counted { IfOk result (λ read. TakesBytes (I.left reader.old) (I.left reader.new) read.1) }
        ensures opened { IfOk result (λ read. read.0 ≡ opened_again (saved_of read.0)) }
        ensures read { CountsWhere is_read (I.failed_calls reader.old) (I.failed_calls reader.new) result }
    {
        let mut line = HeldLine::new();
        let (gateway, mut taken) = read_opening(reader, &mut line)?;
        let mut book = GatewayBook::opened(roster, gateway);
        loop {
            let number = book.next_line_number();
            let entry = match read_entry(reader, &mut line, number) {
                Ok(entry) => entry,
                Err(fault) => return Err(fault),
            };
            taken += bytes_of(&line);
            match entry {
                Entry::End(count) if book.has_members(count) => return Ok((book, taken)),
                Entry::End(_) => return Err(LoadFault::Syntax { line: number }),
                Entry::Member(ask) => match book.join(ask, number) {
                    Ok(()) => {}
                    Err(fault) => return Err(fault),
                },
            }
        }
    }

    /// The number of the line of the next member, which follows those of the version and the gateway.
    fn next_line_number(&self) -> u64
        ensures number { result ≡ length self.now.list + 3 }
        ensures few { result ≤ 65539 }
    {
        self.roster.len() as u64 + 3
    }

    /// Whether the book has so many members.
    fn has_members(&self, count: u32) -> bool
        ensures { result ≡ (count == length self.now.list) }
    {
        count as usize == self.roster.len()
    }

    /// The book of a gateway that has no member yet.
    fn opened(roster: R, gateway: SavedGateway) -> Self
        requires empty { R.list roster ≡ [] }
        requires opens { open_fault (saved_empty gateway).rules ≡ None }
        ensures { result ≡ opened_again (saved_empty gateway) }
    {
        GatewayBook {
            roster,
            id: gateway.id,
            cap: gateway.cap,
            gap: gateway.gap,
            floor: gateway.floor,
            booked: 0,
            cancelled: 0,
            retired: 0,
        }
    }

    /// Puts the member that the line of this number says behind the others, if it may stand there.
    fn join(&mut self, ask: Ask, number: u64) -> Result<(), LoadFault>
        requires { self.old ≡ opened_again (saved_of self.old) }
        ensures answer { MatchBool (may_follow (saved_of self.old) ask) (IsOkUnless result LoadFault.NoMemory)
            (result ≡ Err (LoadFault.Unlawful number)) }
        ensures joined { OnOk result (self.new ≡ opened_again (joined (saved_of self.old) (reservation_of ask))) }
        ensures longer { OnOk result (length self.new.list ≡ length self.old.list + 1) }
        ensures room { OnOk result (length self.old.list < MAX_CAP) }
    {
        let Some(reservation) = self.follower(ask) else {
            return Err(LoadFault::Unlawful { line: number });
        };
        self.add(reservation).map_err(|_| LoadFault::NoMemory)
    }
}
