// Journals that are read and recovered with each growth refused in turn.

use crate::journals::{WITH, journal};
use gateway_book::MemoryOut;
use refusing_alloc::{Call, Refuser, Refusing, growths_of, same, was_refused};
use serve_journal::{JournalFault, RecoverFault, read_journal, recover};
use std::alloc::Global;
use std::test::Fail;

/// The bytes of a journal, to be read.
#[derive(Drop)]
struct Reading<'a>(&'a [u8]);

impl Call for Reading<'_> {
    fn is_refused(&mut self, alloc: &Refuser, number: u64) -> Result<bool, Fail> {
        alloc.refuse(number);
        let read = read_journal(alloc, self.0).map(|state| state.gateways.len());
        let is_starved = read == Err(JournalFault::NoMemory);
        let again = was_refused(alloc, number, is_starved, false)?;
        if !is_starved {
            same(read, Ok(2))?;
        }
        Ok(again)
    }
}

/// The same, to be recovered from into a text that is never refused memory.
#[derive(Drop)]
struct Recovering<'a>(&'a [u8], Global);

impl Call for Recovering<'_> {
    fn is_refused(&mut self, alloc: &Refuser, number: u64) -> Result<bool, Fail> {
        let mut writer = MemoryOut::new(self.1);
        alloc.refuse(number);
        let answer = recover(alloc, self.0, 2, &mut writer);
        let is_starved = answer == Err(RecoverFault::Unread(JournalFault::NoMemory));
        let again = was_refused(alloc, number, is_starved, false)?;
        let wanted = if is_starved { &[] } else { WITH };
        same(writer.bytes.as_slice(), wanted)?;
        Ok(again)
    }
}

// Refuses `serve_journal` `read_journal`: 1 for each list that grows, and for each transmission that is kept.
#[test]
fn growths_of_a_journal_that_is_read(rt: HostRuntime) -> Result<(), Fail> {
    let whole = journal(rt.alloc())?;
    let growths = growths_of(&Refusing::new(rt.alloc()), &mut Reading(&whole))?;
    same(growths > 3, true)
}

// Refuses `serve_journal` `recover`: those of `read_journal`.
#[test]
fn growths_of_a_book_that_is_recovered(rt: HostRuntime) -> Result<(), Fail> {
    let whole = journal(rt.alloc())?;
    let growths = growths_of(
        &Refusing::new(rt.alloc()),
        &mut Recovering(&whole, rt.alloc()),
    )?;
    same(growths > 3, true)
}
