// The state that a journal says, as SQL: with each growth refused in turn, and with a writer that fails.

use crate::journals::journal;
use gateway_book::MemoryOut;
use journal_sql::recover_sql;
use refusing_alloc::{Call, Refuser, Refusing, growths_of, same, was_refused};
use serve_journal::{JournalFault, RecoverFault};
use std::alloc::Global;
use std::test::Fail;

/// The rows, behind the tables.
const ROWS: &[u8] = b"BEGIN;
INSERT INTO gateway VALUES(1,'aa555a0000000001',4096,45000,2000000,0);
INSERT INTO gateway VALUES(2,'aa555a0000000002',4096,45000,2200981,601001);
INSERT INTO device VALUES(637606874,1551825731,7,1);
INSERT INTO sent VALUES(1,2,1001100,868100000,5,12);
COMMIT;
";

/// The bytes of a journal, to be written as SQL into a text that is never refused memory.
#[derive(Drop)]
struct Telling<'a>(&'a [u8], Global);

impl Call for Telling<'_> {
    fn is_refused(&mut self, alloc: &Refuser, number: u64) -> Result<bool, Fail> {
        let mut writer = MemoryOut::new(self.1);
        alloc.refuse(number);
        let answer = recover_sql(alloc, self.0, &mut writer);
        let is_starved = answer == Err(RecoverFault::Unread(JournalFault::NoMemory));
        let again = was_refused(alloc, number, is_starved, false)?;
        same(writer.bytes.as_slice().ends_with(ROWS), !is_starved)?;
        same(writer.bytes.as_slice().is_empty(), is_starved)?;
        Ok(again)
    }
}

// Refuses `journal_sql` `recover_sql`: those of `read_journal`.
#[test]
fn growths_of_sql_that_is_recovered(rt: HostRuntime) -> Result<(), Fail> {
    let whole = journal(rt.alloc())?;
    let growths = growths_of(&Refusing::new(rt.alloc()), &mut Telling(&whole, rt.alloc()))?;
    same(growths > 3, true)
}

#[test]
fn a_failing_writer_of_sql_is_told(rt: HostRuntime) -> Result<(), Fail> {
    let whole = journal(rt.alloc())?;
    let mut writer = MemoryOut::failing(rt.alloc(), 100, 3);
    let answer = recover_sql(rt.alloc(), &whole, &mut writer);
    same(answer, Err(RecoverFault::Write))?;
    same(writer.bytes.len(), 200)
}
