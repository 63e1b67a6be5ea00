// Books that are saved as texts and loaded again.
ghost use Rattle.std.specs.Prelude.{◌≡◌, ◌<◌, []};

use crate::asks::{ask_in_m, drawn_after};
use gateway_book::{GatewayBook, LoadFault, MemoryIn, MemoryOut, SaveFault};
use resv_list::{Roster, VecRoster};
use std::alloc::Global;
use std::test::Fail;
use test_asserts::{equal, equal_at, holds, holds_at};

/// Two transmissions that touch, as the first version saved them.
const FIRST: &[u8; 89] =
    b"airbook 1\ngateway 1 4096 0\nr 1 10000000 868100000 5 12\nr 2 10041216 868100000 5 12\nend 2\n";

/// The same in the second version.
pub(crate) const SECOND: &[u8; 91] =
    b"airbook 2\ngateway 1 4096 0 0\nr 1 10000000 868100000 5 12\nr 2 10041216 868100000 5 12\nend 2\n";

/// The book of a text, over an empty roster.
pub(crate) fn loaded<R: Roster + Drop>(text: &[u8], roster: R) -> Result<GatewayBook<R>, LoadFault>
    requires { R.list roster ≡ [] }
{
    GatewayBook::load(&mut MemoryIn::new(text), roster)
}

/// Why a text is no saved book, if it is none.
fn fault_of(alloc: Global, text: &[u8]) -> Option<LoadFault> {
    loaded(text, VecRoster::new(alloc)).err()
}

/// The text that a book saves.
pub(crate) fn saved<R: Roster>(
    alloc: Global,
    book: &GatewayBook<R>,
) -> Result<Vec<u8, Global>, Fail> {
    let mut writer = MemoryOut::new(alloc);
    book.save(&mut writer)?;
    Ok(writer.bytes)
}

/// The book of a text has booked so much, has cancelled and retired nothing, and saves the other text.
fn is_loaded<R: Roster + Drop>(
    alloc: Global,
    roster: R,
    text: &[u8],
    booked: u64,
    wanted: &[u8],
) -> Result<(), Fail>
    requires { R.list roster ≡ [] }
{
    let book = loaded(text, roster)?;
    let totals = book.totals();
    let airtimes = [totals.booked, totals.cancelled, totals.retired];
    equal(&airtimes, &[booked, 0, 0])?;
    equal(&saved(alloc, &book)?.as_slice(), &wanted)
}

/// A book of the two over an empty roster saves the second text.
fn is_saved<R: Roster + Drop>(alloc: Global, roster: R) -> Result<(), Fail>
    requires { R.list roster ≡ [] }
{
    let mut book = GatewayBook::new(roster, 1, 4_096, 0)?;
    holds(book.book(ask_in_m(1, 10_000_000)).is_ok())?;
    holds(book.book(ask_in_m(2, 10_041_216)).is_ok())?;
    equal(&saved(alloc, &book)?.as_slice(), &SECOND.as_slice())
}

#[test]
fn a_book_is_saved_and_loaded(rt: HostRuntime) -> Result<(), Fail> {
    let alloc = rt.alloc();
    is_saved(alloc, VecRoster::new(alloc))?;
    is_loaded(alloc, VecRoster::new(alloc), FIRST, 82_432, SECOND)?;
    is_loaded(alloc, VecRoster::new(alloc), SECOND, 82_432, SECOND)
}

fn is_syntax(fault: Option<LoadFault>) -> bool {
    match fault {
        Some(LoadFault::Syntax { .. }) => true,
        _ => false,
    }
}

/// No front of a text is a saved book.
fn is_refused_cut(alloc: Global, text: &[u8]) -> Result<(), Fail> {
    for cut in 0..text.len() {
        holds_at(&cut, is_syntax(fault_of(alloc, &text[..cut])))?;
    }
    Ok(())
}

#[test]
fn a_text_that_is_cut_is_no_saved_book(rt: HostRuntime) -> Result<(), Fail> {
    is_refused_cut(rt.alloc(), FIRST)?;
    is_refused_cut(rt.alloc(), SECOND)
}

/// A saved book, and what follows it.
const FOLLOWED: &[u8] =
    b"airbook 2\ngateway 7 1 3600000000 0\nr 1 0 868100000 5 12\nend 1\nbook 2 ";

fn is_seventh<R: Roster>(book: &GatewayBook<R>) -> Result<(), Fail> {
    equal(&(book.id(), book.cap(), book.gap()), &(7, 1, 0))?;
    let totals = book.totals();
    equal(&(totals.floor, totals.kept), &(3_600_000_000, 1))
}

#[test]
fn what_follows_the_last_line_is_left(rt: HostRuntime) -> Result<(), Fail> {
    let mut reader = MemoryIn::new(FOLLOWED);
    let (book, count) = GatewayBook::load_counted(&mut reader, VecRoster::new(rt.alloc()))?;
    is_seventh(&book)?;
    equal(&count, &62)?;
    equal(&reader.bytes, &b"book 2 ".as_slice())
}

/// A book is not saved where this call of the writer fails, and the bytes before it were written, each by a call of its own.
fn is_unsaved<R: Roster>(alloc: Global, book: &GatewayBook<R>, call: usize) -> Result<(), Fail> {
    let mut writer = MemoryOut::failing(alloc, 1, call as u64);
    let answer = book.save(&mut writer);
    holds_at(&call, answer == Err(SaveFault::Write))?;
    let front = SECOND.get(..call.saturating_sub(1));
    holds_at(&call, front == Some(writer.bytes.as_slice()))
}

/// A book is not loaded where this call of the reader fails, and the bytes behind it were not read.
fn is_unread<R: Roster + Drop>(roster: R, call: usize) -> Result<(), Fail>
    requires { R.list roster ≡ [] }
{
    let mut reader = MemoryIn::failing(SECOND, 1, call as u64);
    let fault = GatewayBook::load(&mut reader, roster).err();
    holds_at(&call, fault == Some(LoadFault::Read))?;
    equal_at(&call, &reader.bytes.len(), &92usize.saturating_sub(call))
}

#[test]
fn each_failed_call_is_told(rt: HostRuntime) -> Result<(), Fail> {
    let book = loaded(SECOND, VecRoster::new(rt.alloc()))?;
    for call in 1..92 {
        is_unsaved(rt.alloc(), &book, call)?;
        is_unread(VecRoster::new(rt.alloc()), call)?;
    }
    Ok(())
}

/// Whether a text is a book; if so, it is saved as that text.
fn is_book<R: Roster + Drop>(alloc: Global, roster: R, text: &[u8]) -> Result<bool, Fail>
    requires { R.list roster ≡ [] }
{
    match loaded(text, roster) {
        Ok(book) => {
            equal(&saved(alloc, &book)?.as_slice(), &text)?;
            Ok(true)
        }
        Err(_) => Ok(false),
    }
}

/// How many of some bytes, among them its own, at this place of the second text make a book.
fn books_changed_at(alloc: Global, place: usize) -> Result<u64, Fail>
    requires { place < 91 }
{
    let mut text = *SECOND;
    let mut books: u64 = 0;
    for byte in b"\0\t\n\r #-./0123456789:aegn" {
        text[place] = *byte;
        if is_book(alloc, VecRoster::new(alloc), &text)? {
            books = books.saturating_add(1);
        }
    }
    Ok(books)
}

#[test]
fn a_changed_byte_makes_a_fault_or_another_saved_book(rt: HostRuntime) -> Result<(), Fail> {
    let mut books: u64 = 0;
    for place in 0..91 {
        books = books.saturating_add(books_changed_at(rt.alloc(), place)?);
    }
    // As many as a reader in Python finds (tests/random_saved.py): in 79 places the byte itself, and 268 others.
    equal(&books, &347)
}

/// Books what is accepted of 200 random asks, while time goes on.
fn book_drawn<R: Roster>(book: &mut GatewayBook<R>, first: u64) {
    let mut drawn = first;
    for number in 0..200 {
        drawn = drawn_after(drawn);
        book.book(ask_in_m(drawn, (drawn >> 33) % 7_200_000_000))
            .is_ok();
        book.tick(number * 20_000_000);
    }
}

/// A book of random asks with this gap is loaded as it was saved.
fn is_same_again<R: Roster + Drop>(alloc: Global, roster: R, gap: u32) -> Result<(), Fail>
    requires { R.list roster ≡ [] }
{
    let mut book = GatewayBook::new(roster, 1, 64, gap)?;
    book_drawn(&mut book, u64::from(gap));
    let totals = book.totals();
    holds(totals.kept > 10)?;
    let text = saved(alloc, &book)?;
    let again = VecRoster::new(alloc);
    is_loaded(
        alloc,
        again,
        text.as_slice(),
        totals.kept_airtime,
        text.as_slice(),
    )
}

#[test]
fn random_books_are_the_same_again(rt: HostRuntime) -> Result<(), Fail> {
    for gap in [0, 1_000, 100_000] {
        is_same_again(rt.alloc(), VecRoster::new(rt.alloc()), gap)?;
    }
    Ok(())
}
