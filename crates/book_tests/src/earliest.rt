// The earliest start of random asks beside a search that tries every start, on each roster. Worked rows stand among the books.
ghost use Rattle.std.specs.Prelude.{◌≡◌, []};

use crate::asks::{ask_in_k, ask_in_m, drawn_after};
use gateway_book::{Ask, GatewayBook};
use resv_list::{Roster, VecRoster};
use resv_tree::TreeRoster;
use std::test::Fail;
use test_asserts::equal_at;

/// Twelve bytes in sub-band K, where three fill an hour, or in sub-band M.
fn drawn_ask(drawn: u64, start: u64) -> Ask {
    if drawn % 2 == 0 {
        ask_in_k(start)
    } else {
        ask_in_m(2, start)
    }
}

/// Books the first start from `from` on and before `to` that is accepted.
fn tried<R: Roster>(book: &mut GatewayBook<R>, drawn: u64, from: u64, to: u64) -> Option<u64> {
    for start in from..to {
        if book.book(drawn_ask(drawn, start)).is_ok() {
            return Some(start);
        }
    }
    None
}

/// A small stretch round the first free start within two hours.
fn stretch<R: Roster>(book: &GatewayBook<R>, drawn: u64) -> (u64, u64) {
    let not_before = (drawn >> 50) % 128 * 60_000_001;
    let free = book
        .earliest(drawn_ask(drawn, drawn), not_before, u64::MAX)
        .unwrap_or(not_before);
    (
        not_before.max(free.saturating_sub(20)),
        free.saturating_add(5),
    )
}

/// Random asks of a book over an empty roster, each booked at the first start of a small stretch that is accepted.
fn answers_alike<R: Roster + Drop>(roster: R) -> Result<(), Fail>
    requires { R.list roster ≡ [] }
{
    let mut book = GatewayBook::new(roster, 1, 200, 0)?;
    let mut drawn = 1;
    for turn in 0..300 {
        drawn = drawn_after(drawn);
        let (from, last) = stretch(&book, drawn);
        let found = book.earliest(drawn_ask(drawn, drawn), from, last);
        let wanted = tried(&mut book, drawn, from, last.saturating_add(1));
        equal_at(&turn, &found, &wanted)?;
    }
    Ok(())
}

#[test]
fn earliest_is_that_of_a_search_of_all(rt: HostRuntime) -> Result<(), Fail> {
    answers_alike(VecRoster::new(rt.alloc()))?;
    answers_alike(TreeRoster::new(rt.alloc()))
}
