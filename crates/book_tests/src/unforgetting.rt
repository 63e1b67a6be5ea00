// Books that retire, against a plain list that forgets nothing and looks at all of it.
ghost use Rattle.std.specs.Prelude.{◌≡◌, []};

use crate::asks::drawn_after;
use crate::plain_book::{CAP, Plain, drawn_ask};
use gateway_book::{Ask, CancelFault, GatewayBook, HOUR, Refusal};
use resv_list::{Roster, VecRoster};
use resv_tree::TreeRoster;
use std::alloc::Global;
use std::test::Fail;
use test_asserts::{equal_at, holds, holds_at};

/// How many kinds of answers there are here: a tick's, a cancel's and an ask's, by `Told` and by what refused it.
const KINDS: usize = 9;

/// What both are told next: a tick, a cancel, or an ask by its start.
enum Told {
    Tick(u64),
    Cancel(u64, u64),
    Book(u64),
}

/// What was booked so many bookings before the last one.
fn booked_before(plain: &Plain, back: usize) -> Option<Ask> {
    let place = plain.asks.len().checked_sub(back.saturating_add(1))?;
    plain.asks.get(place).copied()
}

/// One of these by chance: within four hours round the floor, or beside one of the last 32 members, which is cancelled as often.
fn drawn_command(plain: &Plain, drawn: u64) -> Told {
    let ahead = (drawn >> 40) % 1_440 * 10_000_000;
    let start = plain.floor.saturating_add(ahead).saturating_sub(HOUR / 8);
    let member = booked_before(plain, (drawn >> 24) as usize % 32);
    match ((drawn >> 33) % 8, member) {
        (0, _) => Told::Tick(start.saturating_sub(HOUR + HOUR / 2)),
        (1 | 2, Some(ask)) => Told::Cancel(ask.number, ask.start),
        (3, Some(ask)) => Told::Cancel(ask.number.saturating_add(1), ask.start),
        (4, Some(ask)) => Told::Book(ask.start.saturating_add(drawn % 4 * 495_616)),
        _ => Told::Book(start),
    }
}

/// The kind of a cancel's answer.
fn kind_of_cancel(answer: &Result<u64, CancelFault>) -> usize {
    match answer {
        Ok(_) => 1,
        Err(CancelFault::Begun) => 2,
        Err(CancelFault::NotHere) => 3,
    }
}

/// The kind of an ask's answer; none that can't come here.
fn kind_of_booking(refusal: &Option<Refusal>) -> usize {
    match refusal {
        None => 4,
        Some(Refusal::Passed) => 5,
        Some(Refusal::Taken { .. }) => 6,
        Some(Refusal::DutyFull { .. }) => 7,
        Some(Refusal::Full) => 8,
        Some(_) => KINDS,
    }
}

/// Tells both, who answer alike; the kind of the answer.
fn tell<R: Roster>(
    book: &mut GatewayBook<R>,
    plain: &mut Plain,
    number: u64,
    told: Told,
) -> Result<usize, Fail> {
    match told {
        Told::Tick(now) => {
            book.tick(now);
            plain.floor = plain.floor.max(now);
            Ok(0)
        }
        Told::Cancel(named, start) => {
            let wanted = plain.cancel(named, start);
            equal_at(&number, &book.cancel(named, start), &wanted)?;
            Ok(kind_of_cancel(&wanted))
        }
        Told::Book(start) => {
            let wanted = plain.book(drawn_ask(number, start))?;
            equal_at(&number, &book.book(drawn_ask(number, start)).err(), &wanted)?;
            Ok(kind_of_booking(&wanted))
        }
    }
}

/// Each kind of answer came, and no other.
fn came_each(came: &[bool]) -> Result<(), Fail> {
    for (kind, has_come) in came.iter().enumerate() {
        holds_at(&kind, *has_come)?;
    }
    Ok(())
}

/// What the book has counted is what the list comes to.
fn counts_alike<R: Roster>(book: &GatewayBook<R>, plain: &Plain) -> Result<(), Fail> {
    let totals = book.totals();
    let (kept, kept_airtime) = plain.kept();
    equal_at(
        &kept,
        &[
            totals.kept as u64,
            totals.kept_airtime,
            totals.cancelled,
            totals.booked,
        ],
        &[kept as u64, kept_airtime, plain.cancelled, plain.booked],
    )
}

/// Random commands to a book and to a list: both answer alike, and keep as much.
fn answers_alike<R: Roster + Drop>(roster: R, alloc: Global) -> Result<(), Fail>
    requires { R.list roster ≡ [] }
{
    let mut book = GatewayBook::new(roster, 1, CAP, 0)?;
    let mut plain = Plain {
        asks: Vec::new(alloc),
        floor: 0,
        booked: 0,
        cancelled: 0,
    };
    let mut drawn = 1;
    let mut came = [false; KINDS];
    for number in 0..600 {
        drawn = drawn_after(drawn);
        let told = drawn_command(&plain, drawn);
        let kind = tell(&mut book, &mut plain, number, told)?;
        holds_at(&number, kind < KINDS)?;
        if let Some(has_come) = came.get_mut(kind) {
            *has_come = true;
        }
        counts_alike(&book, &plain)?;
    }
    came_each(&came)?;
    // Some was retired, so the two lists were not the same.
    holds(plain.kept().0 < plain.asks.len())
}

#[test]
fn what_is_retired_is_not_seen(rt: HostRuntime) -> Result<(), Fail> {
    answers_alike(VecRoster::new(rt.alloc()), rt.alloc())?;
    answers_alike(TreeRoster::new(rt.alloc()), rt.alloc())
}
