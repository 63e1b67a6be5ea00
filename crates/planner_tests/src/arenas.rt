// The memory of a trial: answers without room are not begun, and an arena that is reset serves for ever.

use crate::asks::{Answer, Row, ask_in_m, asks_in_m};
use crate::trials::{AMPLE_BYTES, Live, answers_of, booked, tried};
use bumpalo::Bump;
use std::alloc::Global;
use std::test::Fail;
use test_asserts::{equal, holds};

/// Six members, a second apart.
static MEMBERS: [Row; 6] = [
    (0, 0, None),
    (1, 1_000_000, None),
    (2, 2_000_000, None),
    (3, 3_000_000, None),
    (4, 4_000_000, None),
    (5, 5_000_000, None),
];

fn six_members(alloc: Global) -> Result<Live, Fail> {
    booked(alloc, asks_in_m(alloc, &MEMBERS)?.as_slice())
}

/// Tries an ask where the answers have no room.
fn is_tried_without_room(arena: &Bump<Global>, alloc: Global) -> Result<(), Fail> {
    let book = six_members(alloc)?;
    let none = Bump::new(alloc);
    none.set_allocation_limit(Some(0));
    let mut out: Vec<Answer, &Bump<Global>> = Vec::new(&none);
    holds(tried(arena, alloc, &book, &[ask_in_m(6, 0)], &mut out).is_err())?;
    holds(out.is_empty())
}

#[test]
fn answers_without_room_are_not_begun(rt: HostRuntime) -> Result<(), Fail> {
    let arena = Bump::try_with_capacity(rt.alloc(), AMPLE_BYTES)?;
    let free = arena.chunk_capacity();
    is_tried_without_room(&arena, rt.alloc())?;
    equal(&arena.chunk_capacity(), &free)
}

/// What is left of an arena after a trial.
fn left_after_trial(arena: &Bump<Global>, alloc: Global, book: &Live) -> Result<usize, Fail> {
    let answers = answers_of(arena, alloc, book, &[ask_in_m(7, 10_000_000)])?;
    equal(&answers.len(), &1)?;
    Ok(arena.chunk_capacity())
}

/// An arena of which such a trial leaves so much, and which then is reset, is as it was.
fn serves_again(
    arena: &mut Bump<Global>,
    alloc: Global,
    book: &Live,
    left: usize,
) -> Result<(), Fail> {
    let before = (arena.allocated_bytes(), arena.chunk_capacity());
    equal(&left_after_trial(arena, alloc, book)?, &left)?;
    arena.reset()?;
    equal(&(arena.allocated_bytes(), arena.chunk_capacity()), &before)
}

#[test]
fn ten_trials_take_the_memory_of_one(rt: HostRuntime) -> Result<(), Fail> {
    let book = six_members(rt.alloc())?;
    let mut arena = Bump::try_with_capacity(rt.alloc(), AMPLE_BYTES)?;
    let free = arena.chunk_capacity();
    let fresh = Bump::try_with_capacity(rt.alloc(), AMPLE_BYTES)?;
    let left = left_after_trial(&fresh, rt.alloc(), &book)?;
    holds(left < free)?;
    for _turn in 0..10 {
        serves_again(&mut arena, rt.alloc(), &book, left)?;
    }
    Ok(())
}
