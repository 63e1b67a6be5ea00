// A station is finished, in one try or in several.

use crate::posts::{Post, totals_at};
use answer_ticket::Receipt;
use server_workers::{Closing, FinishCause, FinishFault, Ledger, Till};
use std::alloc::Global;
use std::sync::Wait;
use std::test::Fail;
use test_asserts::{equal, equal_at};
use worked_inputs::WorkedHasher;

/// With how many of the tills and with how many of the receipts a station is to be finished, the first of each, and why it
/// can't be, if so.
pub(crate) type Try = (usize, usize, Option<FinishCause>);

/// Why something isn't finished, if so, and what comes of it then: what it was, or what it is when it is finished.
type Tried<X, D> = (Option<FinishCause>, Result<D, X>);

/// What can be finished.
pub(crate) trait Finish: Drop + Sized {
    type Done: Drop;

    /// Tries to finish it with so many of its tills and so many of its receipts.
    fn finish(self, tills: usize, receipts: usize) -> Result<Tried<Self, Self::Done>, Fail>;
}

/// Has something be finished, and compares why it can't be: what comes of it, once it can.
pub(crate) fn finished<X: Finish>(open: X, tries: &[Try]) -> Result<Option<X::Done>, Fail> {
    let mut open = open;
    for (place, (tills, receipts, wanted)) in tries.iter().enumerate() {
        let (cause, left) = open.finish(*tills, *receipts)?;
        equal_at(&place, &cause, wanted)?;
        match left {
            Ok(done) => return Ok(Some(done)),
            Err(same) => open = same,
        }
    }
    Ok(None)
}

impl<B: Ledger, R: Wait> Finish for Post<'_, B, R> {
    type Done = Closing<WorkedHasher>;

    fn finish(
        self,
        tills: usize,
        receipts: usize,
    ) -> Result<Tried<Self, Closing<WorkedHasher>>, Fail> {
        let mut post = self;
        let mut later = kept_back(&mut post, tills)?;
        let before = totals_at(post.rt, &post.station);
        match finished_with(post, receipts) {
            Ok(closing) => Ok((None, Ok(closing))),
            Err((cause, same)) => {
                let mut post = same;
                // What is handed back has counted what it had.
                equal(&totals_at(post.rt, &post.station), &before)?;
                post.tills.append(&mut later)?;
                Ok((Some(cause), Err(post)))
            }
        }
    }
}

/// The tills that a station keeps back, all but so many.
fn kept_back<B: Ledger, R: Wait>(
    post: &mut Post<'_, B, R>,
    tills: usize,
) -> Result<Vec<Till<B>>, Fail> {
    if tills > post.tills.len() {
        return Err(Fail::from("there are fewer tills"));
    }
    Ok(post.tills.split_off(tills)?)
}

/// Has a station be finished with all its tills and so many of its receipts.
fn finished_with<'a, B: Ledger, R: Wait>(
    post: Post<'a, B, R>,
    lent: usize,
) -> Result<Closing<WorkedHasher>, (FinishCause, Post<'a, B, R>)> {
    let Post {
        rt,
        alloc,
        station,
        tills,
        receipts,
    } = post;
    match station.finish(alloc, tills, first_of(&receipts, lent)) {
        Ok(closing) => Ok(closing),
        Err(
            FinishFault {
                cause,
                station,
                tills,
            },
        ) => {
            let post = Post {
                rt,
                alloc,
                station,
                tills,
                receipts,
            };
            Err((cause, post))
        }
    }
}

/// So many of these receipts; all, where there are fewer.
fn first_of(receipts: &[Receipt<Global>], count: usize) -> &[Receipt<Global>] {
    receipts.get(..count).unwrap_or(receipts)
}
