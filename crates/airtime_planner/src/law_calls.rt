// Each law is called here, so that its clause can say no less than its statement.
ghost use Rattle.airtime_planner.specs.WhatIf.{LiveBookAnswersAlike};
ghost use Rattle.airtime_planner.specs.EarliestAfter.{LiveBookStartsAlike};

use crate::laws::{law_live_book_answers_alike, law_live_book_starts_alike};

/// Each law by a call of its own: so each ensures just this statement, and asks for nothing.
fn each_law()
    ensures live_book_answers_alike { LiveBookAnswersAlike }
    ensures live_book_starts_alike { LiveBookStartsAlike }
{
    law_live_book_answers_alike();
    law_live_book_starts_alike();
}
