// Each law is called here, so that its clause can say no less than its statement.
ghost use Rattle.server_core.specs.BookCalls.{BookCallsAreSteps};
ghost use Rattle.server_core.specs.DeskCalls.{DeskCallsAreSteps};
ghost use Rattle.server_core.specs.Headline.{EveryRunKeepsHeadline};
ghost use Rattle.server_core.specs.Promise.{EveryInterleavingIsSafe};
ghost use Rattle.server_core.specs.Resumed.{EveryResumedRunKeepsHeadline};
ghost use Rattle.server_core.specs.Staying.{OthersLeaveAlone};

use crate::laws::{
    law_book_calls_are_steps, law_desk_calls_are_steps, law_every_interleaving,
    law_every_resumed_run_keeps_headline, law_every_run_keeps_headline, law_others_leave_alone,
};
use std::alloc::Allocator;

/// Each law by a call of its own: so each ensures just this statement, and asks for nothing.
fn each_law<A: Allocator>()
    ensures every_interleaving { EveryInterleavingIsSafe }
    ensures every_run_keeps_headline { EveryRunKeepsHeadline }
    ensures every_resumed_run_keeps_headline { EveryResumedRunKeepsHeadline }
    ensures desk_calls_are_steps { DeskCallsAreSteps }
    ensures book_calls_are_steps { BookCallsAreSteps A }
    ensures others_leave_alone { OthersLeaveAlone }
{
    law_every_interleaving();
    law_every_run_keeps_headline();
    law_every_resumed_run_keeps_headline();
    law_desk_calls_are_steps();
    law_book_calls_are_steps::<A>();
    law_others_leave_alone();
}
