// What the definitions say by themselves.
ghost use Rattle.airtime_planner.specs.WhatIf.{LiveBookAnswersAlike};
ghost use Rattle.airtime_planner.specs.EarliestAfter.{LiveBookStartsAlike};

/// The answers to asks that are tried on a copy are those that the live book itself would give.
pub fn law_live_book_answers_alike()
    ensures { LiveBookAnswersAlike }
{}

/// The earliest start that is found on a copy is the one that the live book itself would answer after the same asks.
pub fn law_live_book_starts_alike()
    ensures { LiveBookStartsAlike }
{}
