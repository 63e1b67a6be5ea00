// Laws on the definitions of the output.
ghost use Rattle.book_texts.specs.Laws.{OkWhereAccepted, OneAnswerALine, AnswersComeFirst, PlanIsBook, PlanTellsAnswers};
ghost use Rattle.book_texts.specs.Laws.{PlanTellsBookings, PlanTellsStarts};

/// A booking is answered by a line that begins with neither `no` nor `bad` exactly where the book accepts what is
/// asked for and finds memory for it.
pub fn law_ok_where_accepted()
    ensures { OkWhereAccepted }
{}

/// Each line of `airbook book` that is not passed over has one line that answers it, and no other line has. (A line `plan` of
/// `airbook plan` has none.)
pub fn law_one_answer_a_line()
    ensures { OneAnswerALine }
{}

/// What answers some lines comes first in what answers them and others after them: no answer looks ahead.
pub fn law_answers_come_first()
    ensures { AnswersComeFirst }
{}

/// Without a line `plan` the output of `airbook plan` is that of `airbook book`.
pub fn law_plan_is_book()
    ensures { PlanIsBook }
{}

/// The bookings of a plan are answered by what the book would answer to these asks, one after another, as `what_if` of
/// `airtime_planner` tells it, where memory is found; and so is each of them, whatever other lines stand before it.
pub fn law_plan_tells_answers()
    ensures all { PlanTellsAnswers }
    ensures each { PlanTellsBookings }
{}

/// A question for the earliest start in a plan is answered by what the book would answer after the bookings of the plan so far,
/// as `what_if_earliest` of `airtime_planner` tells it, where memory is found.
pub fn law_plan_tells_starts()
    ensures { PlanTellsStarts }
{}
