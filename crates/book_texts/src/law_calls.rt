// Each law is called here, so that its clause can say no less than its statement.
ghost use Rattle.book_texts.specs.Laws.{OkWhereAccepted, OneAnswerALine, AnswersComeFirst, PlanIsBook, PlanTellsAnswers};
ghost use Rattle.book_texts.specs.Laws.{PlanTellsBookings, PlanTellsStarts};

use crate::laws::{
    law_answers_come_first, law_ok_where_accepted, law_one_answer_a_line, law_plan_is_book,
    law_plan_tells_answers, law_plan_tells_starts,
};

/// Each law by a call of its own: so each ensures just this statement, and asks for nothing.
fn each_law()
    ensures ok_where_accepted { OkWhereAccepted }
    ensures one_answer_a_line { OneAnswerALine }
    ensures answers_come_first { AnswersComeFirst }
    ensures plan_is_book { PlanIsBook }
    ensures plan_tells_answers_all { PlanTellsAnswers }
    ensures plan_tells_answers_each { PlanTellsBookings }
    ensures plan_tells_starts { PlanTellsStarts }
{
    law_ok_where_accepted();
    law_one_answer_a_line();
    law_answers_come_first();
    law_plan_is_book();
    law_plan_tells_answers();
    law_plan_tells_starts();
}
