// Each law is called here, so that its clause can say no less than its statement.
ghost use Rattle.gateway_book.specs.Laws.{SpacedIsApart, GapKeepsDisjoint, FirstHasLeastStart, LeastIsLeast};
ghost use Rattle.gateway_book.specs.Laws.{FewHoursSuffice, DutyRowIsExact, BusiestIsExact, OnAirKeepsLimit};
ghost use Rattle.gateway_book.specs.Earliest.{EarliestCandidates};
ghost use Rattle.gateway_book.specs.EarliestValue.{EarliestIsExact};
ghost use Rattle.gateway_book.specs.Forgetting.{ForgettingIsUnseen};
ghost use Rattle.gateway_book.specs.Loading.{BooksMayBeSaved, SavedIsReadAgain, LoadedWasSaved};

use crate::laws::{
    law_books_may_be_saved, law_busiest_is_exact, law_duty_row_is_exact, law_earliest_candidates,
    law_earliest_is_exact, law_few_hours_suffice, law_first_has_least_start, law_forgetting,
    law_gap_keeps_disjoint, law_least_is_least, law_loaded_was_saved, law_on_air_keeps_limit,
    law_saved_is_read_again, law_spaced_is_apart,
};

/// Each law by a call of its own: so each ensures just this statement, and asks for nothing.
fn each_law()
    ensures spaced_is_apart { SpacedIsApart }
    ensures gap_keeps_disjoint { GapKeepsDisjoint }
    ensures first_has_least_start { FirstHasLeastStart }
    ensures least_is_least { LeastIsLeast }
    ensures few_hours_suffice { FewHoursSuffice }
    ensures duty_row_is_exact { DutyRowIsExact }
    ensures busiest_is_exact { BusiestIsExact }
    ensures on_air_keeps_limit { OnAirKeepsLimit }
    ensures earliest_is_exact { EarliestIsExact }
    ensures earliest_candidates { EarliestCandidates }
    ensures forgetting { ForgettingIsUnseen }
    ensures books_may_be_saved { BooksMayBeSaved }
    ensures saved_is_read_again { SavedIsReadAgain }
    ensures loaded_was_saved { LoadedWasSaved }
{
    law_spaced_is_apart();
    law_gap_keeps_disjoint();
    law_first_has_least_start();
    law_least_is_least();
    law_few_hours_suffice();
    law_duty_row_is_exact();
    law_busiest_is_exact();
    law_on_air_keeps_limit();
    law_earliest_is_exact();
    law_earliest_candidates();
    law_forgetting();
    law_books_may_be_saved();
    law_saved_is_read_again();
    law_loaded_was_saved();
}
