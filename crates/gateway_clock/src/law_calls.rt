// Each law is called here, so that its clause can say no less than its statement.
ghost use Rattle.gateway_clock.specs.Laws.{NearestIsTheOnlyOne, SessionsKeepDifferences, CeilingRisesWithTime};

use crate::laws::{
    law_ceiling_rises_with_time, law_nearest_is_the_only_one, law_sessions_keep_differences,
};

/// Each law by a call of its own: so each ensures just this statement, and asks for nothing.
fn each_law()
    ensures nearest { NearestIsTheOnlyOne }
    ensures sessions { SessionsKeepDifferences }
    ensures ceiling { CeilingRisesWithTime }
{
    law_nearest_is_the_only_one();
    law_sessions_keep_differences();
    law_ceiling_rises_with_time();
}
