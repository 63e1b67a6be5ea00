ghost use Rattle.gateway_clock.specs.Laws.{NearestIsTheOnlyOne, SessionsKeepDifferences, CeilingRisesWithTime};

/// Of all moments that have the counter's 32 bits one alone is nearest to the line.
pub fn law_nearest_is_the_only_one()
    ensures { NearestIsTheOnlyOne }
{}

/// Within a session the moments of packets differ as their counters do, and what is added to a moment is added to its counter. So
/// a start that is reckoned from a packet's moment is told to the gateway as it counts itself.
pub fn law_sessions_keep_differences()
    ensures { SessionsKeepDifferences }
{}

/// Whatever packets tell, the line never falls, a packet is placed no later than the ceiling, and the ceiling rises no faster
/// than a clock that is 100 ppm fast, and is at most 2 s above the line.
pub fn law_ceiling_rises_with_time()
    ensures { CeilingRisesWithTime }
{}
