ghost use Rattle.resv_list.specs.Nearest.{NearestAreFound};
ghost use Rattle.resv_list.specs.OnAir.{OnAirIsCounted};

/// What a roster gives before a moment is the member with the greatest start below it, and none exactly where no
/// member begins below it; what it gives from a moment on is the member with the least start not below it, and none
/// exactly where every member begins below it.
pub fn law_nearest_are_found()
    ensures { NearestAreFound }
{}

/// How long transmissions of a sub-band are on air in a stretch of time is what counting comes to, in each of its microseconds
/// those that are on air: of one that begins before the stretch, or ends after it, the part that lies within.
pub fn law_on_air_is_counted()
    ensures { OnAirIsCounted }
{}
