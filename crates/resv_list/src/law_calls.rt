// Each law is called here, so that its clause can say no less than its statement.
ghost use Rattle.resv_list.specs.Nearest.{NearestAreFound};
ghost use Rattle.resv_list.specs.OnAir.{OnAirIsCounted};

use crate::laws::{law_nearest_are_found, law_on_air_is_counted};

/// Each law by a call of its own: so each ensures just this statement, and asks for nothing.
fn each_law()
    ensures nearest_are_found { NearestAreFound }
    ensures on_air_is_counted { OnAirIsCounted }
{
    law_nearest_are_found();
    law_on_air_is_counted();
}
