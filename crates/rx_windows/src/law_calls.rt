// Each law is called here, so that its clause can say no less than its statement.
ghost use Rattle.rx_windows.specs.Laws.{OneRanking, OnGatewaysThatHeard};

use crate::laws::{law_candidates_on_gateways_that_heard, law_one_ranking};

/// Each law by a call of its own: so each ensures just this statement, and asks for nothing.
fn each_law()
    ensures one_ranking { OneRanking }
    ensures on_gateways_that_heard { OnGatewaysThatHeard }
{
    law_one_ranking();
    law_candidates_on_gateways_that_heard();
}
