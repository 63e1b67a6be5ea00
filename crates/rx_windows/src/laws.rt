ghost use Rattle.rx_windows.specs.Laws.{OneRanking, OnGatewaysThatHeard};

/// Copies have one ranking: two permutations of one list in each of which each copy is before all later ones
/// are equal.
pub fn law_one_ranking()
    ensures { OneRanking }
{}

/// Each candidate is RX1 or RX2 of one of the copies, and lies on that copy's gateway.
pub fn law_candidates_on_gateways_that_heard()
    ensures { OnGatewaysThatHeard }
{}
