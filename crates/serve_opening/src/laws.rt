ghost use Rattle.serve_opening.specs.OwnLaw.{EachTakesItsOwn};

/// Where no two packet forwarders have the same EUI, each gateway opens with the first of the journal that has its EUI, whatever the
/// other gateways open with.
pub fn law_each_gateway_takes_its_own()
    ensures { EachTakesItsOwn }
{}
