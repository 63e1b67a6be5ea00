// The law is called here, so that its clause can say no less than its statement.
ghost use Rattle.serve_opening.specs.OwnLaw.{EachTakesItsOwn};

use crate::laws::law_each_gateway_takes_its_own;

/// The law by a call of its own: so it ensures just this statement, and asks for nothing.
fn each_law()
    ensures { EachTakesItsOwn }
{
    law_each_gateway_takes_its_own();
}
