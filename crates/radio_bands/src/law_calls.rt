// The law is called here, so that its clause can say no less than its statement.
ghost use Rattle.radio_bands.specs.Band.{AtMostOneBand};

use crate::laws::law_at_most_one_band;

/// The law by a call of its own: so it ensures just this statement, and asks for nothing.
fn each_law()
    ensures at_most_one_band { AtMostOneBand }
{
    law_at_most_one_band();
}
