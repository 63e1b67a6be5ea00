// The law is called here, so that its clause can say no less than its statement.
ghost use Rattle.text_lines.specs.Number.{NumbersReadBack};

use crate::numbers::law_numbers_read_back;

/// The law by a call of its own: so it ensures just this statement, and asks for nothing.
fn each_law()
    ensures numbers_read_back { NumbersReadBack }
{
    law_numbers_read_back();
}
