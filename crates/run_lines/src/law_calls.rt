// The law is called here, so that its clause can say no less than its statement.
ghost use Rattle.run_lines.specs.WholeLines.{LinesAreWhole};

use crate::laws::law_lines_are_whole;

/// The law by a call of its own: so it ensures just this statement, and asks for nothing.
fn each_law()
    ensures lines_are_whole { LinesAreWhole }
{
    law_lines_are_whole();
}
