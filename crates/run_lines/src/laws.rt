// A law on the lines of a run.
ghost use Rattle.run_lines.specs.WholeLines.{LinesAreWhole};

/// No line that a run writes has a line feed inside, so that what is written is parted into just these lines.
pub fn law_lines_are_whole()
    ensures { LinesAreWhole }
{}
