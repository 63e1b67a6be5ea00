ghost use Rattle.serve_journal.specs.LineLaws.{EntriesReadBack, LinesHaveOneSpelling};

/// The line of an entry is read as that entry, for every entry whose numbers are in their ranges.
pub fn law_entries_read_back()
    ensures { EntriesReadBack }
{}

/// A line that is read as an entry is the line of that entry: there is one spelling.
pub fn law_lines_have_one_spelling()
    ensures { LinesHaveOneSpelling }
{}
