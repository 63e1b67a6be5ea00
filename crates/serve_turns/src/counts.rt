// How many uplinks were answered so far.
ghost use Rattle.std.specs.Prelude.{◌≡◌};
ghost use Rattle.serve_turns.specs.Life.{counts_with};

use run_lines::UplinkCounts;

/// Counts more uplinks; no count goes further than 2^128 - 1.
pub(crate) fn count_more(counts: &mut UplinkCounts, more: &UplinkCounts)
    ensures { counts.new ≡ counts_with counts.old more.now }
{
    counts.sent = counts.sent.saturating_add(more.sent);
    counts.unanswered = counts.unanswered.saturating_add(more.unanswered);
    counts.silent = counts.silent.saturating_add(more.silent);
}
