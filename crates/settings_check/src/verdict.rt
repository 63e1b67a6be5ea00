// What a check comes to.
ghost use Rattle.std.specs.Prelude.{◌≡◌};
ghost use Rattle.settings_check.specs.Verdict.{verdict_of};

use crate::finding::Finding;
use crate::report::has_error;

/// What a check comes to.
#[derive(Clone, Copy, Debug, PartialEq, Eq)]
pub enum Verdict {
    /// Nothing was found.
    Clean,
    /// A server takes the settings, but there are warnings.
    Doubtful,
    /// A server refuses the settings.
    Refused,
}

/// What these findings come to.
pub fn verdict_of(findings: &[Finding]) -> Verdict
    ensures { result ≡ verdict_of findings.now }
{
    if has_error(findings) {
        return Verdict::Refused;
    }
    if findings.is_empty() {
        return Verdict::Clean;
    }
    Verdict::Doubtful
}
