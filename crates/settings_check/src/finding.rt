// One finding.
ghost use Rattle.std.specs.Prelude.{◌≡◌};
ghost use Rattle.settings_check.specs.Agreement.{is_error, tells};

use crate::place::Place;
use settings_text::ReadFault;

/// How grave a finding is.
#[derive(Clone, Copy, Debug, PartialEq, Eq)]
pub enum Severity {
    /// A server refuses the settings. The name that it prints is this fault's, where it is the first that it meets.
    Error(ReadFault),
    /// A server takes the settings, maybe not as they were meant.
    Warning,
}

impl Severity {
    /// Whether a server refuses the settings for it.
    pub fn is_error(self) -> bool
        ensures { result ≡ is_error self }
    {
        match self {
            Severity::Error(_) => true,
            Severity::Warning => false,
        }
    }

    /// Whether a server may print this name for it.
    pub fn tells(self, name: &str) -> bool
        ensures { result ≡ tells name.now self }
    {
        match self {
            Severity::Error(fault) => fault.name() == name,
            Severity::Warning => false,
        }
    }
}

/// What is wrong or doubtful at a place of the settings.
#[derive(Debug, Drop)]
pub struct Finding {
    /// Where it stands.
    pub place: Place,
    /// How grave it is.
    pub severity: Severity,
    /// In words: the table by its number and its id or address, the key, what stands there and what may stand there.
    pub words: String,
}
