// Why a text call stopped.
ghost use Rattle.std.specs.Prelude.{◌≡◌};

use text_lines::LineFault;
use thiserror::Error;

/// Why a text call stopped. What was written before is a front of the output.
#[derive(Clone, Copy, Debug, PartialEq, Eq, Error)]
pub enum TextFault {
    /// A call of the reader failed.
    #[error("the input could not be read")]
    Read,
    /// A call of the writer failed.
    #[error("the output could not be written")]
    Write,
    /// The input has more than 268,435,456 bytes.
    #[error("the input has more than 268435456 bytes")]
    TooMuch,
    /// An argument, the settings or a saved book was refused, or the books don't go with the answers given; by the name of the
    /// fault.
    #[error("the arguments, the settings or the books were refused: {0}")]
    Settings(&'static str),
    /// There was no memory.
    #[error("there is not enough memory")]
    NoMemory,
}

impl TextFault {
    ghost use Rattle.text_words.specs.Fault.{name_of};

    /// The fault's own name: that of its variant, and for `Settings` the name that it holds.
    pub fn name(&self) -> &'static str
        ensures { result.now ≡ name_of self.now }
    {
        match self {
            TextFault::Read => "Read",
            TextFault::Write => "Write",
            TextFault::TooMuch => "TooMuch",
            TextFault::Settings(name) => *name,
            TextFault::NoMemory => "NoMemory",
        }
    }
}

impl From<LineFault> for TextFault {
    ghost use Rattle.text_words.specs.Fault.{fault_of};

    ghost from_gives = { λ fault made. made ≡ fault_of fault };

    fn from(fault: LineFault) -> TextFault {
        match fault {
            LineFault::Read => TextFault::Read,
            LineFault::Write => TextFault::Write,
            LineFault::TooMuch => TextFault::TooMuch,
        }
    }
}
