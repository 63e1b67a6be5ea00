// Why a command that opens a socket stopped.
use airbook_text::TextFault;
use thiserror::Error;

/// Why a command that opens a socket stopped.
#[derive(Clone, Copy, Debug, Error)]
pub enum Stopped {
    /// The socket could not be bound.
    #[error("the socket could not be bound")]
    Bind,
    /// Another process has locked the folder of the state.
    #[error("another server keeps its state there")]
    Locked,
    /// There is no journal to go on with.
    #[error("there is no journal there")]
    NoState,
    /// There is a journal where a new server was asked for.
    #[error("there is a journal there")]
    HasState,
    /// The folder of the state could not be opened, or its journal not read or written.
    #[error("the journal could not be read or written")]
    Journal,
    /// The clock could not be read.
    #[error("the clock could not be read")]
    Clock,
    /// A text call stopped.
    #[error(transparent)]
    Text(#[from] TextFault),
}

impl Stopped {
    /// The fault's own name, as the program prints it.
    pub fn name(&self) -> &'static str {
        match self {
            Stopped::Bind => "Bind",
            Stopped::Locked => "Locked",
            Stopped::NoState => "NoState",
            Stopped::HasState => "HasState",
            Stopped::Journal => "Journal",
            Stopped::Clock => "Clock",
            Stopped::Text(fault) => fault.name(),
        }
    }
}
