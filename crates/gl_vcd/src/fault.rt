//! Why a text is no dump.

use thiserror::Error;

/// The first fault of a text from the left, with the byte where it stands; of several at one token the one that stands
/// first here.
#[derive(Clone, Copy, PartialEq, Eq, Debug, Error)]
pub enum VcdFault {
    /// A token that cannot stand there, or the end of a text that wants more.
    #[error("syntax at {at}")]
    Syntax { at: u64 },
    /// A change of an identifier that no signal has.
    #[error("an unknown signal at {at}")]
    UnknownSignal { at: u64 },
    /// A time that is not above the one before.
    #[error("a time that falls at {at}")]
    TimeFalls { at: u64 },
    /// A width of 0 or above 128 bits, or a value that its signal has no room for.
    #[error("too wide at {at}")]
    TooWide { at: u64 },
    /// A signal has no value in time 0.
    #[error("no value at {at}")]
    NoValue { at: u64 },
    /// An identifier or a name that a signal has already.
    #[error("a name that is taken at {at}")]
    Twice { at: u64 },
    /// The signals show no result: its lines are not there, or its columns are too many or too wide.
    #[error("no port at {at}")]
    NoPort { at: u64 },
    /// A time above `LATEST_TIME`.
    #[error("too late at {at}")]
    TooLate { at: u64 },
}
