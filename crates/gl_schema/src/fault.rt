//! Why a text has no schema.

ghost use Rattle.std.specs.Prelude.{◌≡◌};
ghost use Rattle.gl_schema.specs.declared.fault.SchemaFault.TheVariants.{Memory};

use std::alloc::AllocError;
use thiserror::Error;

/// The first fault of a text from the left, with the byte where it stands.
#[derive(Debug, Drop, Error)]
pub enum SchemaFault {
    /// A token that cannot stand there, or the end of a text that wants more.
    #[error("syntax at {at}")]
    Syntax { at: u64 },
    /// A word in a name's place that is no name.
    #[error("no name at {at}")]
    BadName { at: u64 },
    /// A word in a kind's place that is no kind.
    #[error("no kind at {at}")]
    BadKind { at: u64 },
    /// A name that another column of its stream, another stream or another parameter has.
    #[error("a name that is taken at {at}")]
    Twice { at: u64 },
    /// The 33rd column of a stream, the ninth stream, or the 33rd parameter.
    #[error("too many at {at}")]
    TooMany { at: u64 },
    /// There is no memory left.
    #[error("out of memory")]
    Memory,
}

impl From<AllocError> for SchemaFault {
    ghost from_gives = { λ _ e. e ≡ Memory };

    fn from(_e: AllocError) -> SchemaFault {
        SchemaFault::Memory
    }
}

impl From<gl_bits::Memory> for SchemaFault {
    ghost from_gives = { λ _ e. e ≡ Memory };

    fn from(_e: gl_bits::Memory) -> SchemaFault {
        SchemaFault::Memory
    }
}
