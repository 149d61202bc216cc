//! Why a file has no beats, or its beats come too fast.

ghost use Rattle.std.specs.Prelude.{◌≡◌};
ghost use Rattle.gl_tuples.specs.declared.fault.TupleFault.TheVariants.{Memory};

use std::alloc::AllocError;
use thiserror::Error;

/// The first broken rule of a tuple file, with the number of the record that breaks it, from 1.
#[derive(Debug, Drop, Error)]
pub enum TupleFault {
    /// A field that is not UTF-8.
    #[error("not UTF-8 at record {number}")]
    NotUtf8 { number: u64 },
    /// A first field that is not one or more decimal digits.
    #[error("no cycle at record {number}")]
    BadCycle { number: u64 },
    /// A cycle below the one of the record before.
    #[error("a cycle that falls at record {number}")]
    CycleFalls { number: u64 },
    /// A cycle above 10,000,000.
    #[error("a cycle too large at record {number}")]
    CycleTooLarge { number: u64 },
    /// A second field that names no stream.
    #[error("no stream at record {number}")]
    UnknownStream { number: u64 },
    /// Too few or too many fields.
    #[error("too few or too many fields at record {number}")]
    FieldCount { number: u64 },
    /// A field that is no value of its column.
    #[error("no value of the column at record {number}")]
    BadValue { number: u64 },
    /// A second tuple of one stream in one cycle.
    #[error("a second tuple of the stream at record {number}")]
    StreamTwice { number: u64 },
    /// A second tick in one cycle.
    #[error("a second tick of the cycle at record {number}")]
    TickTwice { number: u64 },
    /// A record behind the end.
    #[error("behind the end at record {number}")]
    AfterEnd { number: u64 },
    /// A beat nearer to the one before than the gap.
    #[error("too close at record {number}")]
    TooClose { number: u64 },
    /// A record that sets no parameter of the schema.
    #[error("no parameter at record {number}")]
    UnknownParameter { number: u64 },
    /// A second value of a parameter.
    #[error("a second value of the parameter at record {number}")]
    SetTwice { number: u64 },
    /// A record with a cycle, or the end of the file, before each parameter has a value.
    #[error("a parameter without a value at record {number}")]
    NotSet { number: u64 },
    /// There is no memory left.
    #[error("out of memory")]
    Memory,
}

impl From<AllocError> for TupleFault {
    ghost from_gives = { λ _ e. e ≡ Memory };

    fn from(_e: AllocError) -> TupleFault {
        TupleFault::Memory
    }
}

impl From<gl_bits::Memory> for TupleFault {
    ghost from_gives = { λ _ e. e ≡ Memory };

    fn from(_e: gl_bits::Memory) -> TupleFault {
        TupleFault::Memory
    }
}
