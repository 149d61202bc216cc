//! Why a text has no module.

use std::alloc::{AllocError, AllocFailed};
use thiserror::Error;

/// Why a text has no module, and where: `at` is the byte, from 0.
#[derive(Clone, Copy, PartialEq, Eq, Debug, Error)]
pub enum VerilogFault {
    /// No module has these tokens.
    #[error("Syntax")]
    Syntax { at: u64 },
    /// A name has no declaration before it.
    #[error("Undeclared")]
    Undeclared { at: u64 },
    /// A name is declared again.
    #[error("TwiceDeclared")]
    TwiceDeclared { at: u64 },
    /// A wire, a register or a memory has a second driver.
    #[error("TwiceDriven")]
    TwiceDriven { at: u64 },
    /// An output, a wire, a register or a memory has no driver.
    #[error("NeverDriven")]
    NeverDriven { at: u64 },
    /// Operands have not the widths that are wanted.
    #[error("WidthsDiffer")]
    WidthsDiffer { at: u64 },
    /// A net depends on itself through assignments.
    #[error("Loop")]
    Loop { at: u64 },
    /// A memory of a wrong size, or with a wrong index, or an index on no memory.
    #[error("BadMemory")]
    BadMemory { at: u64 },
    /// The clock stands in an expression, or a block has another clock.
    #[error("ClockRead")]
    ClockRead { at: u64 },
    /// More than 128 bits.
    #[error("TooWide")]
    TooWide { at: u64 },
    /// A port that the profile does not allow, or lacks.
    #[error("BadPort")]
    BadPort { at: u64 },
    /// An assignment to what takes none.
    #[error("BadTarget")]
    BadTarget { at: u64 },
    /// Too many brackets, operators or `if`.
    #[error("TooDeep")]
    TooDeep { at: u64 },
    /// Want of memory.
    #[error("Memory")]
    Memory,
}

impl From<AllocError> for VerilogFault {
    ghost use Rattle.std.specs.Prelude.{◌≡◌};
    ghost use Rattle.gl_verilog_tokens.specs.declared.fault.VerilogFault.TheVariants as fault;

    ghost from_gives = { λ _ e. e ≡ fault.Memory };

    fn from(_e: AllocError) -> VerilogFault {
        VerilogFault::Memory
    }
}

impl<T: Drop> From<AllocFailed<T>> for VerilogFault {
    ghost use Rattle.std.specs.Prelude.{◌≡◌};
    ghost use Rattle.gl_verilog_tokens.specs.declared.fault.VerilogFault.TheVariants as fault;

    ghost from_gives = { λ _ e. e ≡ fault.Memory };

    fn from(_e: AllocFailed<T>) -> VerilogFault {
        VerilogFault::Memory
    }
}
