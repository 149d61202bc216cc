//! Why a written module gives no module.

use gl_bits::Memory;
use std::alloc::{AllocError, AllocFailed};

/// A rule that a module can break.
#[derive(Clone, Copy)]
pub enum Rule {
    /// A name is used before it is declared.
    Undeclared,
    /// A name is declared a second time.
    TwiceDeclared,
    /// A name has a second driver.
    TwiceDriven,
    /// A name that is no input has no driver.
    NeverDriven,
    /// Widths do not go together, a literal does not fit, or bits are selected that are not there.
    WidthsDiffer,
    /// A net depends on itself through assignments.
    Loop,
    /// A memory is used as a net, a net as a memory, or a length or an address does not fit.
    BadMemory,
    /// The clock is read in an expression, or a block has another clock.
    ClockRead,
    /// Something has more than 128 bits.
    TooWide,
    /// An assignment drives what is no wire, or a block assigns what is no register or memory.
    BadTarget,
}

/// Why a written module gives no module.
#[derive(Clone, Copy)]
pub enum Stop {
    /// Want of memory.
    Memory,
    /// A rule is broken, which the token with this number shows, from 0.
    Broken { rule: Rule, token: usize },
}

impl From<Memory> for Stop {
    ghost use Rattle.std.specs.Prelude.{◌≡◌};
    ghost use Rattle.gl_verilog_elaborator.specs.declared.stop.Stop.TheVariants as stop;

    ghost from_gives = { λ _ e. e ≡ stop.Memory };

    fn from(_e: Memory) -> Stop {
        Stop::Memory
    }
}

impl From<AllocError> for Stop {
    ghost use Rattle.std.specs.Prelude.{◌≡◌};
    ghost use Rattle.gl_verilog_elaborator.specs.declared.stop.Stop.TheVariants as stop;

    ghost from_gives = { λ _ e. e ≡ stop.Memory };

    fn from(_e: AllocError) -> Stop {
        Stop::Memory
    }
}

impl<T: Drop> From<AllocFailed<T>> for Stop {
    ghost use Rattle.std.specs.Prelude.{◌≡◌};
    ghost use Rattle.gl_verilog_elaborator.specs.declared.stop.Stop.TheVariants as stop;

    ghost from_gives = { λ _ e. e ≡ stop.Memory };

    fn from(_e: AllocFailed<T>) -> Stop {
        Stop::Memory
    }
}
