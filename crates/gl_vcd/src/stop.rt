//! Why reading stops before the end of a text.

ghost use Rattle.std.specs.Prelude.{◌≡◌};
ghost use Rattle.gl_vcd.specs.declared.stop.Stop.TheVariants as stop;

use crate::fault::VcdFault;
use std::alloc::AllocFailed;

/// A fault of the text, or want of memory.
#[derive(Clone, Copy, PartialEq, Eq, Debug)]
pub enum Stop {
    /// The text is no dump.
    Fault(VcdFault),
    /// There is no memory left.
    Memory,
}

impl<T: Drop> From<AllocFailed<T>> for Stop {
    ghost from_gives = { λ _ e. e ≡ stop.Memory };

    fn from(_e: AllocFailed<T>) -> Stop {
        Stop::Memory
    }
}
