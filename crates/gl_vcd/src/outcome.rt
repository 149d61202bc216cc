//! What reading a dump comes to.

use crate::fault::VcdFault;

/// What reading a dump came to.
#[derive(Clone, Copy, PartialEq, Eq, Debug)]
pub enum Undump {
    /// The text was read to its end, and the lines that it shows were written.
    Done,
    /// The text is no dump; nothing was written.
    Fault(VcdFault),
    /// The sink failed.
    WriteFault,
    /// Want of memory; nothing was written.
    Memory,
}
