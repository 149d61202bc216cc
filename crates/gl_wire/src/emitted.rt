//! What a block gives.

use crate::wire::Wire;
use gl_net::Bit;

/// The lines of a circuit that tell of faults, where it has such.
#[derive(Clone, Copy)]
pub struct Faults {
    /// 1 where a queue was passed.
    pub passed: Option<Bit>,
    /// 1 where a further group came.
    pub further: Option<Bit>,
}

/// The wire of a circuit, and its lines.
#[derive(Drop)]
pub struct Emitted {
    /// What it gives.
    pub wire: Wire,
    /// What tells of its faults.
    pub faults: Faults,
}
