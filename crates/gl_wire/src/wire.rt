//! Wires.

use gl_net::{Bit, Buses};

/// A line that is 1 with each tuple, a line that is 1 with each end, and the columns of the tuple.
#[derive(Drop)]
pub struct Wire {
    /// 1 in a cycle with a tuple.
    pub valid: Bit,
    /// 1 in a cycle in which a stream ends.
    pub eos: Bit,
    /// The columns of the tuple, one bus for each.
    pub columns: Buses,
}
