//! The rows of streams, and where what they come to is kept.

use gl_net::{Bit, Bus};

/// Where the state of the open stream is kept.
#[derive(Clone, Copy)]
pub enum Keep {
    /// In a register: streams come one after another.
    Register,
    /// In a word of a memory for each slot: streams of many slots come in turns. The lines are one cycle behind the columns.
    Slots {
        /// 1 in a cycle in which the stream of its slot begins.
        first: Bit,
        /// 1 where that of the next cycle's slot begins in that one.
        begins: Bit,
        /// The slot of the cycle.
        slot: Bus,
        /// The slot of the next cycle.
        next: Bus,
    },
}

/// The lines of streams, and where the state of the open one is kept.
#[derive(Clone, Copy)]
pub struct Rows {
    /// 1 in a cycle with a row.
    pub valid: Bit,
    /// 1 in a cycle with the end.
    pub eos: Bit,
    /// Where the state is kept.
    pub keep: Keep,
}
