//! The rows of many slots in a cycle, and what is known of the next one.

use gl_net::{Bit, Bus};

/// The rows of many slots whose streams end together.
#[derive(Clone, Copy)]
pub struct SlotRows {
    /// 1 in a cycle with a row.
    pub valid: Bit,
    /// 1 with the first row of the slot's stream.
    pub first: Bit,
    /// The slot of the row.
    pub slot: Bus,
    /// `first` of the next cycle.
    pub begins: Bit,
    /// `slot` of the next cycle.
    pub next: Bus,
}
