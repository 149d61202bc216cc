//! Wires: what they carry, when a block between wires serves a meaning, and the laws by which blocks are put together. Here belongs
//! what holds of every wire and every block: registers behind wires, gates on lines, the shapes of blocks; and what copies of a body
//! between a front and a back serve, whatever the body. What an operator does with rows does not, nor what a window or a group is.
#![tactic(auto)]

pub mod copy_laws;
pub mod emitted;
pub mod faults;
pub mod figures;
pub mod gates;
pub mod laws;
pub mod notes;
pub mod operator;
pub mod stages;
pub mod widths;
pub mod wire;

pub use emitted::{Emitted, Faults};
pub use faults::{both_faults, either_line};
pub use figures::{delayed_figures, settled_figures, total_figures};
pub use gates::{both, but_not, either, same};
pub use notes::{note_bit, note_bits, note_bus, note_buses, note_faults, note_stage, note_wire};
pub use operator::Operator;
pub use stages::{later, later_all, later_bit, later_wire, pad, stage};
pub use widths::least_exponent;
pub use wire::Wire;
