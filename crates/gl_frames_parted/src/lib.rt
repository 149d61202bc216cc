//! Frames of each key, for a node of a plan: over the columns that they ask for, and in the cycles
//! that the plan counts.
//!
//! Here belongs what joins a node's key and items to the circuit of slots. What is kept for a slot
//! does not.
#![tactic(auto)]

pub mod laws;
pub mod look_up;
pub mod parted;
pub mod picked;
pub mod places;

pub use parted::put_parted_frames;
