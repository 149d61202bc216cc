//! Frames of each key on wires: what a wire serves that leaves rows of further keys out and tells
//! of them, and what a lane owes that has a slot for each of the first keys.
//!
//! Here belongs what is said of wires and lanes alone. What finds the slot of a key does not.
#![tactic(auto)]

pub mod laws;
