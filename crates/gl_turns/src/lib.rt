//! Two streams in the order in which they came: sides that take turns. One side waits until the
//! right side's rows of each beat come behind the left side's, so no row waits for another.
//!
//! Here belong the block and the beats that bring the rows of a wire. What that order is says
//! gl_arrival.
#![tactic(auto)]

pub mod laws;
pub mod turns;

pub use turns::{Turns, put_turn};
