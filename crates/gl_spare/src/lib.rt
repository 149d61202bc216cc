//! Windows with spare copies: further copies of the body let new tuples come while a window that has ended is still at work.
//!
//! The front and the back serve one stream after reset, so nothing stands above such windows but the output.
#![tactic(auto)]

pub mod late;
pub mod laws;
pub mod rotation;

pub use rotation::SpareRotation;
