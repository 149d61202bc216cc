//! Sliding windows over the rows of a stream, or over its time, by rotation over copies of a body: the front, which tells each copy its rows and its ends,
//! and the back, which joins what the copies give. Here belongs what a window is in a circuit; what a body makes of a window's rows does
//! not, nor the laws that windows and groups share.
#![tactic(auto)]

pub mod front;
pub mod laws;
mod notes;
pub mod parts;
pub mod rotation;
pub mod times;
pub mod turns;

pub use rotation::Rotation;
pub use times::{Ticked, TimeRotation};
