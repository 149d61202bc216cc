//! Windows of time: over one stream tuples come as close as each copy of the body takes them, and ticks farther apart.
//!
//! That is said of one stream after reset, so what stands above such windows takes rows one by one, or is the output. Over all
//! beats they serve as those of gl_windows do.
#![tactic(auto)]

pub mod laws;
pub mod rotation;

pub use rotation::RootTicked;
