//! The lane of the first keys of a stream, for keys of few bits: the slot of a key is read in a
//! memory. There is a word for each key, and a word for each slot.
//!
//! Here belongs what finds the slot of such a key for frames. What is kept for a slot does not.
#![tactic(auto)]

pub mod lane;
pub mod memories;
pub mod passing;
pub mod telling;

pub use lane::put_map_lane;
