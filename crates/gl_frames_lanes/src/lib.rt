//! The lane of the first keys of a stream: which slot has the key of a row, found for a row in each
//! cycle, with one end that ends the streams of all slots.
//!
//! Here belongs what finds the slot of a key for frames. What is kept for a slot does not.
#![tactic(auto)]

pub mod lane;

pub use lane::{KeyLane, Keys, put_key_lane};
