//! Lanes: one wire for the streams of many slots. Here belongs what a slot's share of it is, where its streams begin, of what a state
//! that is kept for each slot is the fold, with the laws of that, and the memory that keeps such states. What a total or a group is does not.
#![tactic(auto)]

pub mod laws;
pub mod memory;
pub mod table;

pub use memory::put_memory;
pub use table::TableOut;
