//! What is kept for each slot of a lane whose streams end together: how many rows came, rings of
//! earlier rows, and states. All frames of each key stand on them.
//!
//! Here belongs what frames with PARTITION keep for a slot. What finds the slot of a key does not.
#![tactic(auto)]

pub mod average;
pub mod count;
pub mod counts;
pub mod doubling;
pub mod extreme;
pub mod items;
pub mod keyed;
pub mod lag;
pub mod last;
pub mod laws;
pub mod recent;
pub mod rows;
pub mod stages;
pub mod sum;
pub mod sums;

pub use count::put_slot_count;
pub use items::{SlotInput, put_slot_items};
pub use keyed::{KeyFrames, Partition, put_key_frames};
pub use lag::put_slot_lagged;
pub use rows::SlotRows;
pub use sum::put_slot_sum;
