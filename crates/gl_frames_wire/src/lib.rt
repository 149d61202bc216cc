//! Frames on wires and lanes: what is kept for slots whose streams may end together, rings of rows,
//! and what a wire serves that gives for each row what is made of its stream up to it. Circuits for
//! lags and sums of streams one after another stand here too.
//!
//! Here belongs what one column of frames takes. What finds the slot of a key does not.
#![tactic(auto)]

pub mod count;
pub mod lag;
pub mod laws;
pub mod reach;
pub mod ring;
pub mod sum;

pub use count::put_count;
pub use lag::put_lag;
pub use reach::Reach;
pub use ring::{put_ring, put_slot_ring};
pub use sum::put_frame_sum;
