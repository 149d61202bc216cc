//! Groups of the rows of a stream by a key, over a copy of a body for each slot: the front, which tells each copy its rows and its ends,
//! and the back, which joins what the copies give with the key in front. Here belongs what a group is in a circuit; what a body makes of
//! a group's rows does not, nor the laws that windows and groups share.
#![tactic(auto)]

pub mod finding;
pub mod grouping;
pub mod lane;
pub mod laning;
pub mod laws;
mod notes;

pub use grouping::Grouping;
pub use laning::Lane;
