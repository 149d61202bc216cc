//! Windows of each key of a stream's rows, over copies of a body: a slot for each key, each with copies for the windows that can be open
//! at once. The front tells each copy its rows and its ends, and the back joins what the copies give with the key in front. Here belongs
//! what windows of each key are in a circuit; what a body makes of a window's rows does not, nor what keys slots have (groups do), nor the
//! laws that windows and groups share.
#![tactic(auto)]

pub mod front;
pub mod laws;
pub mod partitioning;
pub mod parts;
pub mod slot;

pub use partitioning::Partitioning;
