//! The lane of the first keys of a stream, for keys of many bits and many groups: a tree, of which
//! each level looks at two bits of the key and has a memory with a word for each node.
//!
//! Here belongs what finds the slot of such a key for frames. What is kept for a slot does not.
#![tactic(auto)]

pub mod lane;
pub mod laws;
pub mod level;
pub mod looking;
pub mod parts;
pub mod writing;

pub use lane::put_tree_lane;
