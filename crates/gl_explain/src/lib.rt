//! A statement and its plan as text: the canonical text of the statement, a line for each node with its
//! words and its figures, the root, and the root's spare copies, or the gaps of its ticks, where it has some.
//!
//! It works for every accepted statement.
#![tactic(auto)]

pub mod explaining;
pub mod laws;
pub mod lines;

pub use explaining::explain;
