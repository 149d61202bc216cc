//! The plan of a statement: its source first, then its body, then its own nodes, each added to a plan that
//! has the node already where it is equal to an earlier one.
//!
//! Here belongs how queries become plans, their expressions levels of operations over numbered columns,
//! and that the plan is right for the query. What is true of any plan is said in gl_algebra.
#![tactic(auto)]

pub mod elaborating;
mod frames;
mod joins;
pub mod laws;
pub mod leveling;
mod levels;
mod rows;
mod sources;
pub mod term_laws;
pub mod terms;
mod totals;
pub mod trees;

pub use elaborating::elaborate;
pub use leveling::{are_flat, is_flat, level_over, ops_of, reduce_all, reduce_some};
pub use terms::tree_of;
pub use trees::{Tree, operand_of};
