//! The test of acceptance: a statement is checked against a schema, or its first fault is answered. What
//! is accepted, and in which order the rules are judged, is said in gl_query.
#![tactic(auto)]

pub mod checking;
mod expressions;
mod frames;
mod items;
mod joins;
mod paces;
mod queries;
mod rules;

pub use checking::{Checked, check};
