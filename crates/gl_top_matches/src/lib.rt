//! The words of an accepted command line, taken apart by clap.
//!
//! Which words are accepted belongs to gl_top_forms. Here belong the commands as clap has them, and
//! what it finds in words that are accepted.
#![tactic(auto)]

pub mod commands;
pub mod taken;

pub use taken::take;
