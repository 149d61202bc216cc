//! Kinds and their operators, and the definitions on lists that queries and plans share: slices,
//! groups, interleavings, totals, and how results are made of results.
//!
//! Here belongs what a kind is and what a result is, for queries, plans and circuits alike. What has a
//! name, a cycle or a wire does not, and no module of Verilog is known here.
#![tactic(auto)]

pub mod kind;
pub mod laws;
pub mod lists;
pub mod op;
pub mod totals;

pub use kind::{Family, Kind};
pub use lists::{Group, Table};
pub use op::{Op, Sort};
