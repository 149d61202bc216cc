//! The as-of join: each row of the left side beside the last row of the right side that has its key
//! and came no later.
//!
//! Here belongs what is said of lists alone. Which queries are such joins is said in gl_query.
#![tactic(auto)]

pub mod laws;
