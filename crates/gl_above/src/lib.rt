//! Rows above what serves one stream: computed columns, a filter or picked columns behind a wire of which nothing is said but over one
//! stream.
#![tactic(auto)]

pub mod laws;
