//! The load: a fixed schema and query, N tuples, and what the query's Verilog text gives over
//! them, in five lines.
//!
//! Here belongs what the load is and what it comes to. How queries are compiled and texts run stands
//! below (`gl_compiler`); the command's words stand in `gl_top_forms`, and its status above (`gl_top`).
#![tactic(auto)]

pub mod loading;
mod summary;
pub mod tally;
mod text_sink;
pub mod texts;
mod tuples;

pub use loading::{Loaded, load};
pub use texts::{query_text, schema_text};
