//! The text of a query, or of several parted by `;`, over a schema: to accepted statements, or to the first fault.
//!
//! Here belongs what joins the reader and the rules of acceptance. What a text says stands in gl_query_reader,
//! what is accepted in gl_query.
#![tactic(auto)]

mod accepting;
pub mod judging;
pub mod laws;
pub mod list_laws;
mod pieces;
pub mod reading;

pub use judging::judge_query;
pub use laws::{accepted_texts_have_columns, texts_have_one_fault};
pub use reading::{Statements, read_statements};
