//! The reader of statements: the text of a query to its tree, or its first fault. The canonical text of a
//! statement is gl_query_printer's, and the tests are gl_query_tests'.
#![tactic(auto)]

mod aggregates;
mod call_steps;
mod expressions;
mod following;
mod frames;
mod groups;
mod item_meaning;
mod items;
mod joins;
mod keeping;
pub mod laws;
mod limits;
mod meaning;
mod mixed;
mod operators;
mod over_meaning;
mod over_state;
mod over_steps;
mod parsing;
mod parts;
mod queries;
mod row_steps;
mod select_meaning;
mod sources;
mod state;
mod terms;
pub mod text;
mod windows;
mod written;
mod written_functions;

pub use operators::{left_looseness, looseness};
pub use text::{read_lexemes, read_query};
