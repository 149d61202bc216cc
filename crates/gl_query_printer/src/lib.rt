//! The canonical text of a statement.
#![tactic(auto)]

mod expressions;
mod items;
pub mod laws;
mod over_items;
pub mod printing;
mod queries;
mod text;
mod tokens;

pub use printing::print_statement;
