//! The tokens of the query language.
#![tactic(auto)]

pub mod lexing;
pub mod sorts;
pub mod token;
pub mod words;

pub use lexing::lexemes;
pub use token::{Fold, Join, Lexeme, Plain, Spelling, Token, Word};
