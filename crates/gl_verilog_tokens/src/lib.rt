//! The tokens of a module's text, in order, with their places; modules as they are written, and why a text has none.
//! What tokens are is said in gl_verilog; no grammar belongs here.
#![tactic(auto)]

pub mod classes;
pub mod digits;
pub mod fault;
pub mod lexing;
pub mod pieces;
pub mod sizes;
pub mod standing;
pub mod token;
pub mod written;

pub use digits::{digit_of, small_number};
pub use fault::VerilogFault;
pub use lexing::lexemes;
pub use sizes::{tokens_before, tokens_of_range};
pub use token::{Keyword, Lexeme, Sign, Token, Word};
pub use written::{
    Direction, InfixOp, PrefixOp, WrittenExpr, WrittenItem, WrittenModule, WrittenPort,
    WrittenStatement,
};
