//! Several queries on one module: from their text to the text of the module that is right for each of them,
//! and from that text to the lines of each.
//!
//! Here belongs what joins the statements' side, the hardware's and running where several stand on one module. One
//! statement is compiled in gl_compiler; the loop over the cycles stands in gl_runner.
#![tactic(auto)]

pub mod below;
pub mod compiling;
pub mod executing;
mod faces;
mod rooting;
pub mod running;

pub use compiling::{Many, compile_many};
pub use executing::execute_many;
pub use running::run_many;
