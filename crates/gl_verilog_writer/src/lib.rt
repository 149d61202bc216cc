//! The text of a netlist: one flat Verilog module.
//!
//! Here belongs how a netlist is written and that the text means it. What a text means stands in
//! `gl_verilog`, what a netlist means in `gl_net`; no query and no file is known here.
#![tactic(auto)]

mod comments;
pub mod label;
mod lines;
mod names;
pub mod nodes;
pub mod pieces;
pub mod text;

pub use label::{Label, Labels};
pub use text::write_module;
