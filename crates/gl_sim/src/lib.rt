//! Runs a module cycle by cycle, so that each run in whatever order of events is followed. Here
//! belongs what computes a run; what runs are stands in `gl_verilog`, orders in `gl_verilog`.
#![tactic(auto)]

pub mod cycle;
pub mod draw;
pub mod edge;
pub mod laws;
pub mod order;
pub mod room;
pub mod simulator;
pub mod update;

pub use simulator::Sim;
pub use update::Update;
