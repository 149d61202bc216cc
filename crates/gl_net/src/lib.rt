//! Netlists of clocked logic, the runs that they allow, and the builder that makes them.
//!
//! Here belongs what a node is, what every run of a netlist obeys, and what one call of the builder
//! adds to both. A block of several nodes that has a purpose belongs to the crates above, and so do
//! queries, Verilog and any text.
#![tactic(auto)]

pub mod builder;
pub mod counting;
pub mod laws;
pub mod netlist;
pub mod node;
pub mod note;

pub use builder::NetBuilder;
pub use counting::{Cost, cost_of};
pub use netlist::Netlist;
pub use node::{BinaryOp, Bit, Bus, Buses, Direction, MemoryDrive, Node, Port, Store};
pub use note::{Note, Noted};
