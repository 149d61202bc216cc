//! From a plan to a netlist with the ports of an emitted module.
//!
//! Here belong the names of ports and the blocks that make a plan's netlist. What a netlist's runs
//! are stands in `gl_net`, what is right for a query in `gl_schema`; no text is written here.
//!
//! A value that is named and given back in the next line is one of which a goal speaks.
#![tactic(auto)]

mod apart;
mod arms;
mod behind;
pub mod below;
pub mod circuits;
mod direct;
pub mod groups;
pub mod lanes;
mod leaves;
pub mod machines;
pub mod many;
pub mod names;
mod notes;
mod output;
mod parted;
pub mod partitions;
pub mod parts;
pub mod plan;
pub mod put;
pub mod roots;
pub mod rows;
pub mod site;
pub mod spare_windows;
pub mod tables;
pub mod time_windows;
pub mod windows;

pub use circuits::{put_circuit, put_reached};
pub use many::{Root, wire_roots};
pub use names::{ResultNames, in_column_name, in_valid_name};
pub use plan::wire_plan;
pub use site::Site;
