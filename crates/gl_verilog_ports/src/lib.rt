//! Whether the ports of a module are those by which it takes the beats of a schema and shows a result, and which one is not.
//!
//! Here belongs what is asked of ports alone, of any module. Where a text shows a fault of its ports belongs to gl_top_inputs;
//! what is put on the ports and what they show stands in gl_schema.
#![tactic(auto)]

pub mod fitting;
pub mod laws;
pub mod names;

pub use fitting::{Misfit, Ports, find_ports, ports_of, shows_column};
pub use names::{is_in_column, is_in_parameter, is_in_valid};
