//! What stands around a module that runs: what its input ports carry of the beats of a file, cycle by
//! cycle, and which of its ports show a result; and the text of a netlist, of which holds over beats what holds of the netlist.
//!
//! Here belongs what joins the ports of a module, by their names, to the streams and columns of a
//! schema. How a module is run and its lines written belongs to gl_runner.
#![tactic(auto)]

pub mod bench;
pub mod emission_laws;
pub mod emitting;
pub mod laws;
pub mod pins;

pub use bench::{pins_at, set_beat, set_reset};
pub use emission_laws::{outputs_bind_nothing, worked_views};
pub use emitting::{Emitted, emit};
pub use pins::{Pin, Shows, number_of, shows_at, shows_of};
