//! Running a module over the beats of a file, and writing the lines of what it shows: to an end that comes
//! in time (`execute_module`), or to one that is waited for (`trace`); or of several results that it shows
//! (`execute_several`).
//!
//! Here belongs the loop over the cycles of a file, and where it ends. The lines of a cycle belong to
//! gl_tuples, what the ports carry to gl_testbench, one cycle of a module to gl_sim, and texts to gl_compiler.
#![tactic(auto)]

pub mod driving;
pub mod dumping;
pub mod executing;
pub mod faces;
mod following;
mod naming;
mod sampling;
pub mod several;
pub mod tracing;
pub mod watching;

pub use driving::Task;
pub use dumping::dump_module;
pub use executing::{Outcome, execute_module};
pub use faces::Face;
pub use several::execute_several;
pub use tracing::{Ending, trace};
