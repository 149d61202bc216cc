//! The plan of an accepted statement, or the joint plan of several, with all that is known before a gate exists: the figures of each
//! node and what is printed of the whole, or the limit that the plan passes.
//!
//! Here belongs what every command asks of a plan before it goes on. How plans are made
//! stands in gl_elaborate, how they are figured and weighed in gl_figures.
#![tactic(auto)]

pub mod laws;
pub mod planning;
mod printed;
pub mod several;
pub mod several_laws;
mod weights;

pub use laws::plans_pass_one_limit;
pub use planning::{PlanFault, Planned, plan_statement};
pub use several::{PlannedSeveral, plan_several};
pub use several_laws::{several_pass_one_limit, worked_several};
