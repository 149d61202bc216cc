//! Whether a module is valid, whether it can run, and an order of its assignments. Here belong tests
//! of a module with its names resolved; which fault a text has stands elsewhere.
#![tactic(auto)]

pub mod costing;
mod counting;
mod homes;
mod order;
mod runnable;
mod valid;
mod widths;

pub use costing::{Cost, cost_of};
pub use order::order_of;
pub use runnable::is_runnable;
pub use valid::is_valid;
