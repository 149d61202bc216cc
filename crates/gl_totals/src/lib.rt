//! Totals of streams: one row with each end, of counts, sums, extremes, averages and weighted sums side by side. Here belongs what keeps
//! the open stream. What each total means does not, nor how a quotient is taken.
#![tactic(auto)]

pub mod average;
pub mod delay;
pub mod extreme;
pub mod fold;
pub mod laws;
pub mod rows;
pub mod sign;
pub mod sum;
pub mod table;
pub mod total;
pub mod totals;
pub mod weighted;

pub use table::Table;
pub use totals::{Totals, put_totals};
