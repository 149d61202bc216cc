//! A reference evaluator: it answers one result of a query over lists of rows, as plainly as the
//! meaning of queries is defined. What is fast, or of a circuit, stands elsewhere.
#![tactic(auto)]

pub mod aggregates;
pub mod answers;
pub mod arrivals;
pub mod columns;
pub mod frames;
pub mod joins;
pub mod partitions;
pub mod placed;
pub mod results;
pub mod rows;
pub mod values;
pub mod windows;
pub mod worked;

pub use answers::Answer;
pub use columns::{Clock, Source};
pub use results::{Brought, Times, evaluate};
pub use rows::Fault;
