//! Operators that go row by row: what a row becomes, one cycle later or at once. Here belongs what each operation of the language costs
//! and carries on buses. What gives one row for a stream does not, nor what an operation means.
#![tactic(auto)]

pub mod cast;
pub mod compute;
pub mod figures;
pub mod laws;
pub mod multiple;
pub mod operand;
pub mod operation;
pub mod project;
pub mod select;
pub mod shift;

pub use compute::{ComputeRow, put_compute};
pub use operand::{Scope, Source};
pub use project::{ProjectRow, put_project};
pub use select::{SelectRow, put_select};
