//! Plans: the nodes that a query is made of, when a node fits a plan, what a plan means over lists of rows, and its figures,
//! weights and bounds.
//!
//! Here belongs what is true of a plan whatever circuit it becomes. What is true of circuits belongs to the crates of wires, and how
//! queries become plans to the crates that make them.
#![tactic(auto)]

pub mod columns;
pub mod figures;
pub mod frames;
pub mod keys;
pub mod laws;
pub mod node;
pub mod number;
pub mod plan;
pub mod table;
mod wide;

pub use figures::{Figures, Spare};
pub use node::{
    ColOp, Kinds, Operand, Operands, Ops, PlanAgg, PlanAggs, PlanFrame, PlanFrameAgg, PlanFrames,
    PlanKey, PlanNode, Weights,
};
pub use number::PlanId;
pub use plan::Plan;
