//! The figures and the weight of a plan, which say what is printed of its circuit and whether it is within the limits.
//!
//! The tables themselves, and what keeps them, stand in gl_algebra. What builds circuits stands above.
#![tactic(auto)]

pub mod copied;
pub mod figured;
mod frames;
pub mod laws;
pub mod marks;
pub mod reach_laws;
pub mod roots;
pub mod spares;
pub mod ticks;
pub mod weighed;
mod weights;

pub use copied::cap;
pub use figured::{figures, places};
pub use gl_algebra::Spare;
pub use gl_root_gaps::TickGaps;
pub use marks::marks_of;
pub use roots::{figures_at, root_spare};
use thiserror::Error;
pub use ticks::{gap_alone, root_ticks, ticks_alone};
pub use weighed::{weigh, zeros};

/// What is printed of a query's circuit.
#[derive(Clone, Copy, PartialEq, Eq, Debug)]
pub struct Printed {
    /// The most cycles from the last beat to the end of the result.
    pub latency: u64,
    /// The fewest cycles from one beat to the next.
    pub gap: u32,
    /// The fewest cycles from a tick to the next one and to the end, where they are others.
    pub ticks: Option<u32>,
    /// The copies of bodies of windows and groups.
    pub copies: u64,
}

/// A limit that a plan passes.
#[derive(Clone, Copy, PartialEq, Eq, Debug, Drop, Error)]
pub enum Limit {
    /// A figure of this node, the first such by number, would reach 2^32.
    #[error("a figure of node {node} reaches 2^32")]
    Latency { node: usize },
    /// The weight with the output's part passes 262,144; one of 2^62 or more is given as 2^62.
    #[error("the weight {weight} passes 262144")]
    Nodes { weight: u64 },
}
