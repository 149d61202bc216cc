//! The Verilog subset: when a text has a module, what the runs of a module are, and every order of
//! its events.
//!
//! A run of two phases is the plain meaning. The orders of events, their schedules and their rest are
//! compared with it by laws (`laws`, `orders`); an assignment is evaluated and its net updated in one
//! event, and a block is executed in one. What a run may start from stands here too.
#![tactic(auto)]

pub mod bank;
pub mod evaluation;
pub mod laws;
pub mod module;
pub mod orders;
pub mod start;

pub use bank::Bank;
pub use evaluation::{evaluate, mask};
pub use module::{Assignment, BinaryOp, Declaration, Expr, Kind, Module, Statement};
pub use start::Start;

/// The most bits of a word.
pub const MOST_WIDTH: u8 = 128;
