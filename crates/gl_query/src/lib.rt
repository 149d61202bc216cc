//! Queries: their syntax trees, what they mean over lists of rows, and which are accepted. Their text
//! and the test of acceptance stand in crates above.
#![tactic(auto)]

pub mod columns;
pub mod fault;
pub mod kinds;
pub mod laws;
pub mod tree;

pub use columns::Sources;
pub use fault::QueryFault;
pub use gl_values::{Op, Sort};
pub use tree::{
    Agg, AggItem, AggItems, Expr, Frame, FrameAgg, FrameItem, FrameItems, Item, ItemList,
    MOST_SLOTS, Measure, Name, Num, Nums, Pick, Query, Slots, Statement, TextBytes,
};
