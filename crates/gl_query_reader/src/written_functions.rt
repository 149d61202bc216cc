//! Aggregates, and functions with OVER, as they are written.

use crate::written::{FrameRows, Part, WrittenExpr};
use gl_query::{Num, Nums};
use gl_query_tokens::{Fold, Spelling};

/// An aggregate as it is written: its keyword and its bracket, and what stands in it.
#[derive(Drop)]
pub enum WrittenAgg {
    /// COUNT, which has nothing in its bracket.
    Count {
        /// The place of the keyword.
        at: u64,
        /// The place of the opening bracket.
        open: u64,
    },
    /// SUM, MIN, MAX or AVG of an argument.
    Fold {
        /// Which of the four it is.
        fold: Fold,
        /// The place of the keyword.
        at: u64,
        /// The place of the opening bracket.
        open: u64,
        /// The argument.
        arg: WrittenExpr,
    },
    /// WSUM of an argument with weights.
    Wsum {
        /// The place of the keyword.
        at: u64,
        /// The place of the opening bracket.
        open: u64,
        /// The argument.
        arg: WrittenExpr,
        /// The weights in their order.
        weights: Nums,
    },
}

/// A function over the rows of a frame as it is written, without its FILTER and its OVER.
#[derive(Drop)]
pub enum WrittenOverAgg {
    /// COUNT, which has nothing in its bracket.
    Count {
        /// The place of the keyword.
        at: u64,
        /// The place of the opening bracket.
        open: u64,
    },
    /// SUM, MIN, MAX or AVG of an argument.
    Fold {
        /// Which of the four it is.
        fold: Fold,
        /// The place of the keyword.
        at: u64,
        /// The place of the opening bracket.
        open: u64,
        /// The argument.
        arg: WrittenExpr,
    },
    /// LAST_VALUE of an argument.
    LastValue {
        /// How LAST_VALUE is spelled.
        word: Spelling,
        /// The place of the opening bracket.
        open: u64,
        /// The argument.
        arg: WrittenExpr,
    },
}

/// FILTER as it is written.
#[derive(Drop)]
pub struct WrittenFilter {
    /// How FILTER is spelled.
    pub word: Spelling,
    /// The place of the opening bracket.
    pub open: u64,
    /// The condition behind WHERE.
    pub cond: WrittenExpr,
}

/// What stands before OVER, as it is written.
#[derive(Drop)]
pub enum WrittenHead {
    /// LAG of an argument.
    Lag {
        /// How LAG is spelled.
        word: Spelling,
        /// The place of the opening bracket.
        open: u64,
        /// The argument.
        arg: WrittenExpr,
        /// The number of rows behind the argument, where it stands.
        back: Option<Num>,
    },
    /// A function over the rows of a frame.
    Ranged {
        /// The function with its argument.
        agg: WrittenOverAgg,
        /// Its FILTER, where it has one.
        filter: Option<WrittenFilter>,
    },
}

/// A function with OVER as it is written.
#[derive(Drop)]
pub struct WrittenOver {
    /// What stands before OVER.
    pub head: WrittenHead,
    /// How OVER is spelled.
    pub word: Spelling,
    /// The place of the bracket behind OVER.
    pub open: u64,
    /// PARTITION in that bracket, where there is one.
    pub part: Option<Part>,
    /// The rows in that bracket, where there are some.
    pub rows: Option<FrameRows>,
}
