//! Where the reader stands in a function with OVER.

use crate::written::{BetweenFront, Bound, FrameRows, Part, WrittenExpr, WrittenItems};
use crate::written_functions::{WrittenHead, WrittenOver, WrittenOverAgg};
use gl_query::Num;
use gl_query_tokens::Spelling;

/// A function whose name is no keyword.
#[derive(Clone, Copy)]
pub enum Call {
    /// LAG
    Lag,
    /// LAST_VALUE
    LastValue,
}

/// How far the rows of a frame were read, in the bracket behind OVER.
#[derive(Clone, Copy)]
pub enum RowsSoFar {
    /// ROWS is wanted.
    WantRows,
    /// A bound or BETWEEN is wanted behind ROWS.
    WantBound {
        /// How ROWS is spelled.
        rows: Spelling,
    },
    /// PRECEDING is wanted behind ROWS and a bound.
    WantPreceding {
        /// How ROWS is spelled.
        rows: Spelling,
        /// Where the rows begin.
        bound: Bound,
    },
    /// A bound is wanted behind ROWS BETWEEN.
    WantFirst {
        /// How ROWS is spelled.
        rows: Spelling,
        /// How BETWEEN is spelled.
        between: Spelling,
    },
    /// PRECEDING is wanted behind ROWS BETWEEN and a bound.
    WantFirstPreceding {
        /// How ROWS is spelled.
        rows: Spelling,
        /// How BETWEEN is spelled.
        between: Spelling,
        /// Where the rows begin.
        bound: Bound,
    },
    /// AND is wanted.
    WantAnd {
        /// What stands before AND.
        front: BetweenFront,
    },
    /// CURRENT is wanted behind AND.
    WantCurrent {
        /// What stands before AND.
        front: BetweenFront,
        /// The place of AND.
        and_at: u64,
    },
    /// ROW is wanted behind CURRENT.
    WantRow {
        /// What stands before AND.
        front: BetweenFront,
        /// The place of AND.
        and_at: u64,
        /// How CURRENT is spelled.
        current: Spelling,
    },
    /// `)` is wanted.
    WantClose {
        /// The rows, where there are some.
        rows: Option<FrameRows>,
    },
}

/// A LAG with its argument, and the items before it.
#[derive(Drop)]
pub struct LagHead {
    /// The items before it.
    pub items: WrittenItems,
    /// How LAG is spelled.
    pub word: Spelling,
    /// The place of its opening bracket.
    pub open: u64,
    /// The argument.
    pub arg: WrittenExpr,
}

/// What stands before FILTER, and the items before it.
#[derive(Drop)]
pub struct FilterHead {
    /// The items before the function.
    pub items: WrittenItems,
    /// The function.
    pub agg: WrittenOverAgg,
    /// How FILTER is spelled.
    pub word: Spelling,
}

/// What stands before the bracket behind OVER, and the items before it.
#[derive(Drop)]
pub struct OverHead {
    /// The items before the function.
    pub items: WrittenItems,
    /// What stands before OVER.
    pub head: WrittenHead,
    /// How OVER is spelled.
    pub word: Spelling,
}

/// What stands before the BY of a PARTITION.
#[derive(Drop)]
pub struct PartHead {
    /// What stands before the bracket behind OVER.
    pub over: OverHead,
    /// The place of that bracket.
    pub open: u64,
    /// How PARTITION is spelled.
    pub word: Spelling,
}

/// A place in a function with OVER, and what may follow there.
#[derive(Drop)]
pub enum OverControl {
    /// `(` behind LAG or LAST_VALUE with a capital.
    WantCallOpen {
        /// The items before it.
        items: WrittenItems,
        /// Which of the two it is.
        call: Call,
        /// The place of its name.
        at: u64,
    },
    /// The number of rows behind the argument of LAG.
    WantBack(LagHead),
    /// `)` behind that number.
    WantLagClose {
        /// The LAG with its argument.
        head: LagHead,
        /// The number.
        back: Num,
    },
    /// OVER, or FILTER where one may stand.
    WantOver {
        /// The items before the function.
        items: WrittenItems,
        /// What stands before OVER.
        head: WrittenHead,
    },
    /// `(` behind FILTER.
    WantFilterOpen(FilterHead),
    /// WHERE in the bracket behind FILTER.
    WantFilterWhere {
        /// What stands before the bracket.
        head: FilterHead,
        /// The place of the bracket.
        open: u64,
    },
    /// `(` behind OVER.
    WantOverOpen(OverHead),
    /// PARTITION, or what stands behind it, in the bracket behind OVER.
    WantPart {
        /// What stands before the bracket.
        head: OverHead,
        /// The place of the bracket.
        open: u64,
    },
    /// BY behind PARTITION.
    WantPartBy(PartHead),
    /// In the bracket behind OVER, behind PARTITION where there is one.
    InOver {
        /// What stands before the bracket.
        head: OverHead,
        /// The place of the bracket.
        open: u64,
        /// PARTITION, where there is one.
        part: Option<Part>,
        /// How far the rows were read.
        rows: RowsSoFar,
    },
    /// AS behind the bracket of OVER.
    WantOverAs {
        /// The items before the function.
        items: WrittenItems,
        /// The function.
        over: WrittenOver,
    },
}
