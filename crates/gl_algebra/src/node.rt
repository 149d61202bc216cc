//! The nodes of a plan.

use crate::number::PlanId;
use gl_bits::{Listed, Word};
use gl_values::{Kind, Op};
use std::hash::Hash;

/// Kinds of columns, in order.
pub type Kinds = Listed<Kind>;

/// Operations, each of which makes one column, in order.
pub type Ops = Listed<ColOp>;

/// Operands, in order.
pub type Operands = Listed<Operand>;

/// Aggregates, each of which makes one column, in order.
pub type PlanAggs = Listed<PlanAgg>;

/// The weights of the values of a list, the oldest value's first.
pub type Weights = Listed<Word>;

/// Frames, each of which makes one column, in order.
pub type PlanFrames = Listed<PlanFrame>;

/// What an operation or an aggregate takes of a row.
#[derive(Clone, Copy, PartialEq, Eq, Hash, Debug)]
pub enum Operand {
    /// The column of this number, the first being 0.
    Column(u16),
    /// A number, and its kind, whose width is the word's.
    Literal(Word, Kind),
    /// The parameter of this number, the first of the schema's being 0, and its kind.
    Parameter(u8, Kind),
}

/// An operation on a row, which makes one column.
#[derive(Clone, Copy, PartialEq, Eq, Hash, Debug)]
pub enum ColOp {
    /// The other bit.
    Not(Operand),
    /// The other bits of a number.
    Flip(Operand),
    /// The value as another kind.
    Cast(Operand, Kind),
    /// Two operands under an operator.
    Binary(Op, Operand, Operand),
}

/// An aggregate over the rows of a list, which makes one column.
#[derive(Drop, PartialEq, Eq, Hash, Debug)]
pub enum PlanAgg {
    /// The number of rows.
    Count,
    /// The sum of the values.
    Sum(Operand),
    /// The least value.
    Min(Operand),
    /// The greatest value.
    Max(Operand),
    /// The sum by the number of rows.
    Avg(Operand),
    /// The sum of the values by their weights.
    Wsum(Operand, Weights),
}

/// A function over the rows of a frame.
#[derive(Clone, Copy, PartialEq, Eq, Hash, Debug)]
pub enum PlanFrameAgg {
    /// The number of rows.
    Count,
    /// The sum of the values.
    Sum(Operand),
    /// The least value.
    Min(Operand),
    /// The greatest value.
    Max(Operand),
    /// The sum by the number of rows.
    Avg(Operand),
    /// The value of the last row; 0 over none.
    LastValue(Operand),
}

/// What an item of a node of frames makes of a row and of the rows before it.
#[derive(Clone, Copy, PartialEq, Eq, Hash, Debug)]
pub enum PlanFrame {
    /// An operand of the row itself.
    Own(Operand),
    /// LAG: the operand of the row so many rows before; 0 where there is none.
    Lag(Operand, u32),
    /// A function over the last rows up to the row itself.
    Over {
        /// The function.
        agg: PlanFrameAgg,
        /// The number of the column that is 1 in the rows that count; without one all count.
        filter: Option<u16>,
        /// How many rows before the row itself are in its frame; without a number all are.
        back: Option<u32>,
    },
}

/// The key by which the rows of a node of frames are parted.
#[derive(Clone, Copy, PartialEq, Eq, Hash, Debug)]
pub struct PlanKey {
    /// The number of the column.
    pub key: u8,
    /// How many groups are kept: the first ones that come.
    pub groups: u16,
}

/// A node of a plan. Where it speaks of another node, its child, it does so by that node's number.
#[derive(Drop, PartialEq, Eq, Hash, Debug)]
pub enum PlanNode {
    /// The rows of the schema's stream of this number, the first being 0, whose columns have these kinds.
    Stream(u8, Kinds),
    /// The rows that a body is given, whose columns have these kinds.
    Body(Kinds),
    /// Each row of the child with one more column for each operation.
    Compute {
        /// The number of the node that is read.
        child: PlanId,
        /// The operations, each over columns of the child.
        ops: Ops,
    },
    /// The rows of the child whose column of this number is 1.
    Select {
        /// The number of the node that is read.
        child: PlanId,
        /// The number of the column that is tested, which has one bit.
        column: u16,
    },
    /// Of each row of the child these values.
    Project {
        /// The number of the node that is read.
        child: PlanId,
        /// The columns and literals that make a row, in order.
        items: Operands,
    },
    /// Of each row of the child what the items make of it and of the rows before it. By a key these are rows of its group, and a row
    /// of a further group gives none.
    Frames {
        /// The number of the node that is read.
        child: PlanId,
        /// The key; without one all rows are of one group.
        by: Option<PlanKey>,
        /// The items, one for each column of the row.
        items: PlanFrames,
    },
    /// One row: the aggregates over all rows of the child.
    Aggregate {
        /// The number of the node that is read.
        child: PlanId,
        /// The aggregates, one for each column of the row.
        aggs: PlanAggs,
    },
    /// The rows of both children, in any order that keeps each child's.
    Union {
        /// The number of the node on the left.
        left: PlanId,
        /// The number of the node on the right.
        right: PlanId,
    },
    /// The rows of both children in the order in which they came; of one place the left child's first.
    Merge {
        /// The number of the node on the left.
        left: PlanId,
        /// The number of the node on the right.
        right: PlanId,
    },
    /// The rows of both children side by side.
    Beside {
        /// The number of the node on the left.
        left: PlanId,
        /// The number of the node on the right.
        right: PlanId,
    },
    /// What the body makes of each window of the source: of the `size` rows or fewer that begin at every row whose place is a
    /// multiple of `advance`.
    Window {
        /// The number of the node whose rows are parted.
        source: PlanId,
        /// The number of the body's root, a node over `Body`.
        body: PlanId,
        /// How many rows a window has at most.
        size: u32,
        /// How many rows lie between the beginnings of two windows.
        advance: u32,
    },
    /// What the body makes of each window of time of the source, a stream: of the rows whose time is within `size` ticks from
    /// every multiple of `advance` on, up to the number of all ticks.
    TimeWindow {
        /// The number of the node whose rows are parted.
        source: PlanId,
        /// The number of the body's root, a node over `Body`.
        body: PlanId,
        /// How many ticks a window lasts.
        size: u32,
        /// How many ticks lie between the beginnings of two windows.
        advance: u32,
    },
    /// What the body makes of each of the first `groups` groups of the source by the column `key`, the key first in each row.
    Group {
        /// The number of the node whose rows are parted.
        source: PlanId,
        /// The number of the body's root, a node over `Body`.
        body: PlanId,
        /// The number of the source's column by which rows are grouped.
        key: u8,
        /// How many groups are kept: the first ones that come.
        groups: u16,
    },
    /// What the body makes of each window of each of the first `groups` groups of the source by the column `key`: each group has
    /// windows of its own, of `size` rows or fewer, one from each of its rows on whose place in it is a multiple of `advance`. The
    /// key is first in each row.
    Partition {
        /// The number of the node whose rows are parted.
        source: PlanId,
        /// The number of the body's root, a node over `Body`.
        body: PlanId,
        /// The number of the source's column by which rows are grouped.
        key: u8,
        /// How many groups are kept: the first ones that come.
        groups: u16,
        /// How many rows of its group a window has at most.
        size: u32,
        /// How many rows of a group lie between the beginnings of two windows.
        advance: u32,
    },
}
