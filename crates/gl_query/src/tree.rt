//! Statements as trees, each name, number and operator with the byte where it stands in the text.

use gl_bits::Listed;
use gl_schema::NameText;
use gl_values::{Kind, Op};

/// The bytes of a text literal: 0 to 8 bytes 0x20 to 0x7E.
pub type TextBytes = Listed<u8>;

/// Numbers in a list, as the weights of `wsum`.
pub type Nums = Listed<Num>;

/// The items of a select without aggregates.
pub type ItemList = Listed<Item>;

/// The items of a select of aggregates.
pub type AggItems = Listed<AggItem>;

/// The items of a select of frames.
pub type FrameItems = Listed<FrameItem>;

/// A name, and where it stands.
#[derive(Drop, Debug)]
pub struct Name {
    /// Its bytes.
    pub text: NameText,
    /// The byte of the text where it begins.
    pub at: u64,
}

/// A number, and where it stands.
#[derive(Clone, Copy, PartialEq, Eq, Debug)]
pub struct Num {
    /// Its value.
    pub value: u128,
    /// The byte of the text where it begins.
    pub at: u64,
}

/// An expression over one row. The place of an operator, a NOT, a `~` or a CAST is that of its own token.
#[derive(Drop, Debug)]
pub enum Expr {
    /// A column of the row; or a parameter, whose name has a colon in front here. The place of a
    /// parameter is that of its colon.
    Column(Name),
    /// A number.
    Number(Num),
    /// A number behind a minus sign; its place is that of the sign.
    Minus(Num),
    /// A text literal.
    Letters {
        /// The bytes between the quotes, at most eight.
        text: TextBytes,
        /// The byte of the text where the opening quote stands.
        at: u64,
    },
    /// The other bit.
    Not {
        /// The bit that is inverted.
        arg: Box<Expr>,
        /// The byte of the text where NOT stands.
        at: u64,
    },
    /// The other bits of a number.
    Flip {
        /// The number whose bits are turned.
        arg: Box<Expr>,
        /// The byte of the text where `~` stands.
        at: u64,
    },
    /// The value as another kind.
    Cast {
        /// The value that is cast.
        arg: Box<Expr>,
        /// The kind that it is cast to.
        kind: Kind,
        /// The byte of the text where CAST stands.
        at: u64,
    },
    /// Two operands under an operator.
    Binary {
        /// The operator.
        op: Op,
        /// The operand on the left.
        left: Box<Expr>,
        /// The operand on the right.
        right: Box<Expr>,
        /// The byte of the text where the operator stands.
        at: u64,
    },
}

/// An aggregate over the rows of a list.
#[derive(Drop, Debug)]
pub enum Agg {
    /// The number of rows.
    Count { at: u64 },
    /// The sum of the values.
    Sum(Expr),
    /// The least value.
    Min(Expr),
    /// The greatest value.
    Max(Expr),
    /// The sum by the number of rows.
    Avg(Expr),
    /// The sum of the values by their weights, the oldest first.
    Wsum { arg: Expr, weights: Nums },
}

/// An item of a select: an expression under a name.
#[derive(Drop, Debug)]
pub struct Item {
    /// The expression.
    pub expr: Expr,
    /// The name of its column.
    pub name: Name,
}

/// An aggregate under a name.
#[derive(Drop, Debug)]
pub struct AggItem {
    /// The aggregate.
    pub agg: Agg,
    /// The name of its column.
    pub name: Name,
}

/// A function over the rows of a frame, as SQL's window functions are.
#[derive(Drop, Debug)]
pub enum FrameAgg {
    /// The number of rows.
    Count,
    /// The sum of the values.
    Sum(Expr),
    /// The least value.
    Min(Expr),
    /// The greatest value.
    Max(Expr),
    /// The sum by the number of rows.
    Avg(Expr),
    /// The value of the last row; 0 over none.
    LastValue(Expr),
}

/// What an item of a select of frames makes of a row and of the rows before it.
#[derive(Drop, Debug)]
pub enum Frame {
    /// An expression over the row itself.
    Own(Expr),
    /// LAG: the value of an earlier row; 0 where there is none.
    Lag {
        /// The value.
        arg: Expr,
        /// How many rows earlier: 1 to 65,535.
        back: Num,
        /// The byte of the text where LAG stands.
        at: u64,
    },
    /// A function over the last rows up to the row itself.
    Over {
        /// The function.
        agg: FrameAgg,
        /// FILTER: the condition of the rows of the frame that count; all count without one.
        filter: Option<Expr>,
        /// ROWS: how many rows before the row itself are in its frame, 0 to 65,535; all of them
        /// without a number.
        back: Option<Num>,
        /// The byte of the text where the function stands.
        at: u64,
    },
}

/// A frame under a name.
#[derive(Drop, Debug)]
pub struct FrameItem {
    /// The frame.
    pub frame: Frame,
    /// The name of its column.
    pub name: Name,
}

/// How many keys PARTITION may keep at most: GROUPS.
pub const MOST_SLOTS: u128 = 4_096;

/// A key, and of how many keys rows are kept: PARTITION, where the frames of a row are over the rows of
/// its key alone, and BY of ASOF.
#[derive(Drop, Debug)]
pub struct Slots {
    /// The column of the source that is the key.
    pub key: Name,
    /// How many keys are kept: the first ones that come.
    pub groups: Num,
}

/// What a select picks of its source's columns.
#[derive(Drop, Debug)]
pub enum Pick {
    /// Every column, as `*`.
    All,
    /// These items.
    Items(ItemList),
}

/// What the sizes and the advances of windows count.
#[derive(Clone, Copy, PartialEq, Eq, Debug)]
pub enum Measure {
    /// The rows of the source.
    Tuples,
    /// The ticks of the clock.
    Time,
}

/// A query: what it reads and what it makes of it.
#[derive(Drop, Debug)]
pub enum Query {
    /// A stream, or the variable of the body around.
    Read(Name),
    /// The rows that the filter keeps, each mapped to the items.
    Rows {
        /// The items of a row, or all columns.
        pick: Pick,
        /// The condition of the rows that are kept; all are kept without one.
        filter: Option<Expr>,
        /// What the rows are of.
        source: Box<Query>,
    },
    /// One row of aggregates over all rows.
    Total {
        /// The aggregates, one for each column.
        aggs: AggItems,
        /// What the rows are of.
        source: Box<Query>,
    },
    /// For each row that the filter keeps, what the items make of it and of the rows before it.
    Frames {
        /// The items of a row, one for each column.
        items: FrameItems,
        /// The condition of the rows that are kept; all are kept without one.
        filter: Option<Expr>,
        /// By which key the rows are parted, where they are.
        slots: Option<Slots>,
        /// What the rows are of.
        source: Box<Query>,
    },
    /// The body over each window of the source.
    Each {
        /// The name by which the body reads its rows.
        var: Name,
        /// The query whose rows are parted.
        source: Box<Query>,
        /// How many rows of the source a window has at most.
        size: Num,
        /// How many rows of the source lie between the beginnings of two windows.
        advance: Num,
        /// What is made of the rows that the variable stands for.
        body: Box<Query>,
        /// The place of EACH, or of SIZE where a select has the window.
        at: u64,
    },
    /// The body over each window of time of the source, a stream.
    EachTime {
        /// The name by which the body reads its rows.
        var: Name,
        /// The query whose rows are parted.
        source: Box<Query>,
        /// How many ticks a window lasts.
        size: Num,
        /// How many ticks lie between the beginnings of two windows.
        advance: Num,
        /// What is made of the rows that the variable stands for.
        body: Box<Query>,
        /// The place of EACH, or of SIZE where a select has the window.
        at: u64,
    },
    /// The body over each group of the source by a column, the key first in each row.
    PerGroup {
        /// The name by which the body reads its rows.
        var: Name,
        /// The query whose rows are parted.
        source: Box<Query>,
        /// The column of the source by which rows are grouped.
        key: Name,
        /// How many groups are kept: the first ones that come.
        groups: Num,
        /// What is made of the rows that the variable stands for.
        body: Box<Query>,
        /// The place of EACH, or of BY where a select has the groups.
        at: u64,
    },
    /// The body over each window of each group of the source by a column, the key first in each row.
    Partition {
        /// The name by which the body reads its rows.
        var: Name,
        /// The query whose rows are parted.
        source: Box<Query>,
        /// The column of the source by which rows are grouped.
        key: Name,
        /// How many groups are kept: the first ones that come.
        groups: Num,
        /// How many rows of its group a window has at most.
        size: Num,
        /// How many rows of a group lie between the beginnings of two windows.
        advance: Num,
        /// What is made of the rows that the variable stands for.
        body: Box<Query>,
        /// The place of EACH.
        at: u64,
    },
    /// The rows of both sides, in any order that keeps each side's.
    Union {
        /// The query on the left.
        left: Box<Query>,
        /// The query on the right.
        right: Box<Query>,
        /// The place of UNION.
        at: u64,
    },
    /// The rows of both sides in the order in which they came; of one place the left side's first.
    ByArrival {
        /// The query on the left.
        left: Box<Query>,
        /// The query on the right.
        right: Box<Query>,
        /// The place of UNION.
        at: u64,
    },
    /// Each row of the left side beside the last row of the right one that has its key and came no
    /// later.
    AsOf {
        /// The query on the left.
        left: Box<Query>,
        /// The query on the right.
        right: Box<Query>,
        /// The column of both sides that is the key, and of how many keys rows are kept.
        slots: Slots,
        /// The place of ASOF.
        at: u64,
    },
    /// The rows of both sides side by side.
    Concat {
        /// The query on the left.
        left: Box<Query>,
        /// The query on the right.
        right: Box<Query>,
        /// The place of CONCAT.
        at: u64,
    },
}

/// A query and the name of its result.
#[derive(Drop, Debug)]
pub struct Statement {
    /// The query.
    pub query: Query,
    /// The name behind INTO, under which the result is shown.
    pub name: Name,
}
