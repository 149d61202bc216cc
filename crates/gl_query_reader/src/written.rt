//! Statements as they are written: trees that keep the tokens that they were read from, except those
//! that every tree of their form has, and the places that a statement keeps.

use crate::joins::Joining;
use crate::written_functions::{WrittenAgg, WrittenOver};
use gl_bits::Listed;
use gl_query::{Measure, Name, Num, Op, TextBytes};
use gl_query_tokens::Spelling;
use gl_values::Kind;

/// The items of a select, as written.
pub type WrittenItems = Listed<WrittenItem>;

/// An expression as it is written.
#[derive(Drop)]
pub enum WrittenExpr {
    /// The name of a column.
    Column(Name),
    /// A number without a sign.
    Number(Num),
    /// A number behind a minus sign, with the place of the sign.
    Minus {
        /// The place of the sign.
        at: u64,
        /// The number behind it.
        number: Num,
    },
    /// A parameter, with the place of its colon.
    Parameter {
        /// The place of the colon.
        at: u64,
        /// The name behind it.
        name: Name,
    },
    /// A text literal.
    Letters {
        /// The bytes between the quotes.
        text: TextBytes,
        /// The place of the opening quote.
        at: u64,
    },
    /// An expression in brackets.
    Brackets {
        /// The place of the opening bracket.
        at: u64,
        /// What stands in the brackets.
        inner: Box<WrittenExpr>,
    },
    /// CAST, its bracket, and the word that names the kind.
    Cast {
        /// The place of CAST.
        at: u64,
        /// The place of the opening bracket.
        open: u64,
        /// The expression that is cast.
        inner: Box<WrittenExpr>,
        /// The word behind AS.
        word: Name,
        /// The kind that the word names.
        kind: Kind,
    },
    /// `~` before an expression.
    Flip {
        /// The place of `~`.
        at: u64,
        /// The expression behind it.
        inner: Box<WrittenExpr>,
    },
    /// NOT before an expression.
    Not {
        /// The place of NOT.
        at: u64,
        /// The expression behind it.
        inner: Box<WrittenExpr>,
    },
    /// Two expressions with an operator between them.
    Binary {
        /// The operator.
        op: Op,
        /// The place of the operator.
        at: u64,
        /// The expression before it.
        left: Box<WrittenExpr>,
        /// The expression behind it.
        right: Box<WrittenExpr>,
    },
}

/// An item of a select as it is written.
#[derive(Drop)]
pub enum WrittenItem {
    /// A column under its own name.
    Bare(Name),
    /// An expression under a name.
    Named { expr: WrittenExpr, name: Name },
    /// An aggregate under a name.
    Total { agg: WrittenAgg, name: Name },
    /// A function with OVER under a name.
    Framed { over: WrittenOver, name: Name },
}

/// What a select picks, as written.
#[derive(Drop)]
pub enum WrittenPick {
    /// `*`
    All { at: u64 },
    /// A list of items.
    Items(WrittenItems),
}

/// A window: the place of SIZE, its two numbers, and what they count.
#[derive(Clone, Copy)]
pub struct Window {
    /// The place of SIZE.
    pub at: u64,
    /// The number behind SIZE.
    pub size: Num,
    /// The number behind ADVANCE.
    pub advance: Num,
    /// What both numbers count: tuples or ticks.
    pub measure: Measure,
}

/// A window that counts rows: the place of SIZE, and its two numbers.
#[derive(Clone, Copy)]
pub struct RowWindow {
    /// The place of SIZE.
    pub at: u64,
    /// The number behind SIZE.
    pub size: Num,
    /// The number behind ADVANCE.
    pub advance: Num,
}

/// Where the rows of a frame begin.
#[derive(Clone, Copy)]
pub enum Bound {
    /// So many rows before the row itself.
    Number(Num),
    /// UNBOUNDED: at the first row.
    Unbounded(Spelling),
}

/// `ROWS BETWEEN bound PRECEDING`
#[derive(Clone, Copy)]
pub struct BetweenFront {
    /// How ROWS is spelled.
    pub rows: Spelling,
    /// How BETWEEN is spelled.
    pub between: Spelling,
    /// Where the rows begin.
    pub bound: Bound,
    /// How PRECEDING is spelled.
    pub preceding: Spelling,
}

/// The rows of a frame as they are written.
#[derive(Clone, Copy)]
pub enum FrameRows {
    /// `ROWS bound PRECEDING`
    Short {
        /// How ROWS is spelled.
        rows: Spelling,
        /// Where the rows begin.
        bound: Bound,
        /// How PRECEDING is spelled.
        preceding: Spelling,
    },
    /// `ROWS BETWEEN bound PRECEDING AND CURRENT ROW`
    Between {
        /// What stands before AND.
        front: BetweenFront,
        /// The place of AND.
        and_at: u64,
        /// How CURRENT is spelled.
        current: Spelling,
        /// How ROW is spelled.
        row: Spelling,
    },
}

/// The place of BY, the name behind it, and the number of groups.
#[derive(Drop)]
pub struct Grouping {
    /// The place of BY.
    pub at: u64,
    /// The name behind BY.
    pub key: Name,
    /// The number behind GROUPS.
    pub groups: Num,
}

/// `PARTITION BY name GROUPS number`
#[derive(Drop)]
pub struct Part {
    /// How PARTITION is spelled.
    pub word: Spelling,
    /// BY, the name behind it, and the number of groups.
    pub grouping: Grouping,
}

/// A select without its source.
#[derive(Drop)]
pub struct WrittenSelect {
    /// What is picked: `*` or items.
    pub pick: WrittenPick,
    /// The window behind the source, where there is one.
    pub window: Option<Window>,
    /// The condition behind WHERE, where there is one.
    pub filter: Option<WrittenExpr>,
    /// What stands behind GROUP, where there is something.
    pub grouping: Option<Grouping>,
}

/// What an EACH goes over.
#[derive(Drop)]
pub enum Over {
    /// Windows of tuples or of time.
    Windows(Window),
    /// Groups, or the windows of each group.
    Groups(Grouping, Option<RowWindow>),
}

/// An EACH without its source and its body; the body's bracket is at `open`.
#[derive(Drop)]
pub struct WrittenEach {
    /// The place of EACH.
    pub at: u64,
    /// The variable.
    pub var: Name,
    /// The windows or groups that it goes over.
    pub over: Over,
    /// The place of the body's opening bracket.
    pub open: u64,
}

/// A query as it is written. A source is a `Stream` or in `Brackets`, a body is in brackets.
#[derive(Drop)]
pub enum WrittenQuery {
    /// A name, as a source alone.
    Stream(Name),
    /// A query in brackets.
    Brackets {
        /// The place of the opening bracket.
        at: u64,
        /// What stands in the brackets.
        inner: Box<WrittenQuery>,
    },
    /// A select over a source.
    Select {
        /// What it picks, and its window, filter and groups.
        select: WrittenSelect,
        /// What stands behind FROM.
        source: Box<WrittenQuery>,
    },
    /// An EACH over a source with a body.
    Each {
        /// The variable and what it goes over.
        each: WrittenEach,
        /// What stands behind IN.
        source: Box<WrittenQuery>,
        /// What stands in the body's brackets.
        body: Box<WrittenQuery>,
    },
    /// Two sources with ASOF between them, as a source alone.
    AsOf {
        /// How ASOF is spelled.
        word: Spelling,
        /// The key behind BY, and of how many keys rows are kept.
        grouping: Grouping,
        /// The source before it.
        left: Box<WrittenQuery>,
        /// The source behind it.
        right: Box<WrittenQuery>,
    },
    /// Two queries with UNION, UNION BY ARRIVAL or CONCAT between them.
    Join {
        /// Which of the three it is.
        join: Joining,
        /// The place of UNION or CONCAT.
        at: u64,
        /// The query before it.
        left: Box<WrittenQuery>,
        /// The query behind it.
        right: Box<WrittenQuery>,
    },
}

/// A statement as it is written, and whether it has its final `;`.
#[derive(Drop)]
pub struct WrittenStatement {
    /// The query.
    pub query: WrittenQuery,
    /// The name behind INTO.
    pub name: Name,
    /// Whether a `;` ends the statement.
    pub closed: bool,
}
