//! What is open of the text that was read so far.

use crate::joins::Joining;
use crate::over_state::{Call, FilterHead, PartHead};
use crate::written::{
    Grouping, Over, Window, WrittenExpr, WrittenItems, WrittenPick, WrittenQuery,
};
use crate::written_functions::{WrittenAgg, WrittenOver};
use gl_query::{Name, Op};
use gl_query_tokens::{Fold, Spelling};

/// What reads an as-of join.
#[derive(Drop)]
pub enum JoinBy {
    /// A select of these items.
    Select(WrittenPick),
    /// An EACH with its variable.
    Each { at: u64, var: Name },
}

/// What stands before the right side of ASOF.
#[derive(Drop)]
pub struct JoinHead {
    /// What reads the join.
    pub by: JoinBy,
    /// The left side.
    pub left: WrittenQuery,
    /// How ASOF is spelled.
    pub word: Spelling,
}

/// What reads a source.
#[derive(Drop)]
pub enum Head {
    /// A select of these items.
    Select(WrittenPick),
    /// An EACH with its variable.
    Each { at: u64, var: Name },
    /// ASOF, whose right side it is.
    Join(JoinHead),
}

/// A select with its source, and with its window where it has one.
#[derive(Drop)]
pub struct SelectFrom {
    /// What the select picks.
    pub pick: WrittenPick,
    /// What stands behind FROM.
    pub source: WrittenQuery,
    /// The window behind the source, where it has one.
    pub window: Option<Window>,
}

/// What has a window.
#[derive(Drop)]
pub enum WindowBy {
    /// A select of these items.
    Select(WrittenPick),
    /// An EACH with its variable.
    Each {
        /// The place of EACH.
        at: u64,
        /// The variable.
        var: Name,
    },
    /// An EACH with its variable and its groups.
    Groups {
        /// The place of EACH.
        at: u64,
        /// The variable.
        var: Name,
        /// The key of the groups, and how many there are.
        grouping: Grouping,
    },
}

/// What stands before a window.
#[derive(Drop)]
pub struct WindowHead {
    /// What has the window.
    pub head: WindowBy,
    /// The source that stands before the window.
    pub source: WrittenQuery,
}

/// What stands before the bracket of a body.
#[derive(Drop)]
pub struct BodyHead {
    /// The place of EACH.
    pub at: u64,
    /// The variable.
    pub var: Name,
    /// What stands behind IN.
    pub source: WrittenQuery,
    /// The windows or groups of the source.
    pub over: Over,
}

/// What stands before BY.
#[derive(Drop)]
pub enum GroupsHead {
    /// A select with GROUP.
    Select {
        /// The select, its source and its window.
        from: SelectFrom,
        /// Its condition, where it has WHERE.
        filter: Option<WrittenExpr>,
    },
    /// An EACH over groups.
    Each {
        /// The place of EACH.
        at: u64,
        /// The variable.
        var: Name,
        /// What stands behind IN.
        source: WrittenQuery,
    },
    /// A function with OVER and PARTITION.
    Over(PartHead),
    /// ASOF with both its sides.
    Join {
        /// What stands before the right side.
        head: JoinHead,
        /// The right side.
        right: WrittenQuery,
    },
}

/// A CAST with its expression.
#[derive(Drop)]
pub struct CastHead {
    /// The place of CAST.
    pub at: u64,
    /// The place of its opening bracket.
    pub open: u64,
    /// The expression that is cast.
    pub inner: WrittenExpr,
}

/// A WSUM with its argument, and the items before it.
#[derive(Drop)]
pub struct WsumHead {
    /// The items before the aggregate.
    pub items: WrittenItems,
    /// The place of WSUM.
    pub at: u64,
    /// The place of its opening bracket.
    pub open: u64,
    /// The argument.
    pub arg: WrittenExpr,
}

/// An expression, an aggregate or a function with OVER that waits for its name.
#[derive(Drop)]
pub enum Unnamed {
    /// An expression behind which AS was read.
    Expr(WrittenExpr),
    /// An aggregate behind which AS was read.
    Agg(WrittenAgg),
    /// A function with OVER behind which AS was read.
    Over(WrittenOver),
}

/// What is open around the place where the reader stands. The innermost frame stands last.
#[derive(Drop)]
pub enum Frame {
    // These wait for an expression.
    /// An operator that waits for its right operand.
    LeftOf {
        /// Its left operand.
        left: WrittenExpr,
        /// Which operator it is.
        op: Op,
        /// The place of the operator.
        at: u64,
    },
    /// `~`, whose operand follows.
    FlipOf {
        /// The place of `~`.
        at: u64,
    },
    /// A NOT that waits for its operand.
    NotOf {
        /// The place of NOT.
        at: u64,
    },
    /// A bracket around an expression.
    InBrackets {
        /// The place of the bracket.
        at: u64,
    },
    /// A CAST that waits for its expression.
    InCast {
        /// The place of CAST.
        at: u64,
        /// The place of its opening bracket.
        open: u64,
    },
    /// An item of a select that waits for its expression.
    InItem {
        /// The items before it.
        items: WrittenItems,
    },
    /// A SUM, MIN, MAX or AVG that waits for its argument.
    InFold {
        /// The items before it.
        items: WrittenItems,
        /// Which aggregate it is.
        fold: Fold,
        /// The place of its keyword.
        at: u64,
        /// The place of its opening bracket.
        open: u64,
    },
    /// A WSUM that waits for its argument.
    InWsum {
        /// The items before it.
        items: WrittenItems,
        /// The place of WSUM.
        at: u64,
        /// The place of its opening bracket.
        open: u64,
    },
    /// A LAG or LAST_VALUE that waits for its argument.
    InCall {
        /// The items before it.
        items: WrittenItems,
        /// Which of the two it is.
        call: Call,
        /// How its name is spelled.
        word: Spelling,
        /// The place of its opening bracket.
        open: u64,
    },
    /// A FILTER that waits for its condition.
    InCondition {
        /// What stands before its bracket.
        head: FilterHead,
        /// The place of the bracket.
        open: u64,
    },
    /// A select behind WHERE, which waits for its condition.
    InFilter(SelectFrom),
    // These wait for a query.
    /// A UNION, UNION BY ARRIVAL or CONCAT that waits for its right side.
    JoinOf {
        /// Its left side.
        left: WrittenQuery,
        /// Which of the three it is.
        join: Joining,
        /// The place of UNION or CONCAT.
        at: u64,
    },
    /// A bracket around a query.
    InQuery {
        /// The place of the bracket.
        at: u64,
    },
    /// A bracket around a query that is a source.
    InSource {
        /// What reads the source.
        head: Head,
        /// The place of the bracket.
        at: u64,
    },
    /// The bracket of a body.
    InBody {
        /// What stands before the bracket.
        head: BodyHead,
        /// The place of the bracket.
        open: u64,
    },
}
