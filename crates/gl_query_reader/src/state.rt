//! Where the reader stands: what may come next.

use crate::frames::{
    BodyHead, CastHead, GroupsHead, Head, JoinHead, SelectFrom, Unnamed, WindowHead, WsumHead,
};
use crate::over_state::OverControl;
use crate::written::{Window, WrittenExpr, WrittenItems, WrittenQuery};
use crate::written_functions::WrittenAgg;
use gl_query::{Name, Num, Nums};
use gl_query_tokens::Fold;
use gl_values::Kind;

/// A place in an expression, and what may follow there.
#[derive(Drop)]
pub enum ExprControl {
    /// An operand.
    WantOperand,
    /// The number behind a minus sign.
    WantMinus {
        /// The place of the minus sign.
        at: u64,
    },
    /// The name behind a colon.
    WantParameter {
        /// The place of the colon.
        at: u64,
    },
    /// An operator, or what may stand behind an expression.
    HaveExpr {
        /// The expression that was read last.
        last: WrittenExpr,
    },
    /// `(` behind CAST.
    WantCastOpen {
        /// The place of CAST.
        at: u64,
    },
    /// The word of a kind.
    WantKind(CastHead),
    /// `)` behind a kind.
    WantCastClose {
        /// The CAST with its expression.
        head: CastHead,
        /// The word that names the kind.
        word: Name,
        /// The kind that the word names.
        kind: Kind,
    },
}

/// A place in the items of a select, and what may follow there.
#[derive(Drop)]
pub enum ItemControl {
    /// An item behind these, or `*` where there is none.
    WantItem {
        /// The items that are complete.
        items: WrittenItems,
    },
    /// AS behind an aggregate, or what makes a function with OVER of it.
    HaveAgg {
        /// The items that are complete.
        items: WrittenItems,
        /// The aggregate that was read last.
        agg: WrittenAgg,
    },
    /// The name of an item.
    WantItemName {
        /// The items that are complete.
        items: WrittenItems,
        /// What waits for its name.
        unnamed: Unnamed,
    },
    /// `,` or FROM behind an item.
    HaveItem {
        /// The items that are complete.
        items: WrittenItems,
    },
    /// FROM behind `*`.
    WantFrom {
        /// The place of `*`.
        at: u64,
    },
}

/// A place in an aggregate, and what may follow there.
#[derive(Drop)]
pub enum AggControl {
    /// `(` behind COUNT.
    WantCountOpen {
        /// The items of the select before this one.
        items: WrittenItems,
        /// The place of the aggregate's keyword.
        at: u64,
    },
    /// `)` behind `COUNT (`.
    WantCountClose {
        /// The items of the select before this one.
        items: WrittenItems,
        /// The place of the aggregate's keyword.
        at: u64,
        /// The place of its opening bracket.
        open: u64,
    },
    /// `(` behind SUM, MIN, MAX or AVG.
    WantFoldOpen {
        /// The items of the select before this one.
        items: WrittenItems,
        /// Which aggregate it is.
        fold: Fold,
        /// The place of the aggregate's keyword.
        at: u64,
    },
    /// `(` behind WSUM.
    WantWsumOpen {
        /// The items of the select before this one.
        items: WrittenItems,
        /// The place of the aggregate's keyword.
        at: u64,
    },
    /// `[` behind the argument of WSUM.
    WantWeightsOpen(WsumHead),
    /// A weight.
    WantWeight {
        /// The WSUM with its argument.
        head: WsumHead,
        /// The weights that were read.
        weights: Nums,
    },
    /// `,` or `]` behind a weight.
    HaveWeight {
        /// The WSUM with its argument.
        head: WsumHead,
        /// The weights that were read.
        weights: Nums,
    },
    /// `)` behind the weights.
    WantWsumClose {
        /// The WSUM with its argument.
        head: WsumHead,
        /// The weights that were read.
        weights: Nums,
    },
}

/// A place at a source, and what may follow there.
#[derive(Drop)]
pub enum SourceControl {
    /// A name or `(`.
    WantSource {
        /// What reads the source.
        head: Head,
    },
    /// What may stand behind the source of a select.
    HaveSource(SelectFrom),
    /// `[` or BY behind the source of an EACH.
    HaveEachSource {
        /// The place of EACH.
        at: u64,
        /// The variable.
        var: Name,
        /// What stands behind IN.
        source: WrittenQuery,
    },
    /// BY behind the right side of ASOF.
    WantJoinBy {
        /// What stands before the right side.
        head: JoinHead,
        /// The right side.
        right: WrittenQuery,
    },
}

/// A place in a window, and what may follow there.
#[derive(Drop)]
pub enum WindowControl {
    /// SIZE.
    WantSize(WindowHead),
    /// The number behind SIZE.
    WantSizeNumber {
        /// What stands before the window.
        head: WindowHead,
        /// The place of SIZE.
        at: u64,
    },
    /// ADVANCE.
    WantAdvance {
        /// What stands before the window.
        head: WindowHead,
        /// The place of SIZE.
        at: u64,
        /// The number behind SIZE.
        size: Num,
    },
    /// The number behind ADVANCE.
    WantAdvanceNumber {
        /// What stands before the window.
        head: WindowHead,
        /// The place of SIZE.
        at: u64,
        /// The number behind SIZE.
        size: Num,
    },
    /// TUPLES or TIME.
    WantMeasure {
        /// What stands before the window.
        head: WindowHead,
        /// The place of SIZE.
        at: u64,
        /// The number behind SIZE.
        size: Num,
        /// The number behind ADVANCE.
        advance: Num,
    },
    /// `]` behind TUPLES or TIME.
    WantWindowClose {
        /// What stands before the window.
        head: WindowHead,
        /// The window with its numbers and what they count.
        window: Window,
    },
}

/// A place in what makes groups, and what may follow there.
#[derive(Drop)]
pub enum GroupsControl {
    /// BY behind GROUP.
    WantBy {
        /// The select, its source and its window.
        from: SelectFrom,
        /// Its condition, where it has WHERE.
        filter: Option<WrittenExpr>,
    },
    /// The name behind BY.
    WantKey {
        /// What stands before BY.
        head: GroupsHead,
        /// The place of BY.
        at: u64,
    },
    /// GROUPS.
    WantGroups {
        /// What stands before BY.
        head: GroupsHead,
        /// The place of BY.
        at: u64,
        /// The name behind BY.
        key: Name,
    },
    /// The number behind GROUPS.
    WantGroupsNumber {
        /// What stands before BY.
        head: GroupsHead,
        /// The place of BY.
        at: u64,
        /// The name behind BY.
        key: Name,
    },
}

/// A place in a query or behind it, and what may follow there.
#[derive(Drop)]
pub enum QueryControl {
    /// A select, an EACH or a bracket.
    WantTerm,
    /// ARRIVAL behind UNION BY.
    WantArrival {
        /// The query on the left.
        left: WrittenQuery,
        /// The place of UNION.
        at: u64,
        /// The place of BY.
        by_at: u64,
    },
    /// The name behind EACH.
    WantVar {
        at: u64,
    },
    /// IN.
    WantIn {
        at: u64,
        var: Name,
    },
    /// `(` before a body.
    WantBody {
        head: BodyHead,
    },
    /// What may stand behind a whole term.
    HaveTerm {
        term: WrittenQuery,
    },
    /// The name behind INTO.
    WantName {
        query: WrittenQuery,
    },
    /// `;` or the end.
    HaveName {
        query: WrittenQuery,
        name: Name,
    },
    /// The end.
    WantEnd {
        query: WrittenQuery,
        name: Name,
    },
}

/// Where the reader stands: what it has read last, and what may follow.
#[derive(Drop)]
pub enum Control {
    /// In an expression.
    Expr(ExprControl),
    /// Among the items of a select.
    Item(ItemControl),
    /// In an aggregate.
    Agg(AggControl),
    /// In a function with OVER.
    Over(OverControl),
    /// At a source.
    Source(SourceControl),
    /// In a window.
    Window(WindowControl),
    /// In what makes groups.
    Groups(GroupsControl),
    /// Between queries, or at the end of the statement.
    Query(QueryControl),
}
