//! What a select that is written means.

ghost use Rattle.std.specs.Prelude.{◌≡◌, IfOk, option_map};
ghost use Rattle.gl_query_reader.specs.Meaning as meaning;
ghost use Rattle.gl_query.specs.Trees.{filter_tree, query_tree, All, Each, Frames, Items, PerGroup, Read, Rows, Total};
ghost use Rattle.gl_query_reader.specs.Trees.{items_of, pick_of, filter_of};

use crate::item_meaning::{agg_items, expr_meaning, plain_items};
use crate::keeping::{Beside, Both, keep_beside, take_both};
use crate::mixed::{has_over, is_total};
use crate::over_meaning::{frame_items, slots_in};
use crate::written::{
    Grouping, Window, WrittenExpr, WrittenItem, WrittenItems, WrittenPick, WrittenSelect,
};
use gl_bits::boxes::{OneBox, TwoBoxes, one_box, two_boxes};
use gl_query::{Expr, Measure, Name, Pick, Query};
use gl_schema::NameText;
use std::alloc::{AllocError, Global};

// The variable of the bodies that a select makes.
fn it(alloc: Global, at: u64) -> Result<Name, AllocError>
    ensures { IfOk result (λ name. name ≡ meaning.it at) }
{
    let text = NameText::from_vec(Vec::from_slice(alloc, b"it")?);
    Ok(Name { text, at })
}

fn all_rows(alloc: Global, filter: Option<Expr>, source: Query) -> Result<Query, AllocError>
    ensures { IfOk result (λ q. query_tree q
        ≡ Rows All (filter_tree filter) (query_tree source)) }
{
    let OneBox {
        kept: filter,
        boxed: source,
    } = one_box(alloc, filter, source)?;
    Ok(Query::Rows {
        pick: Pick::All,
        filter,
        source,
    })
}

// Aggregates are over the rows that the filter keeps.
fn filtered(alloc: Global, filter: Option<Expr>, source: Query) -> Result<Query, AllocError>
    ensures { IfOk result (λ q. query_tree q
        ≡ meaning.filtered (filter_tree filter) (query_tree source)) }
{
    match filter {
        None => Ok(source),
        Some(filter) => all_rows(alloc, Some(filter), source),
    }
}

fn totals(alloc: Global, items: WrittenItems, source: Query) -> Result<Query, AllocError>
    ensures { IfOk result (λ q. query_tree q
        ≡ Total (meaning.agg_items (items_of items)) (query_tree source)) }
{
    let OneBox {
        kept: items,
        boxed: source,
    } = one_box(alloc, items, source)?;
    let Beside {
        kept: source,
        made: aggs,
    } = keep_beside(source, agg_items(alloc, items))?;
    Ok(Query::Total { aggs, source })
}

fn filtered_totals(
    alloc: Global,
    items: WrittenItems,
    filter: Option<Expr>,
    source: Query,
) -> Result<Query, AllocError>
    ensures { IfOk result (λ q. query_tree q ≡ Total (meaning.agg_items (items_of items))
        (meaning.filtered (filter_tree filter) (query_tree source))) }
{
    let Beside {
        kept: items,
        made: source,
    } = keep_beside(items, filtered(alloc, filter, source))?;
    totals(alloc, items, source)
}

fn rows(
    alloc: Global,
    items: WrittenItems,
    filter: Option<Expr>,
    source: Query,
) -> Result<Query, AllocError>
    ensures { IfOk result (λ q. query_tree q
        ≡ Rows (Items (meaning.plain_items (items_of items))) (filter_tree filter)
        (query_tree source)) }
{
    let OneBox {
        kept: (items, filter),
        boxed: source,
    } = one_box(alloc, (items, filter), source)?;
    let Beside {
        kept: (filter, source),
        made: items,
    } = keep_beside((filter, source), plain_items(alloc, items))?;
    Ok(Query::Rows {
        pick: Pick::Items(items),
        filter,
        source,
    })
}

fn framed_rows(
    alloc: Global,
    items: WrittenItems,
    filter: Option<Expr>,
    source: Query,
) -> Result<Query, AllocError>
    ensures { IfOk result (λ q. query_tree q
        ≡ Frames (meaning.frame_items (items_of items)) (filter_tree filter)
        (meaning.slots_in (items_of items)) (query_tree source)) }
{
    let OneBox {
        kept: (items, filter),
        boxed: source,
    } = one_box(alloc, (items, filter), source)?;
    let slots = slots_in(alloc, items.as_slice());
    let items = frame_items(alloc, items);
    let Beside {
        kept: (filter, source),
        made,
    } = keep_beside((filter, source), take_both(items, slots))?;
    let Both {
        first: items,
        second: slots,
    } = made;
    Ok(Query::Frames {
        items,
        filter,
        slots,
        source,
    })
}

// With one OVER the items are frames, without any they are expressions over a row.
fn by_over(
    alloc: Global,
    items: WrittenItems,
    filter: Option<Expr>,
    source: Query,
) -> Result<Query, AllocError>
    ensures { IfOk result (λ q. query_tree q
        ≡ meaning.by_over (meaning.has_over (items_of items)) (items_of items)
        (filter_tree filter) (query_tree source)) }
{
    if has_over(items.as_slice()) {
        framed_rows(alloc, items, filter, source)
    } else {
        rows(alloc, items, filter, source)
    }
}

fn begins_total(items: &[WrittenItem]) -> bool
    ensures { result ≡ meaning.begins_total (items_of items.now) }
{
    match items {
        [] => false,
        [first, ..] => is_total(first),
    }
}

fn by_pick(
    alloc: Global,
    pick: WrittenPick,
    filter: Option<Expr>,
    source: Query,
) -> Result<Query, AllocError>
    ensures { IfOk result (λ q. query_tree q
        ≡ meaning.by_pick (pick_of pick) (filter_tree filter) (query_tree source)) }
{
    match pick {
        WrittenPick::All { at: _ } => all_rows(alloc, filter, source),
        WrittenPick::Items(items) => {
            if begins_total(items.as_slice()) {
                filtered_totals(alloc, items, filter, source)
            } else {
                by_over(alloc, items, filter, source)
            }
        }
    }
}

fn items_in(alloc: Global, pick: WrittenPick) -> WrittenItems
    ensures { items_of result ≡ meaning.items_in (pick_of pick) }
{
    match pick {
        WrittenPick::All { at: _ } => WrittenItems::new(alloc),
        WrittenPick::Items(items) => items,
    }
}

// The aggregates of each group.
fn group_body(alloc: Global, pick: WrittenPick, at: u64) -> Result<Query, AllocError>
    ensures { IfOk result (λ q. query_tree q ≡ Total
        (meaning.agg_items (meaning.items_in (pick_of pick))) (Read (meaning.it at))) }
{
    let Beside {
        kept: items,
        made: name,
    } = keep_beside(items_in(alloc, pick), it(alloc, at))?;
    totals(alloc, items, Query::Read(name))
}

fn per_group(
    alloc: Global,
    grouping: Grouping,
    source: Query,
    body: Query,
) -> Result<Query, AllocError>
    ensures { IfOk result (λ q. query_tree q ≡ PerGroup (meaning.it grouping.at)
        (query_tree source) grouping.key grouping.groups (query_tree body) grouping.at) }
{
    let Grouping { at, key, groups } = grouping;
    let TwoBoxes {
        kept: key,
        first: source,
        second: body,
    } = two_boxes(alloc, key, source, body)?;
    let Beside {
        kept: (key, source, body),
        made: var,
    } = keep_beside((key, source, body), it(alloc, at))?;
    Ok(Query::PerGroup {
        var,
        source,
        key,
        groups,
        body,
        at,
    })
}

// GROUP BY makes a body for each group.
fn grouped(
    alloc: Global,
    pick: WrittenPick,
    filter: Option<Expr>,
    grouping: Option<Grouping>,
    source: Query,
) -> Result<Query, AllocError>
    ensures { IfOk result (λ q. query_tree q
        ≡ meaning.grouped (pick_of pick) (filter_tree filter) grouping (query_tree source)) }
{
    let Some(grouping) = grouping else {
        return by_pick(alloc, pick, filter, source);
    };
    let source = filtered(alloc, filter, source);
    let body = group_body(alloc, pick, grouping.at);
    let Beside {
        kept: grouping,
        made,
    } = keep_beside(grouping, take_both(source, body))?;
    per_group(alloc, grouping, made.first, made.second)
}

// What is done in each window.
fn window_body(
    alloc: Global,
    pick: WrittenPick,
    filter: Option<Expr>,
    grouping: Option<Grouping>,
    at: u64,
) -> Result<Query, AllocError>
    ensures { IfOk result (λ q. query_tree q ≡ meaning.grouped (pick_of pick)
        (filter_tree filter) grouping (Read (meaning.it at))) }
{
    let Beside { kept, made: name } = keep_beside((pick, filter, grouping), it(alloc, at))?;
    let (pick, filter, grouping) = kept;
    grouped(alloc, pick, filter, grouping, Query::Read(name))
}

/// A body over each window of a source.
pub fn each_over(window: Window, var: Name, source: Box<Query>, body: Box<Query>, at: u64) -> Query
    ensures { query_tree result ≡ Each window.measure var (query_tree source.value) window.size
        window.advance (query_tree body.value) at }
{
    let Window {
        at: _,
        size,
        advance,
        measure,
    } = window;
    match measure {
        Measure::Tuples => Query::Each {
            var,
            source,
            size,
            advance,
            body,
            at,
        },
        Measure::Time => Query::EachTime {
            var,
            source,
            size,
            advance,
            body,
            at,
        },
    }
}

fn each_window(
    alloc: Global,
    window: Window,
    source: Query,
    body: Query,
) -> Result<Query, AllocError>
    ensures { IfOk result (λ q. query_tree q ≡ Each window.measure (meaning.it window.at)
        (query_tree source) window.size window.advance (query_tree body) window.at) }
{
    let TwoBoxes {
        kept: window,
        first: source,
        second: body,
    } = two_boxes(alloc, window, source, body)?;
    let Beside {
        kept: (source, body),
        made: var,
    } = keep_beside((source, body), it(alloc, window.at))?;
    Ok(each_over(window, var, source, body, window.at))
}

// A window makes a body for each window.
fn windowed(
    alloc: Global,
    pick: WrittenPick,
    window: Option<Window>,
    filter: Option<Expr>,
    grouping: Option<Grouping>,
    source: Query,
) -> Result<Query, AllocError>
    ensures { IfOk result (λ q. query_tree q
        ≡ meaning.select_meaning (pick_of pick) window (filter_tree filter) grouping
        (query_tree source)) }
{
    let Some(window) = window else {
        return grouped(alloc, pick, filter, grouping, source);
    };
    let body = window_body(alloc, pick, filter, grouping, window.at);
    let Beside {
        kept: source,
        made: body,
    } = keep_beside(source, body)?;
    each_window(alloc, window, source, body)
}

fn filter_meaning(alloc: Global, filter: Option<WrittenExpr>) -> Result<Option<Expr>, AllocError>
    ensures { IfOk result (λ o. filter_tree o
        ≡ option_map meaning.expr_meaning (filter_of filter)) }
{
    match filter {
        None => Ok(None),
        Some(expr) => Ok(Some(expr_meaning(alloc, expr)?)),
    }
}

/// What a select means over its source.
pub fn select_meaning(
    alloc: Global,
    select: WrittenSelect,
    source: Query,
) -> Result<Query, AllocError>
    ensures { IfOk result (λ q. query_tree q
        ≡ meaning.select_meaning (pick_of select.pick) select.window
        (option_map meaning.expr_meaning (filter_of select.filter)) select.grouping
        (query_tree source)) }
{
    let WrittenSelect {
        pick,
        window,
        filter,
        grouping,
    } = select;
    let Beside { kept, made: filter } = keep_beside(
        (pick, grouping, source),
        filter_meaning(alloc, filter),
    )?;
    let (pick, grouping, source) = kept;
    windowed(alloc, pick, window, filter, grouping, source)
}
