//! What the items of a select with OVER mean.

ghost use Rattle.std.specs.Prelude.{◌≡◌, ◌++◌, ◌∷◌, [], IfOk, OnOk, map, option_map};
ghost use Rattle.gl_query_reader.specs.Meaning as meaning;
ghost use Rattle.gl_query.specs.Trees.{Lag, expr_tree, filter_tree, frame_agg_tree, frame_tree, frame_item_tree};
ghost use Rattle.gl_query_reader.specs.Written.{Ranged};
ghost use Rattle.gl_query_reader.specs.Trees.{expr_of, filtering_of, over_agg_of, written_over_of, item_of, items_of};

use crate::item_meaning::expr_meaning;
use crate::keeping::{Beside, Both, keep_beside, put, take_both};
use crate::mixed::{first_over, over_agg_at, spelled_at};
use crate::parts::cloned;
use crate::written::{Bound, FrameRows, Part, WrittenExpr, WrittenItem, WrittenItems};
use crate::written_functions::{WrittenFilter, WrittenHead, WrittenOver, WrittenOverAgg};
use gl_query::{Expr, Frame, FrameAgg, FrameItem, FrameItems, Num, Slots};
use gl_query_tokens::{Fold, Spelling};
use std::alloc::{AllocError, Global};

fn fold_over(fold: Fold, arg: Expr) -> FrameAgg
    ensures { frame_agg_tree result ≡ meaning.fold_over fold (expr_tree arg) }
{
    match fold {
        Fold::Sum => FrameAgg::Sum(arg),
        Fold::Min => FrameAgg::Min(arg),
        Fold::Max => FrameAgg::Max(arg),
        Fold::Avg => FrameAgg::Avg(arg),
    }
}

fn over_agg_meaning(alloc: Global, agg: WrittenOverAgg) -> Result<FrameAgg, AllocError>
    ensures { IfOk result (λ a. frame_agg_tree a ≡ meaning.over_agg_meaning (over_agg_of agg)) }
{
    match agg {
        WrittenOverAgg::Count { at: _, open: _ } => Ok(FrameAgg::Count),
        WrittenOverAgg::Fold {
            fold,
            at: _,
            open: _,
            arg,
        } => Ok(fold_over(fold, expr_meaning(alloc, arg)?)),
        WrittenOverAgg::LastValue {
            word: _,
            open: _,
            arg,
        } => Ok(FrameAgg::LastValue(expr_meaning(alloc, arg)?)),
    }
}

// The condition of FILTER, where there is one.
fn filtering_meaning(
    alloc: Global,
    filter: Option<WrittenFilter>,
) -> Result<Option<Expr>, AllocError>
    ensures { IfOk result (λ o. filter_tree o
        ≡ meaning.filtering_meaning (option_map filtering_of filter)) }
{
    match filter {
        None => Ok(None),
        Some(filter) => {
            let WrittenFilter {
                word: _,
                open: _,
                cond,
            } = filter;
            Ok(Some(expr_meaning(alloc, cond)?))
        }
    }
}

// LAG looks one row back where no number says how many.
fn back_or_one(back: Option<Num>, at: u64) -> Num
    ensures { result ≡ meaning.back_or_one back at }
{
    match back {
        None => Num { value: 1, at },
        Some(number) => number,
    }
}

fn bound_meaning(bound: Bound) -> Option<Num>
    ensures { result ≡ meaning.bound_meaning bound }
{
    match bound {
        Bound::Number(number) => Some(number),
        Bound::Unbounded(_) => None,
    }
}

// How many rows before the row itself are in the frame; all of them without a number.
fn rows_meaning(rows: Option<FrameRows>) -> Option<Num>
    ensures { result ≡ meaning.rows_meaning rows }
{
    match rows {
        None => None,
        Some(FrameRows::Short { bound, .. }) => bound_meaning(bound),
        Some(FrameRows::Between { front, .. }) => bound_meaning(front.bound),
    }
}

fn lag_meaning(
    alloc: Global,
    word: Spelling,
    arg: WrittenExpr,
    back: Option<Num>,
) -> Result<Frame, AllocError>
    ensures { IfOk result (λ f. frame_tree f ≡ Lag (meaning.expr_meaning (expr_of arg))
        (meaning.back_or_one back (meaning.spelled_at word)) (meaning.spelled_at word)) }
{
    let at = spelled_at(word);
    let arg = expr_meaning(alloc, arg)?;
    let back = back_or_one(back, at);
    Ok(Frame::Lag { arg, back, at })
}

fn ranged_meaning(
    alloc: Global,
    agg: WrittenOverAgg,
    filter: Option<WrittenFilter>,
    rows: Option<FrameRows>,
) -> Result<Frame, AllocError>
    ensures { IfOk result (λ f. frame_tree f ≡ meaning.frame_meaning
        (Ranged (over_agg_of agg) (option_map filtering_of filter)) rows) }
{
    let at = over_agg_at(&agg);
    let back = rows_meaning(rows);
    let agg = over_agg_meaning(alloc, agg);
    let filter = filtering_meaning(alloc, filter);
    let Both {
        first: agg,
        second: filter,
    } = take_both(agg, filter)?;
    Ok(Frame::Over {
        agg,
        filter,
        back,
        at,
    })
}

fn over_meaning(alloc: Global, over: WrittenOver) -> Result<Frame, AllocError>
    ensures { IfOk result (λ f. frame_tree f ≡ meaning.over_meaning (written_over_of over)) }
{
    let WrittenOver {
        head,
        word: _,
        open: _,
        part,
        rows,
    } = over;
    drop(part);
    match head {
        WrittenHead::Lag {
            word,
            open: _,
            arg,
            back,
        } => lag_meaning(alloc, word, arg, back),
        WrittenHead::Ranged { agg, filter } => ranged_meaning(alloc, agg, filter, rows),
    }
}

// What PARTITION means, where there is one.
fn part_meaning(alloc: Global, part: &Option<Part>) -> Result<Option<Slots>, AllocError>
    ensures { IfOk result (λ o. o ≡ meaning.part_meaning part.now) }
{
    match part {
        None => Ok(None),
        Some(part) => {
            let key = cloned(alloc, &part.grouping.key)?;
            let groups = part.grouping.groups;
            Ok(Some(Slots { key, groups }))
        }
    }
}

// What the PARTITION of an item means, where it has one.
fn item_slots(alloc: Global, item: &WrittenItem) -> Result<Option<Slots>, AllocError>
    ensures { IfOk result (λ o. o ≡ meaning.part_meaning (meaning.part_in (item_of item.now))) }
{
    match item {
        WrittenItem::Framed { over, .. } => part_meaning(alloc, &over.part),
        WrittenItem::Bare(_) => Ok(None),
        WrittenItem::Named { .. } => Ok(None),
        WrittenItem::Total { .. } => Ok(None),
    }
}

/// What the PARTITION of the first item with OVER means.
pub fn slots_in(alloc: Global, items: &[WrittenItem]) -> Result<Option<Slots>, AllocError>
    ensures { IfOk result (λ o. o ≡ meaning.slots_in (items_of items.now)) }
{
    match first_over(items) {
        Some(item) => item_slots(alloc, item),
        None => Ok(None),
    }
}

// Adds what an item means as a frame, where it is no aggregate without OVER.
#[tactic(auto, using(crate::proofs::ItemLists::item_steps))]
fn add_frame(alloc: Global, items: &mut Vec<FrameItem>, item: WrittenItem) -> Result<(), AllocError>
    ensures { OnOk result (map frame_item_tree items.new.items
        ≡ map frame_item_tree items.old.items ++ meaning.frame_items (item_of item ∷ [])) }
{
    match item {
        WrittenItem::Bare(name) => {
            let expr = Expr::Column(cloned(alloc, &name)?);
            let frame = Frame::Own(expr);
            put(items, FrameItem { frame, name })
        }
        WrittenItem::Named { expr, name } => {
            let Beside {
                kept: name,
                made: expr,
            } = keep_beside(name, expr_meaning(alloc, expr))?;
            let frame = Frame::Own(expr);
            put(items, FrameItem { frame, name })
        }
        WrittenItem::Framed { over, name } => {
            let Beside {
                kept: name,
                made: frame,
            } = keep_beside(name, over_meaning(alloc, over))?;
            put(items, FrameItem { frame, name })
        }
        WrittenItem::Total { agg, name } => {
            drop(agg);
            drop(name);
            Ok(())
        }
    }
}

/// What the items of a select with OVER mean.
#[tactic(auto, using(crate::proofs::ItemLists::item_steps))]
pub fn frame_items(alloc: Global, written: WrittenItems) -> Result<FrameItems, AllocError>
    ensures { IfOk result (λ items. map frame_item_tree items
        ≡ meaning.frame_items (items_of written)) }
{
    let mut left = written.into_vec();
    left.reverse();
    let mut items = Vec::new(alloc);
    while let Some(item) = left.pop() {
        add_frame(alloc, &mut items, item)?;
    }
    Ok(FrameItems::from_vec(items))
}
