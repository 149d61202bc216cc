//! What the items of a select that are written mean.

ghost use Rattle.std.specs.Prelude.{◌≡◌, ◌++◌, ◌∷◌, [], IfOk, OnOk, map};
ghost use Rattle.gl_query_reader.specs.Meaning as meaning;
ghost use Rattle.gl_query.specs.Trees.{Binary, Cast, Column, Flip, Not, expr_tree, agg_tree, item_tree, agg_item_tree};
ghost use Rattle.gl_query_reader.specs.Trees.{expr_of, agg_of, item_of, items_of};

use crate::keeping::{Beside, Both, keep_beside, put, take_both};
use crate::parts::cloned;
use crate::written::{WrittenExpr, WrittenItem, WrittenItems};
use crate::written_functions::WrittenAgg;
use gl_bits::boxes::{OneBox, TwoBoxes, one_box, two_boxes};
use gl_query::{Agg, AggItem, AggItems, Expr, Item, ItemList, Name, Num, Op};
use gl_query_tokens::Fold;
use gl_schema::NameText;
use gl_values::Kind;
use std::alloc::{AllocError, Global};

/// What an expression means. Brackets only group.
pub fn expr_meaning(alloc: Global, written: WrittenExpr) -> Result<Expr, AllocError>
    ensures { IfOk result (λ e. expr_tree e ≡ meaning.expr_meaning (expr_of written)) }
{
    match written {
        WrittenExpr::Column(name) => Ok(Expr::Column(name)),
        WrittenExpr::Number(number) => Ok(Expr::Number(number)),
        WrittenExpr::Minus { at, number } => Ok(Expr::Minus(Num { at, ..number })),
        WrittenExpr::Parameter { at, name } => parameter(alloc, at, name),
        WrittenExpr::Letters { text, at } => Ok(Expr::Letters { text, at }),
        WrittenExpr::Brackets { at: _, inner } => expr_meaning(alloc, Box::into_inner(inner)),
        WrittenExpr::Cast {
            at,
            open: _,
            inner,
            word,
            kind,
        } => {
            drop(word);
            let arg = expr_meaning(alloc, Box::into_inner(inner))?;
            cast(alloc, arg, kind, at)
        }
        WrittenExpr::Flip { at, inner } => {
            let arg = expr_meaning(alloc, Box::into_inner(inner))?;
            flipped(alloc, arg, at)
        }
        WrittenExpr::Not { at, inner } => {
            let arg = expr_meaning(alloc, Box::into_inner(inner))?;
            negated(alloc, arg, at)
        }
        WrittenExpr::Binary {
            op,
            at,
            left,
            right,
        } => {
            let left = expr_meaning(alloc, Box::into_inner(left));
            let right = expr_meaning(alloc, Box::into_inner(right));
            let Both {
                first: left,
                second: right,
            } = take_both(left, right)?;
            binary(alloc, op, at, left, right)
        }
    }
}

// A name with a colon in front.
fn marked(alloc: Global, name: &[u8]) -> Result<NameText, AllocError>
    ensures { IfOk result (λ text. text ≡ 58 ∷ name.now) }
{
    let mut text = Vec::from_slice(alloc, b":".as_slice())?;
    text.extend_from_slice(name)?;
    Ok(NameText::from_vec(text))
}

// A parameter, which an expression names with its colon.
fn parameter(alloc: Global, at: u64, name: Name) -> Result<Expr, AllocError>
    ensures { IfOk result (λ e. expr_tree e ≡ Column (record { text = 58 ∷ name.text; at = at })) }
{
    let text = marked(alloc, name.text.as_slice())?;
    drop(name);
    Ok(Expr::Column(Name { text, at }))
}

fn cast(alloc: Global, arg: Expr, kind: Kind, at: u64) -> Result<Expr, AllocError>
    ensures { IfOk result (λ e. expr_tree e ≡ Cast (expr_tree arg) kind at) }
{
    let OneBox {
        kept: at,
        boxed: arg,
    } = one_box(alloc, at, arg)?;
    Ok(Expr::Cast { arg, kind, at })
}

fn flipped(alloc: Global, arg: Expr, at: u64) -> Result<Expr, AllocError>
    ensures { IfOk result (λ e. expr_tree e ≡ Flip (expr_tree arg) at) }
{
    let OneBox {
        kept: at,
        boxed: arg,
    } = one_box(alloc, at, arg)?;
    Ok(Expr::Flip { arg, at })
}

fn negated(alloc: Global, arg: Expr, at: u64) -> Result<Expr, AllocError>
    ensures { IfOk result (λ e. expr_tree e ≡ Not (expr_tree arg) at) }
{
    let OneBox {
        kept: at,
        boxed: arg,
    } = one_box(alloc, at, arg)?;
    Ok(Expr::Not { arg, at })
}

fn binary(alloc: Global, op: Op, at: u64, left: Expr, right: Expr) -> Result<Expr, AllocError>
    ensures { IfOk result (λ e. expr_tree e ≡ Binary op (expr_tree left) (expr_tree right) at) }
{
    let TwoBoxes {
        kept: at,
        first: left,
        second: right,
    } = two_boxes(alloc, at, left, right)?;
    Ok(Expr::Binary {
        op,
        left,
        right,
        at,
    })
}

fn fold_meaning(fold: Fold, arg: Expr) -> Agg
    ensures { agg_tree result ≡ meaning.fold_meaning fold (expr_tree arg) }
{
    match fold {
        Fold::Sum => Agg::Sum(arg),
        Fold::Min => Agg::Min(arg),
        Fold::Max => Agg::Max(arg),
        Fold::Avg => Agg::Avg(arg),
    }
}

fn agg_meaning(alloc: Global, written: WrittenAgg) -> Result<Agg, AllocError>
    ensures { IfOk result (λ a. agg_tree a ≡ meaning.agg_meaning (agg_of written)) }
{
    match written {
        WrittenAgg::Count { at, open: _ } => Ok(Agg::Count { at }),
        WrittenAgg::Fold {
            fold,
            at: _,
            open: _,
            arg,
        } => Ok(fold_meaning(fold, expr_meaning(alloc, arg)?)),
        WrittenAgg::Wsum {
            at: _,
            open: _,
            arg,
            weights,
        } => {
            let Beside {
                kept: weights,
                made: arg,
            } = keep_beside(weights, expr_meaning(alloc, arg))?;
            Ok(Agg::Wsum { arg, weights })
        }
    }
}

// Adds what an item means, where it is no aggregate and has no OVER; a column alone has its own name.
#[tactic(auto, using(crate::proofs::ItemLists::item_steps))]
fn add_plain(alloc: Global, items: &mut Vec<Item>, item: WrittenItem) -> Result<(), AllocError>
    ensures { OnOk result (map item_tree items.new.items ≡ map item_tree items.old.items
        ++ meaning.plain_items (item_of item ∷ [])) }
{
    match item {
        WrittenItem::Bare(name) => {
            let expr = Expr::Column(cloned(alloc, &name)?);
            put(items, Item { expr, name })
        }
        WrittenItem::Named { expr, name } => {
            let Beside {
                kept: name,
                made: expr,
            } = keep_beside(name, expr_meaning(alloc, expr))?;
            put(items, Item { expr, name })
        }
        WrittenItem::Total { agg, name } => {
            drop(agg);
            drop(name);
            Ok(())
        }
        WrittenItem::Framed { over, name } => {
            drop(over);
            drop(name);
            Ok(())
        }
    }
}

// Adds what an item means, where it is an aggregate.
#[tactic(auto, using(crate::proofs::ItemLists::item_steps))]
fn add_agg(alloc: Global, aggs: &mut Vec<AggItem>, item: WrittenItem) -> Result<(), AllocError>
    ensures { OnOk result (map agg_item_tree aggs.new.items ≡ map agg_item_tree aggs.old.items
        ++ meaning.agg_items (item_of item ∷ [])) }
{
    match item {
        WrittenItem::Total { agg, name } => {
            let Beside {
                kept: name,
                made: agg,
            } = keep_beside(name, agg_meaning(alloc, agg))?;
            put(aggs, AggItem { agg, name })
        }
        WrittenItem::Bare(name) => {
            drop(name);
            Ok(())
        }
        WrittenItem::Named { expr, name } => {
            drop(expr);
            drop(name);
            Ok(())
        }
        WrittenItem::Framed { over, name } => {
            drop(over);
            drop(name);
            Ok(())
        }
    }
}

/// What the items that are no aggregates and have no OVER mean.
#[tactic(auto, using(crate::proofs::ItemLists::item_steps))]
pub fn plain_items(alloc: Global, written: WrittenItems) -> Result<ItemList, AllocError>
    ensures { IfOk result (λ items. map item_tree items ≡ meaning.plain_items (items_of written)) }
{
    let mut left = written.into_vec();
    left.reverse();
    let mut items = Vec::new(alloc);
    while let Some(item) = left.pop() {
        add_plain(alloc, &mut items, item)?;
    }
    Ok(ItemList::from_vec(items))
}

/// What the items that are aggregates mean.
#[tactic(auto, using(crate::proofs::ItemLists::item_steps))]
pub fn agg_items(alloc: Global, written: WrittenItems) -> Result<AggItems, AllocError>
    ensures { IfOk result (λ aggs. map agg_item_tree aggs ≡ meaning.agg_items (items_of written)) }
{
    let mut left = written.into_vec();
    left.reverse();
    let mut aggs = Vec::new(alloc);
    while let Some(item) = left.pop() {
        add_agg(alloc, &mut aggs, item)?;
    }
    Ok(AggItems::from_vec(aggs))
}
