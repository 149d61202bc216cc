//! Items of a select to tokens.

ghost use Rattle.std.specs.Prelude.{◌≡◌, ◌++◌, ◌∷◌, [], OnOk, map};
ghost use Rattle.gl_query.specs.Shapes.{expr_shape, agg_shape, item_shape, agg_item_shape, pick_shape};
ghost use Rattle.gl_query_tokens.specs.declared.token.Token.TheVariants as token;
ghost use Rattle.gl_query_tokens.specs.declared.token.Plain.TheVariants as plain;
ghost use Rattle.gl_query_tokens.specs.declared.token.Fold.TheVariants as fold;
ghost use Rattle.gl_query_reader.specs.Written as written;
ghost use Rattle.gl_query_printer.specs.Canonical.{name_of, num_of, expr_of, agg_of, is_bare, item_by, item_of, agg_item_of, pick_of, grouping_of};

use crate::expressions::put_expr;
use crate::tokens::{put, put_name, put_number, put_open, put_plain};
use gl_bits::Memory;
use gl_query::{Agg, AggItem, Expr, Item, Name, Num, Op, Pick};
use gl_query_tokens::{Fold, Plain, Token};
use std::alloc::Global;

/// Puts an aggregate over the values of an expression.
pub(crate) fn put_fold(
    alloc: Global,
    tokens: &mut Vec<Token>,
    fold: Fold,
    arg: &Expr,
) -> Result<(), Memory>
    ensures { OnOk result (tokens.new.items ≡ tokens.old.items
        ++ written.spell_agg (written.Fold' fold 0 0 (expr_of (expr_shape arg.now)))) }
{
    put(tokens, Token::Fold { fold, at: 0 })?;
    put_open(tokens)?;
    put_expr(alloc, tokens, arg)?;
    put_plain(tokens, Plain::Close)
}

// Puts numbers with a comma between each two.
#[tactic(auto, using(crate::proofs::Loops::number_steps))]
fn put_numbers(tokens: &mut Vec<Token>, numbers: &[Num]) -> Result<(), Memory>
    ensures { OnOk result (tokens.new.items ≡ tokens.old.items
        ++ written.spell_numbers (map num_of (map (λ n. n.value) numbers.now))) }
{
    let Some((first, rest)) = numbers.split_first() else {
        return Ok(());
    };
    put_number(tokens, first.value)?;
    for number in rest {
        put_plain(tokens, Plain::Comma)?;
        put_number(tokens, number.value)?;
    }
    Ok(())
}

// Puts a sum by weights.
fn put_wsum(
    alloc: Global,
    tokens: &mut Vec<Token>,
    arg: &Expr,
    weights: &[Num],
) -> Result<(), Memory>
    ensures { OnOk result (tokens.new.items ≡ tokens.old.items
        ++ written.spell_agg
        (written.Wsum 0 0 (expr_of (expr_shape arg.now))
        (map num_of (map (λ n. n.value) weights.now)))) }
{
    put(tokens, Token::Wsum { at: 0 })?;
    put_open(tokens)?;
    put_expr(alloc, tokens, arg)?;
    put_plain(tokens, Plain::Comma)?;
    put_plain(tokens, Plain::LeftSquare)?;
    put_numbers(tokens, weights)?;
    put_plain(tokens, Plain::RightSquare)?;
    put_plain(tokens, Plain::Close)
}

/// Puts the number of rows.
pub(crate) fn put_count(tokens: &mut Vec<Token>) -> Result<(), Memory>
    ensures { OnOk result (tokens.new.items ≡ tokens.old.items
        ++ written.spell_agg (written.Count 0 0)) }
{
    put(tokens, Token::Count { at: 0 })?;
    put_open(tokens)?;
    put_plain(tokens, Plain::Close)
}

fn put_agg(alloc: Global, tokens: &mut Vec<Token>, agg: &Agg) -> Result<(), Memory>
    ensures { OnOk result (tokens.new.items ≡ tokens.old.items
        ++ written.spell_agg (agg_of (agg_shape agg.now))) }
{
    match agg {
        Agg::Count { .. } => put_count(tokens),
        Agg::Sum(arg) => put_fold(alloc, tokens, Fold::Sum, arg),
        Agg::Min(arg) => put_fold(alloc, tokens, Fold::Min, arg),
        Agg::Max(arg) => put_fold(alloc, tokens, Fold::Max, arg),
        Agg::Avg(arg) => put_fold(alloc, tokens, Fold::Avg, arg),
        Agg::Wsum { arg, weights } => put_wsum(alloc, tokens, arg, weights.as_slice()),
    }
}

/// Puts BY, the key and the number of groups.
pub(crate) fn put_grouping(
    alloc: Global,
    tokens: &mut Vec<Token>,
    key: &Name,
    groups: Num,
) -> Result<(), Memory>
    ensures { OnOk result (tokens.new.items ≡ tokens.old.items
        ++ written.spell_grouping (grouping_of key.now.text groups.value)) }
{
    put(tokens, Token::By { at: 0 })?;
    put_name(alloc, tokens, key.text.as_slice())?;
    put_plain(tokens, Plain::Groups)?;
    put_number(tokens, groups.value)
}

/// Puts AS and a name.
pub(crate) fn put_as(alloc: Global, tokens: &mut Vec<Token>, name: &Name) -> Result<(), Memory>
    ensures { OnOk result (tokens.new.items ≡ tokens.old.items ++ token.Plain plain.As
        ∷ token.Name (name_of name.now.text) ∷ []) }
{
    put_plain(tokens, Plain::As)?;
    put_name(alloc, tokens, name.text.as_slice())
}

// A column under its own name.
fn is_bare(expr: &Expr, name: &Name) -> bool
    ensures { result ≡ is_bare (expr_shape expr.now) name.now.text }
{
    match expr {
        Expr::Column(column) => column.text.as_slice() == name.text.as_slice(),
        _ => false,
    }
}

/// Puts an expression under a name; a column under its own name stands alone.
pub(crate) fn put_named(
    alloc: Global,
    tokens: &mut Vec<Token>,
    expr: &Expr,
    name: &Name,
) -> Result<(), Memory>
    ensures { OnOk result (tokens.new.items ≡ tokens.old.items
        ++ written.spell_item (item_by (expr_shape expr.now) name.now.text)) }
{
    if is_bare(expr, name) {
        return put_name(alloc, tokens, name.text.as_slice());
    }
    put_expr(alloc, tokens, expr)?;
    put_as(alloc, tokens, name)
}

fn put_item(alloc: Global, tokens: &mut Vec<Token>, item: &Item) -> Result<(), Memory>
    ensures { OnOk result (tokens.new.items ≡ tokens.old.items
        ++ written.spell_item (item_of (item_shape item.now))) }
{
    put_named(alloc, tokens, &item.expr, &item.name)
}

// Puts an aggregate under its name.
fn put_agg_item(alloc: Global, tokens: &mut Vec<Token>, item: &AggItem) -> Result<(), Memory>
    ensures { OnOk result (tokens.new.items ≡ tokens.old.items
        ++ written.spell_item (agg_item_of (agg_item_shape item.now))) }
{
    put_agg(alloc, tokens, &item.agg)?;
    put_as(alloc, tokens, &item.name)
}

// Puts items with a comma between each two.
#[tactic(auto, using(crate::proofs::Loops::item_steps))]
fn put_items(alloc: Global, tokens: &mut Vec<Token>, items: &[Item]) -> Result<(), Memory>
    ensures { OnOk result (tokens.new.items ≡ tokens.old.items
        ++ written.spell_items (map item_of (map item_shape items.now))) }
{
    let Some((first, rest)) = items.split_first() else {
        return Ok(());
    };
    put_item(alloc, tokens, first)?;
    for item in rest {
        put_plain(tokens, Plain::Comma)?;
        put_item(alloc, tokens, item)?;
    }
    Ok(())
}

/// Puts aggregates with a comma between each two.
#[tactic(auto, using(crate::proofs::Loops::agg_steps))]
pub(crate) fn put_aggs(
    alloc: Global,
    tokens: &mut Vec<Token>,
    aggs: &[AggItem],
) -> Result<(), Memory>
    ensures { OnOk result (tokens.new.items ≡ tokens.old.items
        ++ written.spell_items (map agg_item_of (map agg_item_shape aggs.now))) }
{
    let Some((first, rest)) = aggs.split_first() else {
        return Ok(());
    };
    put_agg_item(alloc, tokens, first)?;
    for item in rest {
        put_plain(tokens, Plain::Comma)?;
        put_agg_item(alloc, tokens, item)?;
    }
    Ok(())
}

/// Puts what a select picks.
pub(crate) fn put_pick(alloc: Global, tokens: &mut Vec<Token>, pick: &Pick) -> Result<(), Memory>
    ensures { OnOk result (tokens.new.items ≡ tokens.old.items
        ++ written.spell_pick (pick_of (pick_shape pick.now))) }
{
    match pick {
        Pick::All => put(tokens, Token::Operator { op: Op::Mul, at: 0 }),
        Pick::Items(items) => put_items(alloc, tokens, items.as_slice()),
    }
}
