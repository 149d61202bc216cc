//! The items of a select.

ghost use Rattle.std.specs.Prelude.{◌≡◌, ◌∷◌, ◌++◌, [], List, IfOk};
ghost use Rattle.gl_query_reader.specs.States as states;
ghost use Rattle.gl_query_reader.specs.Machine as machine;
ghost use Rattle.gl_query_reader.specs.Trees.{item_of, items_of, unnamed_of, item_control_of, frames_of, leads};

use crate::call_steps::want_call;
use crate::expressions::want_operand;
use crate::frames::{Frame, Head, Unnamed};
use crate::keeping::{Beside, listed, put};
use crate::over_steps::have_agg;
use crate::parts::{expect, keep_named, refuse};
use crate::state::{AggControl, Control, ItemControl, SourceControl};
use crate::written::{WrittenItem, WrittenItems, WrittenPick};
use gl_query::{Name, Op};
use gl_query_tokens::sorts::is_plain;
use gl_query_tokens::{Plain, Token};
use std::alloc::{AllocError, Global};

fn is_star(op: Op) -> bool
    ensures { result ≡ machine.is_star op }
{
    matches!(op, Op::Mul)
}

// `*` in place of the first item.
fn want_all(items: WrittenItems, op: Op, at: u64) -> Option<Control>
    ensures { (fs : List states.Frame) →
        leads result fs ≡ machine.want_all op (items_of items) at fs }
{
    let is_first = items.len() == 0;
    drop(items);
    if is_star(op) && is_first {
        Some(Control::Item(ItemControl::WantFrom { at }))
    } else {
        None
    }
}

// Whether the token is `*`, or begins an aggregate or a function with a capital.
fn begins_agg(token: &Token) -> bool
    ensures { result ≡ machine.begins_agg token.now }
{
    match token {
        Token::Operator { op, .. } => is_star(*op),
        Token::Count { .. } | Token::Fold { .. } | Token::Wsum { .. } | Token::Word { .. } => true,
        _ => false,
    }
}

// `*`, the keyword of an aggregate, or a function with a capital.
fn want_agg(items: WrittenItems, token: &Token) -> Option<Control>
    ensures { (fs : List states.Frame) →
        leads result fs ≡ machine.want_agg (items_of items) fs token.now }
{
    match token {
        Token::Operator { op, at } => want_all(items, *op, *at),
        Token::Count { at } => Some(Control::Agg(AggControl::WantCountOpen { items, at: *at })),
        Token::Fold { fold, at } => {
            let (fold, at) = (*fold, *at);
            Some(Control::Agg(AggControl::WantFoldOpen { items, fold, at }))
        }
        Token::Wsum { at } => Some(Control::Agg(AggControl::WantWsumOpen { items, at: *at })),
        Token::Word { word, at } => want_call(items, *word, *at),
        _ => refuse(items),
    }
}

// An item behind these, or `*` where there is none.
#[tactic(auto, using(crate::proofs::Stack::reductions))]
fn want_item(
    alloc: Global,
    items: WrittenItems,
    frames: &mut Vec<Frame>,
    token: &Token,
) -> Result<Option<Control>, AllocError>
    ensures { IfOk result (λ o. leads o (frames_of frames.new.items)
        ≡ machine.want_item (items_of items) (frames_of frames.old.items) token.now) }
{
    if begins_agg(token) {
        return Ok(want_agg(items, token));
    }
    put(frames, Frame::InItem { items })?;
    want_operand(alloc, frames, token)
}

fn under_name(unnamed: Unnamed, name: Name) -> WrittenItem
    ensures { item_of result ≡ machine.under_name (unnamed_of unnamed) name }
{
    match unnamed {
        Unnamed::Expr(expr) => WrittenItem::Named { expr, name },
        Unnamed::Agg(agg) => WrittenItem::Total { agg, name },
        Unnamed::Over(over) => WrittenItem::Framed { over, name },
    }
}

/// Items with one more.
#[tactic(auto, using(crate::proofs::ItemLists::item_steps))]
pub fn with_item(items: WrittenItems, item: WrittenItem) -> Result<WrittenItems, AllocError>
    ensures { IfOk result (λ more. items_of more ≡ items_of items ++ item_of item ∷ []) }
{
    listed(items, item)
}

// The name of an item.
fn want_item_name(
    alloc: Global,
    items: WrittenItems,
    unnamed: Unnamed,
    token: &Token,
) -> Result<Option<Control>, AllocError>
    ensures { IfOk result (λ o. (fs : List states.Frame) → leads o fs
        ≡ machine.want_item_name fs (items_of items) (unnamed_of unnamed) token.now) }
{
    match keep_named(alloc, (items, unnamed), token)? {
        Some(
            Beside {
                kept: (items, unnamed),
                made: name,
            },
        ) => {
            let items = with_item(items, under_name(unnamed, name))?;
            Ok(Some(Control::Item(ItemControl::HaveItem { items })))
        }
        None => Ok(None),
    }
}

/// `,` or FROM behind an item.
pub fn have_item(items: WrittenItems, token: &Token) -> Option<Control>
    ensures { (fs : List states.Frame) →
        leads result fs ≡ machine.have_item fs (items_of items) token.now }
{
    if is_plain(token, Plain::Comma) {
        return Some(Control::Item(ItemControl::WantItem { items }));
    }
    let head = Head::Select(WrittenPick::Items(items));
    expect(
        token,
        Plain::From,
        Control::Source(SourceControl::WantSource { head }),
    )
}

/// The place behind a token in the items of a select.
pub fn step_item(
    alloc: Global,
    control: ItemControl,
    frames: &mut Vec<Frame>,
    token: &Token,
) -> Result<Option<Control>, AllocError>
    ensures { IfOk result (λ o. leads o (frames_of frames.new.items)
        ≡ machine.step_at (item_control_of control) (frames_of frames.old.items) token.now) }
{
    match control {
        ItemControl::WantItem { items } => want_item(alloc, items, frames, token),
        ItemControl::HaveAgg { items, agg } => Ok(have_agg(items, agg, token)),
        ItemControl::WantItemName { items, unnamed } => {
            want_item_name(alloc, items, unnamed, token)
        }
        ItemControl::HaveItem { items } => Ok(have_item(items, token)),
        ItemControl::WantFrom { at } => {
            let head = Head::Select(WrittenPick::All { at });
            let next = Control::Source(SourceControl::WantSource { head });
            Ok(expect(token, Plain::From, next))
        }
    }
}
