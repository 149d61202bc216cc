//! What may stand behind an expression.

ghost use Rattle.std.specs.Prelude.{◌≡◌, ◌∷◌, List, IfOk};
ghost use Rattle.gl_query_tokens.specs.Sorts as sorts;
ghost use Rattle.gl_query_reader.specs.States as states;
ghost use Rattle.gl_query_reader.specs.Machine as machine;
ghost use Rattle.gl_query_reader.specs.Trees.{expr_of, items_of, pick_of, query_of, frame_of, frames_of, leads};

use crate::call_steps::{after_call, begin_call};
use crate::frames::{CastHead, Frame, SelectFrom, Unnamed, WsumHead};
use crate::items::{have_item, with_item};
use crate::over_steps::after_condition;
use crate::parts::{expect, refuse};
use crate::state::{AggControl, Control, ExprControl, GroupsControl, ItemControl};
use crate::terms::end_select;
use crate::written::{WrittenExpr, WrittenItem, WrittenItems};
use crate::written_functions::WrittenAgg;
use gl_bits::boxes::{OneBox, one_box};
use gl_query::Name;
use gl_query_tokens::sorts::{is_plain, open_in};
use gl_query_tokens::{Fold, Plain, Token};
use std::alloc::{AllocError, Global};

// The column that an expression alone is.
fn bare(expr: WrittenExpr) -> Option<Name>
    ensures { result ≡ machine.bare (expr_of expr) }
{
    match expr {
        WrittenExpr::Column(name) => Some(name),
        other => {
            drop(other);
            None
        }
    }
}

// Behind a column alone, which a bracket makes the name of a function.
fn after_bare(
    frames: &mut Vec<Frame>,
    items: WrittenItems,
    name: Name,
    token: &Token,
) -> Result<Option<Control>, AllocError>
    ensures { IfOk result (λ o. leads o (frames_of frames.new.items)
        ≡ machine.bare_or_call (sorts.open_in token.now) (frames_of frames.old.items)
        (items_of items) name token.now) }
{
    match open_in(token) {
        Some(open) => begin_call(frames, items, &name, open),
        None => Ok(have_item(with_item(items, WrittenItem::Bare(name))?, token)),
    }
}

// Behind the expression of an item.
fn after_item(
    frames: &mut Vec<Frame>,
    items: WrittenItems,
    expr: WrittenExpr,
    token: &Token,
) -> Result<Option<Control>, AllocError>
    ensures { IfOk result (λ o. leads o (frames_of frames.new.items)
        ≡ machine.after_item (frames_of frames.old.items) (items_of items) (expr_of expr)
        token.now) }
{
    if is_plain(token, Plain::As) {
        let unnamed = Unnamed::Expr(expr);
        return Ok(Some(Control::Item(ItemControl::WantItemName { items, unnamed })));
    }
    match bare(expr) {
        Some(name) => after_bare(frames, items, name, token),
        None => Ok(refuse(items)),
    }
}

// Behind the expression of a filter.
fn after_filter(
    alloc: Global,
    frames: &mut Vec<Frame>,
    from: SelectFrom,
    expr: WrittenExpr,
    token: &Token,
) -> Result<Option<Control>, AllocError>
    ensures { IfOk result (λ o. leads o (frames_of frames.new.items)
        ≡ machine.after_filter (frames_of frames.old.items) (pick_of from.pick)
        (query_of from.source) from.window (expr_of expr) token.now) }
{
    let filter = Some(expr);
    if is_plain(token, Plain::Group) {
        return Ok(Some(Control::Groups(GroupsControl::WantBy { from, filter })));
    }
    end_select(alloc, frames, from, filter, token)
}

// Behind an expression in brackets.
fn after_brackets(
    alloc: Global,
    at: u64,
    expr: WrittenExpr,
    token: &Token,
) -> Result<Option<Control>, AllocError>
    ensures { IfOk result (λ o. (fs : List states.Frame) → leads o fs
        ≡ machine.after_brackets fs at (expr_of expr) token.now) }
{
    if !is_plain(token, Plain::Close) {
        return Ok(refuse(expr));
    }
    let OneBox {
        kept: at,
        boxed: inner,
    } = one_box(alloc, at, expr)?;
    let last = WrittenExpr::Brackets { at, inner };
    Ok(Some(Control::Expr(ExprControl::HaveExpr { last })))
}

// Behind the expression of a CAST.
fn after_cast(at: u64, open: u64, expr: WrittenExpr, token: &Token) -> Option<Control>
    ensures { (fs : List states.Frame) → leads result fs
        ≡ machine.after_cast fs at «open» (expr_of expr) token.now }
{
    let head = CastHead {
        at,
        open,
        inner: expr,
    };
    expect(token, Plain::As, Control::Expr(ExprControl::WantKind(head)))
}

// Behind the argument of SUM, MIN, MAX or AVG.
fn after_fold(
    items: WrittenItems,
    fold: Fold,
    at: u64,
    open: u64,
    expr: WrittenExpr,
    token: &Token,
) -> Option<Control>
    ensures { (fs : List states.Frame) → leads result fs
        ≡ machine.after_fold fs (items_of items) fold at «open» (expr_of expr) token.now }
{
    let agg = WrittenAgg::Fold {
        fold,
        at,
        open,
        arg: expr,
    };
    expect(
        token,
        Plain::Close,
        Control::Item(ItemControl::HaveAgg { items, agg }),
    )
}

// Behind the argument of WSUM.
fn after_wsum(
    items: WrittenItems,
    at: u64,
    open: u64,
    expr: WrittenExpr,
    token: &Token,
) -> Option<Control>
    ensures { (fs : List states.Frame) → leads result fs
        ≡ machine.after_wsum fs (items_of items) at «open» (expr_of expr) token.now }
{
    let head = WsumHead {
        items,
        at,
        open,
        arg: expr,
    };
    expect(
        token,
        Plain::Comma,
        Control::Agg(AggControl::WantWeightsOpen(head)),
    )
}

/// What ends an expression.
#[tactic(auto, using(crate::proofs::Stack::reductions))]
pub fn after_expr(
    alloc: Global,
    frames: &mut Vec<Frame>,
    expr: WrittenExpr,
    token: &Token,
) -> Result<Option<Control>, AllocError>
    ensures { IfOk result (λ o. leads o (frames_of frames.new.items)
        ≡ machine.after_expr (frames_of frames.old.items) (expr_of expr) token.now) }
{
    match frames.pop() {
        Some(frame) => after_expr_in(alloc, frame, frames, expr, token),
        None => Ok(refuse(expr)),
    }
}

// What ends an expression, by what it stands in.
fn after_expr_in(
    alloc: Global,
    frame: Frame,
    frames: &mut Vec<Frame>,
    expr: WrittenExpr,
    token: &Token,
) -> Result<Option<Control>, AllocError>
    ensures { IfOk result (λ o. leads o (frames_of frames.new.items) ≡ machine.after_expr
        (frame_of frame ∷ frames_of frames.old.items) (expr_of expr) token.now) }
{
    match frame {
        Frame::InBrackets { at } => after_brackets(alloc, at, expr, token),
        Frame::InCast { at, open } => Ok(after_cast(at, open, expr, token)),
        Frame::InItem { items } => after_item(frames, items, expr, token),
        Frame::InFold {
            items,
            fold,
            at,
            open,
        } => Ok(after_fold(items, fold, at, open, expr, token)),
        Frame::InWsum { items, at, open } => Ok(after_wsum(items, at, open, expr, token)),
        Frame::InCall {
            items,
            call,
            word,
            open,
        } => Ok(after_call(items, call, word, open, expr, token)),
        Frame::InCondition { head, open } => Ok(after_condition(head, open, expr, token)),
        Frame::InFilter(from) => after_filter(alloc, frames, from, expr, token),
        other => Ok(refuse((other, expr))),
    }
}
