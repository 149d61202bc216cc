//! The aggregates of a select.

ghost use Rattle.std.specs.Prelude.{◌≡◌, ◌∷◌, ◌++◌, [], List, IfOk};
ghost use Rattle.gl_query_reader.specs.Written.{Wsum};
ghost use Rattle.gl_query_reader.specs.States as states;
ghost use Rattle.gl_query_reader.specs.Machine as machine;
ghost use Rattle.gl_query_reader.specs.Trees.{expr_of, items_of, agg_control_of, frames_of, control_of, leads};

use crate::frames::{Frame, WsumHead};
use crate::keeping::{Beside, keep_beside};
use crate::parts::{expect, operand_in, refuse};
use crate::state::{AggControl, Control, ItemControl};
use crate::written::WrittenItems;
use crate::written_functions::WrittenAgg;
use gl_query::{Num, Nums};
use gl_query_tokens::sorts::{is_plain, number_in, open_in};
use gl_query_tokens::{Fold, Plain, Token};
use std::alloc::{AllocError, Global};

// `(` behind COUNT.
fn want_count_open(items: WrittenItems, at: u64, token: &Token) -> Option<Control>
    ensures { (fs : List states.Frame) →
        leads result fs ≡ machine.want_count_open fs (items_of items) at token.now }
{
    match open_in(token) {
        Some(open) => Some(Control::Agg(AggControl::WantCountClose { items, at, open })),
        None => refuse(items),
    }
}

// `(` behind SUM, MIN, MAX or AVG.
fn want_fold_open(
    frames: &mut Vec<Frame>,
    items: WrittenItems,
    fold: Fold,
    at: u64,
    token: &Token,
) -> Result<Option<Control>, AllocError>
    ensures { IfOk result (λ o. leads o (frames_of frames.new.items)
        ≡ machine.want_fold_open (frames_of frames.old.items) (items_of items) fold at token.now) }
{
    match open_in(token) {
        Some(open) => operand_in(
            frames,
            Frame::InFold {
                items,
                fold,
                at,
                open,
            },
        ),
        None => Ok(refuse(items)),
    }
}

// `(` behind WSUM.
fn want_wsum_open(
    frames: &mut Vec<Frame>,
    items: WrittenItems,
    at: u64,
    token: &Token,
) -> Result<Option<Control>, AllocError>
    ensures { IfOk result (λ o. leads o (frames_of frames.new.items)
        ≡ machine.want_wsum_open (frames_of frames.old.items) (items_of items) at token.now) }
{
    match open_in(token) {
        Some(open) => operand_in(frames, Frame::InWsum { items, at, open }),
        None => Ok(refuse(items)),
    }
}

fn with_weight(weights: Nums, weight: Num) -> Result<Nums, AllocError>
    ensures { IfOk result (λ more. more ≡ weights ++ weight ∷ []) }
{
    let mut more = weights;
    match more.push(weight) {
        Ok(()) => Ok(more),
        Err(_) => Err(AllocError),
    }
}

// A weight.
fn want_weight(head: WsumHead, weights: Nums, token: &Token) -> Result<Option<Control>, AllocError>
    ensures { IfOk result (λ o. (fs : List states.Frame) → leads o fs
        ≡ machine.want_weight fs (items_of head.items) head.at head.open (expr_of head.arg) weights
        token.now) }
{
    let Some(number) = number_in(token) else {
        return Ok(refuse((head, weights)));
    };
    let Beside {
        kept: head,
        made: weights,
    } = keep_beside(head, with_weight(weights, number))?;
    Ok(Some(Control::Agg(AggControl::HaveWeight { head, weights })))
}

// `,` or `]` behind a weight.
fn have_weight(head: WsumHead, weights: Nums, token: &Token) -> Option<Control>
    ensures { (fs : List states.Frame) → leads result fs
        ≡ machine.have_weight fs (items_of head.items) head.at head.open (expr_of head.arg) weights
        token.now }
{
    if is_plain(token, Plain::Comma) {
        return Some(Control::Agg(AggControl::WantWeight { head, weights }));
    }
    let next = Control::Agg(AggControl::WantWsumClose { head, weights });
    expect(token, Plain::RightSquare, next)
}

// WSUM with its weights.
fn weighted(head: WsumHead, weights: Nums) -> Control
    ensures { control_of result ≡ states.HaveAgg (items_of head.items)
        (Wsum head.at head.open (expr_of head.arg) weights) }
{
    let WsumHead {
        items,
        at,
        open,
        arg,
    } = head;
    let agg = WrittenAgg::Wsum {
        at,
        open,
        arg,
        weights,
    };
    Control::Item(ItemControl::HaveAgg { items, agg })
}

/// The place behind a token in an aggregate.
pub fn step_agg(
    alloc: Global,
    control: AggControl,
    frames: &mut Vec<Frame>,
    token: &Token,
) -> Result<Option<Control>, AllocError>
    ensures { IfOk result (λ o. leads o (frames_of frames.new.items)
        ≡ machine.step_at (agg_control_of control) (frames_of frames.old.items) token.now) }
{
    match control {
        AggControl::WantCountOpen { items, at } => Ok(want_count_open(items, at, token)),
        AggControl::WantCountClose { items, at, open } => {
            let agg = WrittenAgg::Count { at, open };
            let next = Control::Item(ItemControl::HaveAgg { items, agg });
            Ok(expect(token, Plain::Close, next))
        }
        AggControl::WantFoldOpen { items, fold, at } => want_fold_open(
            frames, items, fold, at, token,
        ),
        AggControl::WantWsumOpen { items, at } => want_wsum_open(frames, items, at, token),
        AggControl::WantWeightsOpen(head) => {
            let weights = Nums::new(alloc);
            let next = Control::Agg(AggControl::WantWeight { head, weights });
            Ok(expect(token, Plain::LeftSquare, next))
        }
        AggControl::WantWeight { head, weights } => want_weight(head, weights, token),
        AggControl::HaveWeight { head, weights } => Ok(have_weight(head, weights, token)),
        AggControl::WantWsumClose { head, weights } => {
            Ok(expect(token, Plain::Close, weighted(head, weights)))
        }
    }
}
