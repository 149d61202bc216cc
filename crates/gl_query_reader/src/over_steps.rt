//! Functions with OVER.

ghost use Rattle.std.specs.Prelude.{◌≡◌, List, IfOk, option_map};
ghost use Rattle.gl_query_tokens.specs.Sorts as sorts;
ghost use Rattle.gl_query_tokens.specs.declared.token.Word.TheVariants as words;
ghost use Rattle.gl_query_reader.specs.States as states;
ghost use Rattle.gl_query_reader.specs.Framing as framing;
ghost use Rattle.gl_query_reader.specs.Machine as machine;
ghost use Rattle.gl_query_reader.specs.Trees.{agg_of, expr_of, items_of, over_agg_of, written_head_of, over_control_of, frames_of, leads};

use crate::call_steps::{close_lag, want_back, want_call_open};
use crate::frames::{Frame, GroupsHead, Unnamed};
use crate::over_state::{FilterHead, OverControl, OverHead, PartHead, RowsSoFar};
use crate::parts::{expect, operand_in, refuse};
use crate::row_steps::{rows_step, whole_rows};
use crate::state::{Control, GroupsControl, ItemControl};
use crate::written::{Part, WrittenExpr, WrittenItems};
use crate::written_functions::{
    WrittenAgg, WrittenFilter, WrittenHead, WrittenOver, WrittenOverAgg,
};
use gl_query_tokens::sorts::{by_in, is_plain, open_in, word_in};
use gl_query_tokens::{Plain, Token, Word};
use std::alloc::AllocError;

// OVER behind what stands before it.
fn begin_over(items: WrittenItems, head: WrittenHead, token: &Token) -> Option<Control>
    ensures { (fs : List states.Frame) → leads result fs
        ≡ framing.begin_over fs (items_of items) (written_head_of head) token.now }
{
    match word_in(token, Word::Over) {
        Some(word) => {
            let head = OverHead { items, head, word };
            Some(Control::Over(OverControl::WantOverOpen(head)))
        }
        None => refuse((items, head)),
    }
}

// FILTER or OVER behind a function over rows.
fn filter_or_over(items: WrittenItems, agg: WrittenOverAgg, token: &Token) -> Option<Control>
    ensures { (fs : List states.Frame) → leads result fs
        ≡ framing.filter_or_over (sorts.word_in words.Filter token.now) fs (items_of items)
        (over_agg_of agg) token.now }
{
    match word_in(token, Word::Filter) {
        Some(word) => {
            let head = FilterHead { items, agg, word };
            Some(Control::Over(OverControl::WantFilterOpen(head)))
        }
        None => begin_over(items, WrittenHead::Ranged { agg, filter: None }, token),
    }
}

// OVER, or FILTER where none stands yet behind a function over rows.
fn want_over(items: WrittenItems, head: WrittenHead, token: &Token) -> Option<Control>
    ensures { (fs : List states.Frame) → leads result fs
        ≡ framing.want_over fs (items_of items) (written_head_of head) token.now }
{
    match head {
        WrittenHead::Lag {
            word,
            open,
            arg,
            back,
        } => {
            let head = WrittenHead::Lag {
                word,
                open,
                arg,
                back,
            };
            begin_over(items, head, token)
        }
        WrittenHead::Ranged { agg, filter } => match filter {
            None => filter_or_over(items, agg, token),
            Some(filter) => {
                let filter = Some(filter);
                begin_over(items, WrittenHead::Ranged { agg, filter }, token)
            }
        },
    }
}

// The function over rows that an aggregate is, where OVER may stand behind it.
fn ranged(agg: WrittenAgg) -> Option<WrittenOverAgg>
    ensures { option_map over_agg_of result ≡ framing.ranged (agg_of agg) }
{
    match agg {
        WrittenAgg::Count { at, open } => Some(WrittenOverAgg::Count { at, open }),
        WrittenAgg::Fold {
            fold,
            at,
            open,
            arg,
        } => Some(WrittenOverAgg::Fold {
            fold,
            at,
            open,
            arg,
        }),
        other => {
            drop(other);
            None
        }
    }
}

/// Behind an aggregate.
pub fn have_agg(items: WrittenItems, agg: WrittenAgg, token: &Token) -> Option<Control>
    ensures { (fs : List states.Frame) → leads result fs
        ≡ framing.have_agg fs (items_of items) (agg_of agg) token.now }
{
    if is_plain(token, Plain::As) {
        let unnamed = Unnamed::Agg(agg);
        return Some(Control::Item(ItemControl::WantItemName { items, unnamed }));
    }
    match ranged(agg) {
        Some(agg) => filter_or_over(items, agg, token),
        None => refuse(items),
    }
}

// `(` behind FILTER.
fn want_filter_open(head: FilterHead, token: &Token) -> Option<Control>
    ensures { (fs : List states.Frame) → leads result fs ≡ framing.want_filter_open fs
        (items_of head.items) (over_agg_of head.agg) head.word token.now }
{
    match open_in(token) {
        Some(open) => Some(Control::Over(OverControl::WantFilterWhere { head, open })),
        None => refuse(head),
    }
}

// WHERE in the bracket behind FILTER.
fn want_filter_where(
    frames: &mut Vec<Frame>,
    head: FilterHead,
    open: u64,
    token: &Token,
) -> Result<Option<Control>, AllocError>
    ensures { IfOk result (λ o. leads o (frames_of frames.new.items)
        ≡ framing.want_filter_where (frames_of frames.old.items) (items_of head.items)
        (over_agg_of head.agg) head.word «open» token.now) }
{
    if !is_plain(token, Plain::Where) {
        return Ok(refuse(head));
    }
    operand_in(frames, Frame::InCondition { head, open })
}

/// Behind the condition of a FILTER.
pub fn after_condition(
    head: FilterHead,
    open: u64,
    cond: WrittenExpr,
    token: &Token,
) -> Option<Control>
    ensures { (fs : List states.Frame) → leads result fs
        ≡ framing.after_condition fs (items_of head.items) (over_agg_of head.agg) head.word «open»
        (expr_of cond) token.now }
{
    let FilterHead { items, agg, word } = head;
    let filter = Some(WrittenFilter { word, open, cond });
    let head = WrittenHead::Ranged { agg, filter };
    expect(
        token,
        Plain::Close,
        Control::Over(OverControl::WantOver { items, head }),
    )
}

/// Where the rows behind OVER begin to be read.
pub fn rows_first(head: &WrittenHead) -> RowsSoFar
    ensures { result ≡ framing.rows_first (written_head_of head.now) }
{
    match head {
        WrittenHead::Lag { .. } => RowsSoFar::WantClose { rows: None },
        WrittenHead::Ranged { .. } => RowsSoFar::WantRows,
    }
}

// `(` behind OVER.
fn want_over_open(head: OverHead, token: &Token) -> Option<Control>
    ensures { (fs : List states.Frame) → leads result fs ≡ framing.want_over_open fs
        (items_of head.items) (written_head_of head.head) head.word token.now }
{
    match open_in(token) {
        Some(open) => Some(Control::Over(OverControl::WantPart { head, open })),
        None => refuse(head),
    }
}

// `)` behind the rows.
fn close_over(
    head: OverHead,
    open: u64,
    part: Option<Part>,
    rows: RowsSoFar,
    token: &Token,
) -> Option<Control>
    ensures { (fs : List states.Frame) → leads result fs ≡ framing.close_over fs
        (items_of head.items) (written_head_of head.head) head.word «open» part rows token.now }
{
    match whole_rows(rows) {
        Some(rows) => {
            let OverHead { items, head, word } = head;
            let over = WrittenOver {
                head,
                word,
                open,
                part,
                rows,
            };
            let next = Control::Over(OverControl::WantOverAs { items, over });
            expect(token, Plain::Close, next)
        }
        None => refuse((head, part)),
    }
}

// In the bracket behind OVER, behind PARTITION.
fn in_over(
    head: OverHead,
    open: u64,
    part: Option<Part>,
    rows: RowsSoFar,
    token: &Token,
) -> Option<Control>
    ensures { (fs : List states.Frame) → leads result fs ≡ framing.in_over fs
        (items_of head.items) (written_head_of head.head) head.word «open» part rows token.now }
{
    match rows_step(rows, token) {
        Some(rows) => Some(Control::Over(OverControl::InOver {
            head,
            open,
            part,
            rows,
        })),
        None => close_over(head, open, part, rows, token),
    }
}

// PARTITION, or what stands behind it.
fn want_part(head: OverHead, open: u64, token: &Token) -> Option<Control>
    ensures { (fs : List states.Frame) → leads result fs ≡ framing.want_part fs
        (items_of head.items) (written_head_of head.head) head.word «open» token.now }
{
    match word_in(token, Word::Partition) {
        Some(word) => {
            let head = PartHead {
                over: head,
                open,
                word,
            };
            Some(Control::Over(OverControl::WantPartBy(head)))
        }
        None => {
            let rows = rows_first(&head.head);
            in_over(head, open, None, rows, token)
        }
    }
}

// BY behind PARTITION.
fn want_part_by(head: PartHead, token: &Token) -> Option<Control>
    ensures { (fs : List states.Frame) → leads result fs ≡ framing.want_part_by fs
        (items_of head.over.items) (written_head_of head.over.head) head.over.word head.open
        head.word token.now }
{
    match by_in(token) {
        Some(at) => {
            let head = GroupsHead::Over(head);
            Some(Control::Groups(GroupsControl::WantKey { head, at }))
        }
        None => refuse(head),
    }
}

/// The place behind a token in a function with OVER.
pub fn step_over(
    control: OverControl,
    frames: &mut Vec<Frame>,
    token: &Token,
) -> Result<Option<Control>, AllocError>
    ensures { IfOk result (λ o. leads o (frames_of frames.new.items)
        ≡ machine.step_at (over_control_of control) (frames_of frames.old.items) token.now) }
{
    match control {
        OverControl::WantCallOpen { items, call, at } => {
            want_call_open(frames, items, call, at, token)
        }
        OverControl::WantBack(head) => Ok(want_back(head, token)),
        OverControl::WantLagClose { head, back } => Ok(close_lag(head, back, token)),
        OverControl::WantOver { items, head } => Ok(want_over(items, head, token)),
        OverControl::WantFilterOpen(head) => Ok(want_filter_open(head, token)),
        OverControl::WantFilterWhere { head, open } => {
            want_filter_where(frames, head, open, token)
        }
        OverControl::WantOverOpen(head) => Ok(want_over_open(head, token)),
        OverControl::WantPart { head, open } => Ok(want_part(head, open, token)),
        OverControl::WantPartBy(head) => Ok(want_part_by(head, token)),
        OverControl::InOver {
            head,
            open,
            part,
            rows,
        } => Ok(in_over(head, open, part, rows, token)),
        OverControl::WantOverAs { items, over } => {
            let unnamed = Unnamed::Over(over);
            let next = Control::Item(ItemControl::WantItemName { items, unnamed });
            Ok(expect(token, Plain::As, next))
        }
    }
}
