//! LAG and LAST_VALUE, whose names are no keywords.

ghost use Rattle.std.specs.Prelude.{◌≡◌, List, IfOk, Some};
ghost use Rattle.gl_query_tokens.specs.declared.token.Plain.TheVariants as plain;
ghost use Rattle.gl_query_reader.specs.declared.over_state.Call.TheVariants as calls;
ghost use Rattle.gl_query_reader.specs.Written.{LagOf};
ghost use Rattle.gl_query_reader.specs.States as states;
ghost use Rattle.gl_query_reader.specs.Framing as framing;
ghost use Rattle.gl_query_reader.specs.Trees.{expr_of, items_of, frames_of, leads};

use crate::frames::Frame;
use crate::over_state::{Call, LagHead, OverControl};
use crate::parts::{expect, operand_in, refuse};
use crate::state::Control;
use crate::written::{WrittenExpr, WrittenItems};
use crate::written_functions::{WrittenHead, WrittenOverAgg};
use gl_query::{Name, Num};
use gl_query_tokens::sorts::{is_plain, is_small, number_in, open_in};
use gl_query_tokens::{Plain, Spelling, Token, Word};
use std::alloc::AllocError;

// LAG or LAST_VALUE with a capital.
fn capital_call(word: Word) -> Option<Call>
    ensures { result ≡ framing.capital_call word }
{
    match word {
        Word::Lag => Some(Call::Lag),
        Word::LastValue => Some(Call::LastValue),
        _ => None,
    }
}

// The function that a name with a bracket behind it is.
fn named_call(name: &Name) -> Option<Call>
    ensures { result ≡ framing.named_call name.now }
{
    if is_small(name, Word::Lag) {
        return Some(Call::Lag);
    }
    if is_small(name, Word::LastValue) {
        return Some(Call::LastValue);
    }
    None
}

/// `(` behind the name that an item is so far.
pub fn begin_call(
    frames: &mut Vec<Frame>,
    items: WrittenItems,
    name: &Name,
    open: u64,
) -> Result<Option<Control>, AllocError>
    ensures { IfOk result (λ o. leads o (frames_of frames.new.items)
        ≡ framing.begin_call (frames_of frames.old.items) (items_of items) name.now «open») }
{
    let word = Spelling::Small { at: name.at };
    match named_call(name) {
        Some(call) => operand_in(
            frames,
            Frame::InCall {
                items,
                call,
                word,
                open,
            },
        ),
        None => Ok(refuse(items)),
    }
}

/// A word with a capital where an item begins.
pub fn want_call(items: WrittenItems, word: Word, at: u64) -> Option<Control>
    ensures { (fs : List states.Frame) →
        leads result fs ≡ framing.want_call (items_of items) fs word at }
{
    match capital_call(word) {
        Some(call) => Some(Control::Over(OverControl::WantCallOpen { items, call, at })),
        None => refuse(items),
    }
}

/// `(` behind LAG or LAST_VALUE with a capital.
pub fn want_call_open(
    frames: &mut Vec<Frame>,
    items: WrittenItems,
    call: Call,
    at: u64,
    token: &Token,
) -> Result<Option<Control>, AllocError>
    ensures { IfOk result (λ o. leads o (frames_of frames.new.items)
        ≡ framing.want_call_open (frames_of frames.old.items) (items_of items) call at token.now) }
{
    let word = Spelling::Capital { at };
    match open_in(token) {
        Some(open) => operand_in(
            frames,
            Frame::InCall {
                items,
                call,
                word,
                open,
            },
        ),
        None => Ok(refuse(items)),
    }
}

// Behind the argument of LAST_VALUE.
fn after_last_value(
    items: WrittenItems,
    word: Spelling,
    open: u64,
    arg: WrittenExpr,
    token: &Token,
) -> Option<Control>
    ensures { (fs : List states.Frame) → leads result fs
        ≡ framing.after_call fs (items_of items) calls.LastValue word «open» (expr_of arg) token.now }
{
    let agg = WrittenOverAgg::LastValue { word, open, arg };
    let head = WrittenHead::Ranged { agg, filter: None };
    expect(
        token,
        Plain::Close,
        Control::Over(OverControl::WantOver { items, head }),
    )
}

// Behind the argument of LAG.
fn after_lag(
    items: WrittenItems,
    word: Spelling,
    open: u64,
    arg: WrittenExpr,
    token: &Token,
) -> Option<Control>
    ensures { (fs : List states.Frame) → leads result fs
        ≡ framing.after_call fs (items_of items) calls.Lag word «open» (expr_of arg) token.now }
{
    if is_plain(token, Plain::Comma) {
        let head = LagHead {
            items,
            word,
            open,
            arg,
        };
        return Some(Control::Over(OverControl::WantBack(head)));
    }
    let head = WrittenHead::Lag {
        word,
        open,
        arg,
        back: None,
    };
    expect(
        token,
        Plain::Close,
        Control::Over(OverControl::WantOver { items, head }),
    )
}

/// Behind the argument of LAG or LAST_VALUE.
pub fn after_call(
    items: WrittenItems,
    call: Call,
    word: Spelling,
    open: u64,
    arg: WrittenExpr,
    token: &Token,
) -> Option<Control>
    ensures { (fs : List states.Frame) → leads result fs
        ≡ framing.after_call fs (items_of items) call word «open» (expr_of arg) token.now }
{
    match call {
        Call::LastValue => after_last_value(items, word, open, arg, token),
        Call::Lag => after_lag(items, word, open, arg, token),
    }
}

/// The number of rows behind the argument of LAG.
pub fn want_back(head: LagHead, token: &Token) -> Option<Control>
    ensures { (fs : List states.Frame) → leads result fs ≡ framing.want_back fs
        (items_of head.items) head.word head.open (expr_of head.arg) token.now }
{
    match number_in(token) {
        Some(back) => Some(Control::Over(OverControl::WantLagClose { head, back })),
        None => refuse(head),
    }
}

/// `)` behind the number of LAG.
pub fn close_lag(head: LagHead, back: Num, token: &Token) -> Option<Control>
    ensures { (fs : List states.Frame) → leads result fs ≡ states.expected plain.Close
        (states.WantOver (items_of head.items) (LagOf head.word head.open (expr_of head.arg)
        (Some back))) fs token.now }
{
    let LagHead {
        items,
        word,
        open,
        arg,
    } = head;
    let head = WrittenHead::Lag {
        word,
        open,
        arg,
        back: Some(back),
    };
    expect(
        token,
        Plain::Close,
        Control::Over(OverControl::WantOver { items, head }),
    )
}
