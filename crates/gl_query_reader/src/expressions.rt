//! Expressions.

ghost use Rattle.std.specs.Prelude.{◌≡◌, List, IfOk};
ghost use Rattle.gl_query_reader.specs.Written.{Cast, Column, Letters};
ghost use Rattle.gl_query_reader.specs.States as states;
ghost use Rattle.gl_query_reader.specs.Machine as machine;
ghost use Rattle.gl_query_reader.specs.Trees.{expr_of, expr_control_of, frames_of, leads};

use crate::following::after_expr;
use crate::frames::{CastHead, Frame};
use crate::operators::{left_looseness, looseness, reduced, room};
use crate::parts::{cloned, cloned_text, keep_named, operand_in, refuse};
use crate::state::{Control, ExprControl};
use crate::written::WrittenExpr;
use gl_bits::boxes::{OneBox, one_box};
use gl_query::{Name, Op, TextBytes};
use gl_query_tokens::sorts::{is_plain, number_in, open_in};
use gl_query_tokens::{Plain, Token};
use gl_schema::kind_named;
use gl_values::Kind;
use std::alloc::{AllocError, Global};

// An operator behind an expression.
fn with_operator(
    op: Op,
    at: u64,
    frames: &mut Vec<Frame>,
    left: WrittenExpr,
) -> Result<Option<Control>, AllocError>
    ensures { IfOk result (λ o. leads o (frames_of frames.new.items)
        ≡ machine.with_operator op at (frames_of frames.old.items, expr_of left)) }
{
    if looseness(op) >= room(frames.as_slice()) {
        return Ok(refuse(left));
    }
    operand_in(frames, Frame::LeftOf { left, op, at })
}

// NOT stands where an operand of AND and OR may.
fn with_not(at: u64, frames: &mut Vec<Frame>) -> Result<Option<Control>, AllocError>
    ensures { IfOk result (λ o. leads o (frames_of frames.new.items)
        ≡ machine.with_not at (frames_of frames.old.items)) }
{
    if room(frames.as_slice()) <= 9 {
        return Ok(None);
    }
    operand_in(frames, Frame::NotOf { at })
}

// `~` stands where any operand may.
fn with_tilde(at: u64, frames: &mut Vec<Frame>) -> Result<Option<Control>, AllocError>
    ensures { IfOk result (λ o. leads o (frames_of frames.new.items)
        ≡ machine.with_tilde at (frames_of frames.old.items)) }
{
    if room(frames.as_slice()) <= 1 {
        return Ok(None);
    }
    operand_in(frames, Frame::FlipOf { at })
}

/// An operand, or what opens one.
pub fn want_operand(
    alloc: Global,
    frames: &mut Vec<Frame>,
    token: &Token,
) -> Result<Option<Control>, AllocError>
    ensures { IfOk result (λ o. leads o (frames_of frames.new.items)
        ≡ machine.want_operand (frames_of frames.old.items) token.now) }
{
    match token {
        Token::Name(name) => have_column(alloc, name),
        Token::Number(number) => Ok(have(WrittenExpr::Number(*number))),
        Token::Operator { op, at } => Ok(begin_minus(*op, *at)),
        Token::Letters { text, at } => have_letters(alloc, text, *at),
        Token::Open { at } => operand_in(frames, Frame::InBrackets { at: *at }),
        Token::Colon { at } => Ok(Some(Control::Expr(ExprControl::WantParameter { at: *at }))),
        Token::Cast { at } => Ok(Some(Control::Expr(ExprControl::WantCastOpen { at: *at }))),
        Token::Tilde { at } => with_tilde(*at, frames),
        Token::Not { at } => with_not(*at, frames),
        _ => Ok(None),
    }
}

// A minus sign where an operand may begin.
fn begin_minus(op: Op, at: u64) -> Option<Control>
    ensures { (fs : List states.Frame) → leads result fs ≡ machine.begin_minus op at fs }
{
    match op {
        Op::Sub => Some(Control::Expr(ExprControl::WantMinus { at })),
        _ => None,
    }
}

// The number behind a minus sign.
fn want_minus(at: u64, token: &Token) -> Option<Control>
    ensures { (fs : List states.Frame) → leads result fs ≡ machine.want_minus fs at token.now }
{
    match number_in(token) {
        Some(number) => have(WrittenExpr::Minus { at, number }),
        None => None,
    }
}

// The name behind a colon.
fn want_parameter(alloc: Global, at: u64, token: &Token) -> Result<Option<Control>, AllocError>
    ensures { IfOk result (λ o. (fs : List states.Frame) →
        leads o fs ≡ machine.want_parameter fs at token.now) }
{
    match keep_named(alloc, at, token)? {
        Some(found) => Ok(have(WrittenExpr::Parameter {
            at: found.kept,
            name: found.made,
        })),
        None => Ok(None),
    }
}

// Behind an expression.
fn have(last: WrittenExpr) -> Option<Control>
    ensures { (fs : List states.Frame) →
        leads result fs ≡ states.goes (states.HaveExpr (expr_of last)) fs }
{
    Some(Control::Expr(ExprControl::HaveExpr { last }))
}

// Behind a column.
fn have_column(alloc: Global, name: &Name) -> Result<Option<Control>, AllocError>
    ensures { IfOk result (λ o. (fs : List states.Frame) →
        leads o fs ≡ states.goes (states.HaveExpr (Column name.now)) fs) }
{
    Ok(have(WrittenExpr::Column(cloned(alloc, name)?)))
}

// Behind a text.
fn have_letters(alloc: Global, text: &TextBytes, at: u64) -> Result<Option<Control>, AllocError>
    ensures { IfOk result (λ o. (fs : List states.Frame) →
        leads o fs ≡ states.goes (states.HaveExpr (Letters text.now at)) fs) }
{
    let text = cloned_text(alloc, text)?;
    Ok(have(WrittenExpr::Letters { text, at }))
}

// `(` behind CAST.
fn want_cast_open(
    frames: &mut Vec<Frame>,
    at: u64,
    token: &Token,
) -> Result<Option<Control>, AllocError>
    ensures { IfOk result (λ o. leads o (frames_of frames.new.items)
        ≡ machine.want_cast_open (frames_of frames.old.items) at token.now) }
{
    match open_in(token) {
        Some(open) => operand_in(frames, Frame::InCast { at, open }),
        None => Ok(None),
    }
}

// The word of a kind.
fn want_kind(alloc: Global, head: CastHead, token: &Token) -> Result<Option<Control>, AllocError>
    ensures { IfOk result (λ o. (fs : List states.Frame) → leads o fs
        ≡ machine.want_kind fs head.at head.open (expr_of head.inner) token.now) }
{
    match keep_named(alloc, head, token)? {
        Some(found) => Ok(with_kind(found.kept, found.made)),
        None => Ok(None),
    }
}

// A word that may name a kind.
fn with_kind(head: CastHead, word: Name) -> Option<Control>
    ensures { (fs : List states.Frame) → leads result fs
        ≡ machine.with_kind fs head.at head.open (expr_of head.inner) word }
{
    match kind_named(word.text.as_slice()) {
        Some(kind) => Some(Control::Expr(ExprControl::WantCastClose { head, word, kind })),
        None => refuse((head, word)),
    }
}

// `)` behind a kind.
fn want_cast_close(
    alloc: Global,
    head: CastHead,
    word: Name,
    kind: Kind,
    token: &Token,
) -> Result<Option<Control>, AllocError>
    ensures { IfOk result (λ o. (fs : List states.Frame) → leads o fs
        ≡ machine.want_cast_close fs head.at head.open (expr_of head.inner) word kind token.now) }
{
    if !is_plain(token, Plain::Close) {
        return Ok(refuse((head, word)));
    }
    Ok(have(cast(alloc, head, word, kind)?))
}

fn cast(alloc: Global, head: CastHead, word: Name, kind: Kind) -> Result<WrittenExpr, AllocError>
    ensures { IfOk result (λ e. expr_of e
        ≡ Cast head.at head.open (expr_of head.inner) word kind) }
{
    let CastHead { at, open, inner } = head;
    let OneBox {
        kept: word,
        boxed: inner,
    } = one_box(alloc, word, inner)?;
    Ok(WrittenExpr::Cast {
        at,
        open,
        inner,
        word,
        kind,
    })
}

fn is_operator(token: &Token) -> bool
    ensures { result ≡ machine.is_operator token.now }
{
    matches!(token, Token::Operator { .. })
}

// An operator behind an expression.
fn have_operator(
    alloc: Global,
    frames: &mut Vec<Frame>,
    last: WrittenExpr,
    token: &Token,
) -> Result<Option<Control>, AllocError>
    ensures { IfOk result (λ o. leads o (frames_of frames.new.items)
        ≡ machine.have_operator (frames_of frames.old.items) (expr_of last) token.now) }
{
    match token {
        Token::Operator { op, at } => {
            let left = reduced(alloc, frames, last, left_looseness(*op))?;
            with_operator(*op, *at, frames, left)
        }
        _ => Ok(refuse(last)),
    }
}

// An operator behind an expression, or what ends it.
fn have_expr(
    alloc: Global,
    frames: &mut Vec<Frame>,
    last: WrittenExpr,
    token: &Token,
) -> Result<Option<Control>, AllocError>
    ensures { IfOk result (λ o. leads o (frames_of frames.new.items)
        ≡ machine.have_expr (frames_of frames.old.items) (expr_of last) token.now) }
{
    if is_operator(token) {
        return have_operator(alloc, frames, last, token);
    }
    let expr = reduced(alloc, frames, last, 11)?;
    after_expr(alloc, frames, expr, token)
}

/// The place behind a token in an expression.
pub fn step_expr(
    alloc: Global,
    control: ExprControl,
    frames: &mut Vec<Frame>,
    token: &Token,
) -> Result<Option<Control>, AllocError>
    ensures { IfOk result (λ o. leads o (frames_of frames.new.items)
        ≡ machine.step_at (expr_control_of control) (frames_of frames.old.items) token.now) }
{
    match control {
        ExprControl::WantOperand => want_operand(alloc, frames, token),
        ExprControl::WantMinus { at } => Ok(want_minus(at, token)),
        ExprControl::WantParameter { at } => want_parameter(alloc, at, token),
        ExprControl::HaveExpr { last } => have_expr(alloc, frames, last, token),
        ExprControl::WantCastOpen { at } => want_cast_open(frames, at, token),
        ExprControl::WantKind(head) => want_kind(alloc, head, token),
        ExprControl::WantCastClose { head, word, kind } => {
            want_cast_close(alloc, head, word, kind, token)
        }
    }
}
