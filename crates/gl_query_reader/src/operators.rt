//! Operators and what binds them.

ghost use Rattle.std.specs.Prelude.{◌≡◌, ◌<◌, true, length, vec_len, IfOk};
ghost use Rattle.gl_query_reader.specs.Written.{Binary, Flip, Not, looseness, left_looseness};
ghost use Rattle.gl_query_reader.specs.Machine as machine;
ghost use Rattle.gl_query_reader.specs.Trees.{expr_of, frame_of, frames_of};

use crate::frames::Frame;
use crate::written::WrittenExpr;
use gl_bits::boxes::{OneBox, TwoBoxes, one_box, two_boxes};
use gl_query::Op;
use std::alloc::{AllocError, Global};

/// How loosely an operator binds.
pub fn looseness(op: Op) -> u8
    ensures { result ≡ looseness op }
{
    match op {
        Op::Mul => 2,
        Op::Add | Op::Sub => 3,
        Op::ShiftLeft | Op::ShiftRight => 4,
        Op::BitAnd => 5,
        Op::BitXor => 6,
        Op::BitOr => 7,
        Op::Eq | Op::Ne | Op::Lt | Op::Le | Op::Gt | Op::Ge => 8,
        Op::And => 10,
        Op::Or => 11,
    }
}

/// How loose its left side may be.
pub fn left_looseness(op: Op) -> u8
    ensures { result ≡ left_looseness op }
{
    match op {
        Op::Eq | Op::Ne | Op::Lt | Op::Le | Op::Gt | Op::Ge => 7,
        Op::Mul
        | Op::Add
        | Op::Sub
        | Op::ShiftLeft
        | Op::ShiftRight
        | Op::BitAnd
        | Op::BitXor
        | Op::BitOr
        | Op::And
        | Op::Or => looseness(op),
    }
}

// What is looser than all that may stand in this frame.
fn room_in(frame: &Frame) -> u8
    ensures { result ≡ machine.room_in (frame_of frame.now) }
{
    match frame {
        Frame::LeftOf { op, .. } => looseness(*op),
        Frame::FlipOf { .. } => 2,
        Frame::NotOf { .. } => 9,
        _ => 12,
    }
}

/// What is looser than all that may stand in the innermost frame.
pub fn room(frames: &[Frame]) -> u8
    ensures { result ≡ machine.room (frames_of frames.now) }
{
    match frames.last() {
        Some(frame) => room_in(frame),
        None => 12,
    }
}

// Whether a frame is an operator that binds at least as tight.
fn binds(frame: &Frame, most: u8) -> bool
    ensures { result ≡ machine.binds most (frame_of frame.now) }
{
    match frame {
        Frame::LeftOf { op, .. } => looseness(*op) <= most,
        Frame::FlipOf { .. } => 1 <= most,
        Frame::NotOf { .. } => 9 <= most,
        _ => false,
    }
}

fn binary(
    alloc: Global,
    op: Op,
    at: u64,
    left: WrittenExpr,
    right: WrittenExpr,
) -> Result<WrittenExpr, AllocError>
    ensures { IfOk result (λ e. expr_of e ≡ Binary op at (expr_of left) (expr_of right)) }
{
    let TwoBoxes {
        kept: at,
        first: left,
        second: right,
    } = two_boxes(alloc, at, left, right)?;
    Ok(WrittenExpr::Binary {
        op,
        at,
        left,
        right,
    })
}

fn negated(alloc: Global, at: u64, expr: WrittenExpr) -> Result<WrittenExpr, AllocError>
    ensures { IfOk result (λ e. expr_of e ≡ Not at (expr_of expr)) }
{
    let OneBox {
        kept: at,
        boxed: inner,
    } = one_box(alloc, at, expr)?;
    Ok(WrittenExpr::Not { at, inner })
}

fn flipped(alloc: Global, at: u64, expr: WrittenExpr) -> Result<WrittenExpr, AllocError>
    ensures { IfOk result (λ e. expr_of e ≡ Flip at (expr_of expr)) }
{
    let OneBox {
        kept: at,
        boxed: inner,
    } = one_box(alloc, at, expr)?;
    Ok(WrittenExpr::Flip { at, inner })
}

// Whether the innermost frame is an operator that binds at least as tight.
fn last_binds(frames: &[Frame], most: u8) -> bool
    ensures is { result ≡ machine.last_binds most (frames_of frames.now) }
    ensures some { result ≡ true → 0 < length frames.now }
{
    match frames.last() {
        Some(frame) => binds(frame, most),
        None => false,
    }
}

// Takes the innermost operator, and gives it its last operand.
#[tactic(auto, using(crate::proofs::Stack::reductions))]
fn apply_last(
    alloc: Global,
    frames: &mut Vec<Frame>,
    expr: WrittenExpr,
) -> Result<WrittenExpr, AllocError>
    ensures is { IfOk result (λ e. machine.apply_last (frames_of frames.old.items) (expr_of expr)
        ≡ (frames_of frames.new.items, expr_of e)) }
    ensures shorter { 0 < vec_len frames.old → vec_len frames.new < vec_len frames.old }
{
    match frames.pop() {
        Some(Frame::LeftOf { left, op, at }) => binary(alloc, op, at, left, expr),
        Some(Frame::FlipOf { at }) => flipped(alloc, at, expr),
        Some(Frame::NotOf { at }) => negated(alloc, at, expr),
        other => {
            drop(other);
            Ok(expr)
        }
    }
}

/// The expression with the operators before it that bind at least as tight.
#[tactic(auto, using(crate::proofs::Stack::reductions))]
pub fn reduced(
    alloc: Global,
    frames: &mut Vec<Frame>,
    expr: WrittenExpr,
    most: u8,
) -> Result<WrittenExpr, AllocError>
    ensures { IfOk result (λ e. machine.reduced most (frames_of frames.old.items) (expr_of expr)
        ≡ (frames_of frames.new.items, expr_of e)) }
{
    let mut expr = expr;
    while last_binds(frames.as_slice(), most) {
        expr = apply_last(alloc, frames, expr)?;
    }
    Ok(expr)
}
