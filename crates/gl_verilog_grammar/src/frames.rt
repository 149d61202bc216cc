//! What is open while a module is read, the top of the stack last.

ghost use Rattle.std.specs.Prelude.{◌≡◌, ◌<◌, length, map, true, false, vec_len, IfOk, MatchBool, Some, None};
ghost use Rattle.gl_verilog_grammar.specs.Stages as machine;
ghost use Rattle.gl_verilog.specs.Written.{looseness};
ghost use Rattle.gl_verilog_tokens.specs.View.{infix_of, expr_of, statement_of};
ghost use Rattle.gl_verilog_grammar.specs.View.{frame_of, frames_of, stated_of};

use crate::stacks::{put, with_last};
use crate::trees::{chosen, else_of, infixed, prefixed, then_of};
use gl_verilog_tokens::{InfixOp, PrefixOp, Word, WrittenExpr, WrittenStatement};
use std::alloc::{AllocError, Global};
use std::mem;

/// What is open: brackets, operators that wait for their right side, the beginnings of items and
/// statements.
#[derive(Drop)]
pub enum Frame<'a> {
    /// Brackets around an expression.
    InParens,
    /// Braces around parts.
    InBraces {
        /// The place of the opening brace.
        at: usize,
        /// The parts that are complete.
        parts: Vec<WrittenExpr<'a>>,
    },
    /// The brackets behind the name of a memory that is read.
    InIndex(Word<'a>),
    /// A prefix operator that waits for its operand.
    PrefixOf {
        /// The operator.
        op: PrefixOp,
        /// The place of the operator.
        at: usize,
    },
    /// An operator that waits for its right operand.
    InfixOf {
        /// The operator.
        op: InfixOp,
        /// The place of the operator.
        at: usize,
        /// Its left operand.
        left: Box<WrittenExpr<'a>>,
    },
    /// A conditional that waits for its first value.
    TestOf {
        /// The place of `?`.
        at: usize,
        /// The test.
        test: Box<WrittenExpr<'a>>,
    },
    /// A conditional that waits for its second value.
    ColonOf {
        /// The place of `?`.
        at: usize,
        /// The test.
        test: Box<WrittenExpr<'a>>,
        /// The first value.
        yes: Box<WrittenExpr<'a>>,
    },
    /// An assignment of this target that waits for its value.
    AssignTo(Word<'a>),
    /// An update of this register that waits for its value.
    UpdateTo(Word<'a>),
    /// The brackets behind the name of a memory that is written.
    AddressFor(Word<'a>),
    /// An update of a memory's word that waits for its value.
    UpdateWordTo {
        /// The name of the memory.
        target: Word<'a>,
        /// The address of the word.
        address: Box<WrittenExpr<'a>>,
    },
    /// The brackets behind an `if`, which stands at this place.
    IfTest(usize),
    /// An `if` that waits for its first branch.
    ThenOf {
        /// The place of `if`.
        at: usize,
        /// The condition.
        test: Box<WrittenExpr<'a>>,
    },
    /// An `if` that waits for its second branch.
    ElseOf {
        /// The place of `if`.
        at: usize,
        /// The condition.
        test: Box<WrittenExpr<'a>>,
        /// The first branch.
        yes: Box<WrittenStatement<'a>>,
    },
    /// A list between `begin` and `end`, with the statements that are complete.
    InBegin(Vec<WrittenStatement<'a>>),
    /// A block that is clocked by this name and waits for its body.
    BodyOf(Word<'a>),
}

pub(crate) fn looseness_of(op: InfixOp) -> u8
    ensures { result ≡ looseness (infix_of op) }
{
    match op {
        InfixOp::Times => 2,
        InfixOp::Added | InfixOp::Subtracted => 3,
        InfixOp::Below | InfixOp::AtMost | InfixOp::Above | InfixOp::AtLeast => 4,
        InfixOp::Equal | InfixOp::NotEqual => 5,
        InfixOp::BitAnd => 6,
        InfixOp::BitXor => 7,
        InfixOp::BitOr => 8,
        InfixOp::LogicalAnd => 9,
        InfixOp::LogicalOr => 10,
    }
}

// Whether a frame is an operator that binds at least as tight as the level.
#[tactic(auto, unfolding(crate::specs::View::frame_of))]
pub(crate) fn binds(frame: &Frame, level: u8) -> bool
    ensures { result ≡ machine.binds level (frame_of frame.now) }
{
    match frame {
        Frame::PrefixOf { .. } => true,
        Frame::InfixOf { op, .. } => looseness_of(*op) <= level,
        Frame::ColonOf { .. } => 11 <= level,
        _ => false,
    }
}

// Whether what is open on top is an operator that binds at least as tight as the level.
#[tactic(auto, using(crate::proofs::Stack::reductions))]
pub(crate) fn top_binds(frames: &[Frame], level: u8) -> bool
    ensures is { result ≡ machine.top_binds level (frames_of frames.now) }
    ensures some { result ≡ true → 0 < length frames.now }
{
    match frames.split_last() {
        Some((top, _)) => binds(top, level),
        None => false,
    }
}

// Takes the operation on top, and applies it to its last operand.
#[tactic(auto, using(crate::proofs::Stack::reductions), unfolding(crate::specs::View::frame_of))]
fn apply_top<'a>(
    alloc: Global,
    frames: &mut Vec<Frame<'a>>,
    operand: Box<WrittenExpr<'a>>,
) -> Result<Box<WrittenExpr<'a>>, AllocError>
    ensures is { IfOk result (λ e. machine.apply_top (frames_of frames.old.items)
        (expr_of operand.entry.value) ≡ (frames_of frames.new.items, expr_of e.value)) }
    ensures shorter { 0 < vec_len frames.old → vec_len frames.new < vec_len frames.old }
{
    let top = frames.pop();
    match top {
        Some(Frame::PrefixOf { op, at }) => {
            mem::drop(top);
            prefixed(alloc, op, at, operand)
        }
        Some(Frame::InfixOf { op, at, left }) => infixed(alloc, op, at, left, operand),
        Some(Frame::ColonOf { at, test, yes }) => chosen(alloc, at, test, yes, operand),
        other => {
            mem::drop(other);
            Ok(operand)
        }
    }
}

// Applies what binds at least as tight as the level.
#[tactic(auto, using(crate::proofs::Stack::reductions))]
pub(crate) fn reduce<'a>(
    alloc: Global,
    frames: &mut Vec<Frame<'a>>,
    operand: Box<WrittenExpr<'a>>,
    level: u8,
) -> Result<Box<WrittenExpr<'a>>, AllocError>
    ensures { IfOk result (λ e. machine.reduce level (frames_of frames.old.items)
        (expr_of operand.entry.value) ≡ (frames_of frames.new.items, expr_of e.value)) }
{
    let mut operand = operand;
    while top_binds(frames.as_slice(), level) {
        operand = apply_top(alloc, frames, operand)?;
    }
    Ok(operand)
}

#[tactic(auto, unfolding(crate::specs::View::frame_of))]
pub(crate) fn is_if(frame: &Frame) -> bool
    ensures { result ≡ machine.is_if (frame_of frame.now) }
{
    matches!(frame, Frame::ThenOf { .. } | Frame::ElseOf { .. })
}

// Whether what is open on top is an `if`.
#[tactic(auto, using(crate::proofs::Stack::endings))]
fn top_is_if(frames: &[Frame]) -> bool
    ensures is { result ≡ machine.top_is_if (frames_of frames.now) }
    ensures some { result ≡ true → 0 < length frames.now }
{
    match frames.split_last() {
        Some((top, _)) => is_if(top),
        None => false,
    }
}

// Takes the `if` on top, and ends it with its last statement.
#[tactic(auto, using(crate::proofs::Stack::endings), unfolding(crate::specs::View::frame_of))]
fn end_top<'a>(
    alloc: Global,
    frames: &mut Vec<Frame<'a>>,
    statement: Box<WrittenStatement<'a>>,
) -> Result<Box<WrittenStatement<'a>>, AllocError>
    ensures is { IfOk result (λ s. machine.end_top (frames_of frames.old.items)
        (statement_of statement.entry.value)
        ≡ (frames_of frames.new.items, statement_of s.value)) }
    ensures shorter { 0 < vec_len frames.old → vec_len frames.new < vec_len frames.old }
{
    match frames.pop() {
        Some(Frame::ThenOf { at, test }) => then_of(alloc, at, test, statement),
        Some(Frame::ElseOf { at, test, yes }) => else_of(alloc, at, test, yes, statement),
        other => {
            mem::drop(other);
            Ok(statement)
        }
    }
}

// Ends the `if`s that a statement stands in, up to the block.
#[tactic(auto, using(crate::proofs::Stack::endings))]
pub(crate) fn end_ifs<'a>(
    alloc: Global,
    frames: &mut Vec<Frame<'a>>,
    statement: Box<WrittenStatement<'a>>,
) -> Result<Box<WrittenStatement<'a>>, AllocError>
    ensures { IfOk result (λ s. machine.at_end (frames_of frames.old.items)
        (statement_of statement.entry.value)
        ≡ (frames_of frames.new.items, statement_of s.value)) }
{
    let mut statement = statement;
    while top_is_if(frames.as_slice()) {
        statement = end_top(alloc, frames, statement)?;
    }
    Ok(statement)
}

#[tactic(auto, unfolding(crate::specs::View::frame_of))]
fn is_else(frame: &Frame) -> bool
    ensures { result ≡ machine.is_else (frame_of frame.now) }
{
    matches!(frame, Frame::ElseOf { .. })
}

// Whether what is open on top is an `if` with an `else`.
#[tactic(auto, using(crate::proofs::Stack::elses))]
fn top_is_else(frames: &[Frame]) -> bool
    ensures is { result ≡ machine.top_is_else (frames_of frames.now) }
    ensures some { result ≡ true → 0 < length frames.now }
{
    match frames.split_last() {
        Some((top, _)) => is_else(top),
        None => false,
    }
}

// Gives an `else` to the `if` on top; false where none stands there.
#[tactic(auto, using(crate::proofs::Stack::elses), unfolding(crate::specs::View::frame_of))]
fn else_on_top<'a>(
    frames: &mut Vec<Frame<'a>>,
    statement: Box<WrittenStatement<'a>>,
) -> Result<bool, AllocError>
    ensures { IfOk result (λ stands. MatchBool stands
        (machine.else_on_top (frames_of frames.old.items) (statement_of statement.entry.value)
        ≡ Some (frames_of frames.new.items)) (machine.else_on_top (frames_of frames.old.items)
        (statement_of statement.entry.value) ≡ None)) }
{
    match frames.pop() {
        Some(Frame::ThenOf { at, test }) => {
            put(
                frames,
                Frame::ElseOf {
                    at,
                    test,
                    yes: statement,
                },
            )?;
            Ok(true)
        }
        other => {
            mem::drop(other);
            mem::drop(statement);
            Ok(false)
        }
    }
}

// Gives an `else` to the nearest `if` that has none; false where there is none.
#[tactic(auto, using(crate::proofs::Stack::elses))]
pub(crate) fn take_else<'a>(
    alloc: Global,
    frames: &mut Vec<Frame<'a>>,
    statement: Box<WrittenStatement<'a>>,
) -> Result<bool, AllocError>
    ensures { IfOk result (λ stands. MatchBool stands
        (machine.at_else (frames_of frames.old.items) (statement_of statement.entry.value)
        ≡ Some (frames_of frames.new.items)) (machine.at_else (frames_of frames.old.items)
        (statement_of statement.entry.value) ≡ None)) }
{
    let mut statement = statement;
    while top_is_else(frames.as_slice()) {
        statement = end_top(alloc, frames, statement)?;
    }
    else_on_top(frames, statement)
}

/// What a whole statement goes to: the list of its block, or the item that it is the body of.
#[derive(Drop)]
pub enum Stated<'a> {
    /// It lengthens the list of its block, which now has these statements.
    InList(Vec<WrittenStatement<'a>>),
    /// It is the body of the block that is clocked by this name.
    AsBody(Word<'a>, Box<WrittenStatement<'a>>),
    /// Nothing that is open takes a statement.
    Nowhere,
}

#[tactic(auto, using(crate::proofs::Stack::pushes), unfolding(crate::specs::View::stated_of))]
fn in_list<'a>(
    done: Vec<WrittenStatement<'a>>,
    statement: Box<WrittenStatement<'a>>,
) -> Result<Stated<'a>, AllocError>
    ensures { IfOk result (λ s. stated_of s ≡ machine.stated
        (machine.InBegin (map statement_of done.entry.items))
        (statement_of statement.entry.value)) }
{
    let done = with_last(done, Box::into_inner(statement))?;
    Ok(Stated::InList(done))
}

#[tactic(auto, unfolding(crate::specs::View::frame_of, crate::specs::View::stated_of))]
fn end_body<'a>(frame: &Frame<'a>, statement: Box<WrittenStatement<'a>>) -> Stated<'a>
    requires { machine.is_block (frame_of frame.now) ≡ false }
    ensures { stated_of result ≡ machine.stated (frame_of frame.now)
        (statement_of statement.entry.value) }
{
    match frame {
        Frame::BodyOf(clock) => Stated::AsBody(*clock, statement),
        _ => {
            mem::drop(statement);
            Stated::Nowhere
        }
    }
}

#[tactic(auto, unfolding(crate::specs::View::frame_of))]
pub(crate) fn end_statement<'a>(
    frame: Frame<'a>,
    statement: Box<WrittenStatement<'a>>,
) -> Result<Stated<'a>, AllocError>
    ensures { IfOk result (λ s. stated_of s ≡ machine.stated (frame_of frame.entry)
        (statement_of statement.entry.value)) }
{
    match frame {
        Frame::InBegin(done) => in_list(done, statement),
        other => {
            let stated = end_body(&other, statement);
            mem::drop(other);
            Ok(stated)
        }
    }
}
