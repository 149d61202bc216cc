//! What a sign behind an expression closes.

ghost use Rattle.std.specs.Prelude.{◌≡◌, true, map, option_map, IfOk};
ghost use Rattle.gl_verilog_grammar.specs.Stages as machine;
ghost use Rattle.gl_verilog_tokens.specs.View.{expr_of, name_of};
ghost use Rattle.gl_verilog_grammar.specs.View.{frame_of, frames_of, role_is, closed_of};

use crate::frames::{Frame, reduce};
use crate::stacks::{boxed, with_last};
use crate::stage::Role;
use gl_verilog_tokens::{Word, WrittenExpr};
use std::alloc::{AllocError, Global};
use std::mem;

/// What a sign closes: an operand, the condition of an `if`, the address of a word that takes a
/// value, an assignment, an update of a register or of a word; or what it opens in its place: the
/// other part of a conditional, further parts.
#[derive(Drop)]
pub enum Closed<'a> {
    /// An operand is complete: brackets or braces, or a word of a memory.
    AnOperand(Box<WrittenExpr<'a>>),
    /// The condition of an `if` is complete; the number is the place of `if`.
    ATest(usize, Box<WrittenExpr<'a>>),
    /// The address of a word that takes a value is complete, behind its memory's name.
    AnAddress(Word<'a>, Box<WrittenExpr<'a>>),
    /// An assignment is complete: its target and its value.
    AnAssignment(Word<'a>, Box<WrittenExpr<'a>>),
    /// An update of a register is complete: its target and its value.
    AnUpdate(Word<'a>, Box<WrittenExpr<'a>>),
    /// An update of a memory's word is complete.
    AWordUpdate {
        /// The name of the memory.
        target: Word<'a>,
        /// The address of the word.
        address: Box<WrittenExpr<'a>>,
        /// What the word takes.
        value: Box<WrittenExpr<'a>>,
    },
    /// Behind the colon of a conditional its last part comes.
    AnotherPart {
        /// The place of `?`.
        at: usize,
        /// The test.
        test: Box<WrittenExpr<'a>>,
        /// The value where the test is 1.
        yes: Box<WrittenExpr<'a>>,
    },
    /// Behind a comma in braces a further part comes.
    FurtherParts {
        /// The place of the opening brace.
        at: usize,
        /// The parts that are complete.
        parts: Vec<WrittenExpr<'a>>,
    },
    /// The sign closes nothing that is open.
    Unclosed,
}

#[tactic(auto, using(crate::proofs::Stack::pushes), unfolding(crate::specs::View::frame_of, crate::specs::View::closed_of))]
fn further<'a>(
    at: usize,
    parts: Vec<WrittenExpr<'a>>,
    operand: Box<WrittenExpr<'a>>,
) -> Result<Closed<'a>, AllocError>
    ensures { IfOk result (λ c. closed_of c ≡ machine.closed machine.IsComma
        (machine.InBraces (map expr_of parts.entry.items)) (expr_of operand.entry.value)) }
{
    let parts = with_last(parts, Box::into_inner(operand))?;
    Ok(Closed::FurtherParts { at, parts })
}

#[tactic(auto, using(gl_verilog_tokens::proofs::Views::exprs, crate::proofs::Stack::pushes), unfolding(crate::specs::View::closed_of))]
fn whole<'a>(
    alloc: Global,
    at: usize,
    parts: Vec<WrittenExpr<'a>>,
    operand: Box<WrittenExpr<'a>>,
) -> Result<Closed<'a>, AllocError>
    ensures { IfOk result (λ c. closed_of c ≡ machine.closed machine.IsBrace
        (machine.InBraces (map expr_of parts.entry.items)) (expr_of operand.entry.value)) }
{
    let parts = with_last(parts, Box::into_inner(operand))?;
    let braces = boxed(alloc, WrittenExpr::Braces { at, parts })?;
    Ok(Closed::AnOperand(braces))
}

#[tactic(auto, using(gl_verilog_tokens::proofs::Views::exprs), unfolding(crate::specs::View::closed_of))]
fn in_parens<'a>(alloc: Global, operand: Box<WrittenExpr<'a>>) -> Result<Closed<'a>, AllocError>
    ensures { IfOk result (λ c. closed_of c ≡ machine.closed machine.IsParen machine.InParens
        (expr_of operand.entry.value)) }
{
    let parens = boxed(alloc, WrittenExpr::Parens(operand))?;
    Ok(Closed::AnOperand(parens))
}

#[tactic(auto, using(gl_verilog_tokens::proofs::Views::exprs), unfolding(crate::specs::View::frame_of, crate::specs::View::closed_of))]
fn at_paren<'a>(
    alloc: Global,
    frame: &Frame<'a>,
    operand: Box<WrittenExpr<'a>>,
) -> Result<Closed<'a>, AllocError>
    ensures { IfOk result (λ c. closed_of c ≡ machine.closed machine.IsParen (frame_of frame.now)
        (expr_of operand.entry.value)) }
{
    match frame {
        Frame::InParens => in_parens(alloc, operand),
        Frame::IfTest(at) => Ok(Closed::ATest(*at, operand)),
        _ => {
            mem::drop(operand);
            Ok(Closed::Unclosed)
        }
    }
}

#[tactic(auto, using(gl_verilog_tokens::proofs::Views::exprs), unfolding(crate::specs::View::closed_of))]
fn word_of<'a>(
    alloc: Global,
    name: Word<'a>,
    operand: Box<WrittenExpr<'a>>,
) -> Result<Closed<'a>, AllocError>
    ensures { IfOk result (λ c. closed_of c ≡ machine.closed machine.IsBracket
        (machine.InIndex (name_of name.entry)) (expr_of operand.entry.value)) }
{
    let address = operand;
    let word = boxed(alloc, WrittenExpr::WordOf { name, address })?;
    Ok(Closed::AnOperand(word))
}

#[tactic(auto, using(gl_verilog_tokens::proofs::Views::exprs), unfolding(crate::specs::View::frame_of, crate::specs::View::closed_of))]
fn at_bracket<'a>(
    alloc: Global,
    frame: &Frame<'a>,
    operand: Box<WrittenExpr<'a>>,
) -> Result<Closed<'a>, AllocError>
    ensures { IfOk result (λ c. closed_of c ≡ machine.closed machine.IsBracket
        (frame_of frame.now) (expr_of operand.entry.value)) }
{
    match frame {
        Frame::InIndex(name) => word_of(alloc, *name, operand),
        Frame::AddressFor(target) => Ok(Closed::AnAddress(*target, operand)),
        _ => {
            mem::drop(operand);
            Ok(Closed::Unclosed)
        }
    }
}

#[tactic(auto, unfolding(crate::specs::View::frame_of, crate::specs::View::closed_of))]
fn at_semicolon<'a>(frame: &Frame<'a>, operand: Box<WrittenExpr<'a>>) -> Closed<'a>
    requires { machine.is_bare (frame_of frame.now) ≡ true }
    ensures { closed_of result ≡ machine.closed machine.IsSemicolon (frame_of frame.now)
        (expr_of operand.entry.value) }
{
    match frame {
        Frame::AssignTo(target) => Closed::AnAssignment(*target, operand),
        Frame::UpdateTo(target) => Closed::AnUpdate(*target, operand),
        _ => {
            mem::drop(operand);
            Closed::Unclosed
        }
    }
}

#[tactic(auto, unfolding(crate::specs::View::closed_of))]
fn in_braces<'a>(
    alloc: Global,
    role: Role,
    at: usize,
    parts: Vec<WrittenExpr<'a>>,
    operand: Box<WrittenExpr<'a>>,
) -> Result<Closed<'a>, AllocError>
    ensures { IfOk result (λ c. closed_of c ≡ machine.closed (role_is role)
        (machine.InBraces (map expr_of parts.entry.items)) (expr_of operand.entry.value)) }
{
    match role {
        Role::IsComma => further(at, parts, operand),
        Role::IsBrace => whole(alloc, at, parts, operand),
        _ => {
            mem::drop(parts);
            mem::drop(operand);
            Ok(Closed::Unclosed)
        }
    }
}

#[tactic(auto, unfolding(crate::specs::View::closed_of))]
fn in_question<'a>(
    role: Role,
    at: usize,
    test: Box<WrittenExpr<'a>>,
    operand: Box<WrittenExpr<'a>>,
) -> Closed<'a>
    ensures { closed_of result ≡ machine.closed (role_is role)
        (machine.TestOf (expr_of test.entry.value)) (expr_of operand.entry.value) }
{
    match role {
        Role::IsColon => Closed::AnotherPart {
            at,
            test,
            yes: operand,
        },
        _ => {
            mem::drop(test);
            mem::drop(operand);
            Closed::Unclosed
        }
    }
}

#[tactic(auto, unfolding(crate::specs::View::closed_of))]
fn in_word_update<'a>(
    role: Role,
    target: Word<'a>,
    address: Box<WrittenExpr<'a>>,
    operand: Box<WrittenExpr<'a>>,
) -> Closed<'a>
    ensures { closed_of result ≡ machine.closed (role_is role) (machine.UpdateWordTo
        (name_of target.entry) (expr_of address.entry.value)) (expr_of operand.entry.value) }
{
    match role {
        Role::IsSemicolon => Closed::AWordUpdate {
            target,
            address,
            value: operand,
        },
        _ => {
            mem::drop(address);
            mem::drop(operand);
            Closed::Unclosed
        }
    }
}

// What a sign closes where this is open, which holds no tree that goes on.
#[tactic(auto, unfolding(crate::specs::View::closed_of))]
fn in_bare<'a>(
    alloc: Global,
    role: Role,
    frame: &Frame<'a>,
    operand: Box<WrittenExpr<'a>>,
) -> Result<Closed<'a>, AllocError>
    requires { machine.is_bare (frame_of frame.now) ≡ true }
    ensures { IfOk result (λ c. closed_of c ≡ machine.closed (role_is role) (frame_of frame.now)
        (expr_of operand.entry.value)) }
{
    match role {
        Role::IsParen => at_paren(alloc, frame, operand),
        Role::IsBracket => at_bracket(alloc, frame, operand),
        Role::IsSemicolon => Ok(at_semicolon(frame, operand)),
        _ => {
            mem::drop(operand);
            Ok(Closed::Unclosed)
        }
    }
}

// What a sign closes where this is open.
#[tactic(auto, unfolding(crate::specs::View::frame_of))]
fn close_frame<'a>(
    alloc: Global,
    role: Role,
    frame: Frame<'a>,
    operand: Box<WrittenExpr<'a>>,
) -> Result<Closed<'a>, AllocError>
    ensures { IfOk result (λ c. closed_of c ≡ machine.closed (role_is role) (frame_of frame.entry)
        (expr_of operand.entry.value)) }
{
    match frame {
        Frame::InBraces { at, parts } => in_braces(alloc, role, at, parts, operand),
        Frame::TestOf { at, test } => Ok(in_question(role, at, test, operand)),
        Frame::UpdateWordTo { target, address } => Ok(in_word_update(
            role, target, address, operand,
        )),
        other => {
            let closed = in_bare(alloc, role, &other, operand);
            mem::drop(other);
            closed
        }
    }
}

// Closes what is open on top of a whole expression.
#[tactic(auto, using(crate::proofs::Stack::closings), unfolding(crate::specs::View::closed_of))]
pub(crate) fn close_top<'a>(
    alloc: Global,
    frames: &mut Vec<Frame<'a>>,
    role: Role,
    operand: Box<WrittenExpr<'a>>,
) -> Result<Closed<'a>, AllocError>
    ensures { IfOk result (λ c. machine.close_top (role_is role)
        (machine.reduce 11 (frames_of frames.old.items) (expr_of operand.entry.value))
        ≡ (frames_of frames.new.items, closed_of c)) }
{
    let operand = reduce(alloc, frames, operand, 11)?;
    match frames.pop() {
        Some(frame) => close_frame(alloc, role, frame, operand),
        None => {
            mem::drop(operand);
            Ok(Closed::Unclosed)
        }
    }
}

// A name alone may be indexed.
#[tactic(auto, unfolding(gl_verilog_tokens::specs::View::expr_of))]
pub(crate) fn alone<'a>(operand: &WrittenExpr<'a>) -> Option<Word<'a>>
    ensures { option_map name_of result ≡ machine.alone (expr_of operand.now) }
{
    match operand {
        WrittenExpr::Named(name) => Some(*name),
        _ => None,
    }
}
