//! Trees of smaller ones, which stand in boxes.

ghost use Rattle.std.specs.Prelude.{◌≡◌, IfOk};
ghost use Rattle.gl_verilog_grammar.specs.Stages as machine;
ghost use Rattle.gl_verilog_tokens.specs.View.{infix_of, prefix_of, expr_of, statement_of};

use crate::stacks::boxed;
use gl_verilog_tokens::{InfixOp, PrefixOp, WrittenExpr, WrittenStatement};
use std::alloc::{AllocError, Global};

#[tactic(auto, unfolding(gl_verilog_tokens::specs::View::expr_of))]
pub(crate) fn prefixed<'a>(
    alloc: Global,
    op: PrefixOp,
    at: usize,
    operand: Box<WrittenExpr<'a>>,
) -> Result<Box<WrittenExpr<'a>>, AllocError>
    ensures { IfOk result (λ e. expr_of e.value ≡ machine.applied (machine.PrefixOf (prefix_of op))
        (expr_of operand.entry.value)) }
{
    let arg = operand;
    boxed(alloc, WrittenExpr::Prefix { op, at, arg })
}

#[tactic(auto, unfolding(gl_verilog_tokens::specs::View::expr_of))]
pub(crate) fn infixed<'a>(
    alloc: Global,
    op: InfixOp,
    at: usize,
    left: Box<WrittenExpr<'a>>,
    operand: Box<WrittenExpr<'a>>,
) -> Result<Box<WrittenExpr<'a>>, AllocError>
    ensures { IfOk result (λ e. expr_of e.value ≡ machine.applied
        (machine.InfixOf (infix_of op) (expr_of left.entry.value)) (expr_of operand.entry.value)) }
{
    let right = operand;
    boxed(
        alloc,
        WrittenExpr::Infix {
            op,
            at,
            left,
            right,
        },
    )
}

#[tactic(auto, unfolding(gl_verilog_tokens::specs::View::expr_of))]
pub(crate) fn chosen<'a>(
    alloc: Global,
    at: usize,
    test: Box<WrittenExpr<'a>>,
    yes: Box<WrittenExpr<'a>>,
    operand: Box<WrittenExpr<'a>>,
) -> Result<Box<WrittenExpr<'a>>, AllocError>
    ensures { IfOk result (λ e. expr_of e.value ≡ machine.applied
        (machine.ColonOf (expr_of test.entry.value) (expr_of yes.entry.value))
        (expr_of operand.entry.value)) }
{
    let no = operand;
    boxed(alloc, WrittenExpr::Conditional { at, test, yes, no })
}

#[tactic(auto, unfolding(gl_verilog_tokens::specs::View::statement_of))]
pub(crate) fn then_of<'a>(
    alloc: Global,
    at: usize,
    test: Box<WrittenExpr<'a>>,
    statement: Box<WrittenStatement<'a>>,
) -> Result<Box<WrittenStatement<'a>>, AllocError>
    ensures { IfOk result (λ s. statement_of s.value ≡ machine.if_of
        (machine.ThenOf (expr_of test.entry.value)) (statement_of statement.entry.value)) }
{
    let test = Box::into_inner(test);
    let yes = statement;
    boxed(alloc, WrittenStatement::IfThen { at, test, yes })
}

#[tactic(auto, unfolding(gl_verilog_tokens::specs::View::statement_of))]
pub(crate) fn else_of<'a>(
    alloc: Global,
    at: usize,
    test: Box<WrittenExpr<'a>>,
    yes: Box<WrittenStatement<'a>>,
    statement: Box<WrittenStatement<'a>>,
) -> Result<Box<WrittenStatement<'a>>, AllocError>
    ensures { IfOk result (λ s. statement_of s.value ≡ machine.if_of (machine.ElseOf
        (expr_of test.entry.value) (statement_of yes.entry.value))
        (statement_of statement.entry.value)) }
{
    let test = Box::into_inner(test);
    let no = statement;
    boxed(alloc, WrittenStatement::IfElse { at, test, yes, no })
}
