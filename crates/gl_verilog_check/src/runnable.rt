//! The test of a module that can run: widths, drivers, and an order of its assignments.

ghost use Rattle.std.specs.Prelude.{◌≡◌, true, false, IfOk};
ghost use Rattle.gl_verilog.specs.View.{declaration_of, statement_of, module_of, expr_of};
ghost use Rattle.gl_verilog.specs.Runnable.{IsRunnable};
ghost use Rattle.gl_verilog_check.specs.Kept.{driver_there, all_driven, all_sized, all_kept, test_kept, statement_kept, blocks_kept, scope_of, statements_of, CanRun};
ghost use Rattle.gl_verilog_check.specs.Orders.{meant};

use crate::order::{mark_targets, no_marks, order_marked};
use crate::widths::{assigned_width, has_size, kept, put_width, wants_driver, write_width};
use gl_bits::Memory;
use gl_verilog::{Assignment, Declaration, Expr, Module, Statement};
use std::alloc::Global;

// Whether every declaration has a size.
fn have_sizes(declarations: &[Declaration]) -> bool
    ensures { result ≡ all_sized (scope_of declarations.now) }
{
    for declaration in declarations {
        if !has_size(declaration) {
            return false;
        }
    }
    true
}

// Whether every assignment keeps its widths.
fn keep_widths(declarations: &[Declaration], assignments: &[Assignment]) -> bool
    ensures { result ≡ all_kept (scope_of declarations.now) (meant assignments.now) }
{
    for assignment in assignments {
        if assigned_width(declarations, assignment).is_none() {
            return false;
        }
    }
    true
}

// Whether an expression keeps its widths and has one bit.
fn is_bit(declarations: &[Declaration], test: &Expr) -> bool
    ensures { result ≡ test_kept (scope_of declarations.now) (expr_of test.now) }
{
    match kept(declarations, test) {
        Some(width) => width == 1,
        None => false,
    }
}

// Whether a statement keeps its widths.
fn statement_keeps(declarations: &[Declaration], statement: &Statement) -> bool
    ensures { result ≡ statement_kept (scope_of declarations.now) (statement_of statement.now) }
{
    match statement {
        Statement::Nothing => true,
        Statement::Put { register, value } => put_width(declarations, *register, value).is_some(),
        Statement::Write {
            memory,
            address,
            value,
        } => write_width(declarations, *memory, address, value).is_some(),
        Statement::Block(statements) => {
            for statement in statements {
                if !statement_keeps(declarations, statement) {
                    return false;
                }
            }
            true
        }
        Statement::If { test, yes, no } => {
            is_bit(declarations, test)
                && (statement_keeps(declarations, yes) && statement_keeps(declarations, no))
        }
    }
}

// Whether every block keeps its widths.
fn blocks_keep(declarations: &[Declaration], blocks: &[Statement]) -> bool
    ensures { result ≡ blocks_kept (scope_of declarations.now) (statements_of blocks.now) }
{
    for block in blocks {
        if !statement_keeps(declarations, block) {
            return false;
        }
    }
    true
}

// Whether the declaration of this number wants no driver, or has one.
fn has_driver(declaration: &Declaration, marks: &[bool], n: usize) -> bool
    ensures { result ≡ driver_there marks.now n (declaration_of declaration.now) }
{
    !wants_driver(declaration) || marks.get(n).copied().unwrap_or(false)
}

// Whether every net that wants a driver is marked.
fn all_driven(declarations: &[Declaration], marks: &[bool]) -> bool
    ensures { result ≡ all_driven marks.now 0 (scope_of declarations.now) }
{
    for (n, declaration) in declarations.iter().enumerate() {
        if !has_driver(declaration, marks, n) {
            return false;
        }
    }
    true
}

/// Whether these parts make a module that can run.
pub(crate) fn parts_run(
    alloc: Global,
    declarations: &[Declaration],
    assignments: &[Assignment],
    blocks: &[Statement],
) -> Result<bool, Memory>
    ensures yes { IfOk result (λ b. b ≡ true → CanRun declarations.now assignments.now blocks.now) }
    ensures all { IfOk result (λ b. CanRun declarations.now assignments.now blocks.now → b ≡ true) }
{
    if !have_sizes(declarations) {
        return Ok(false);
    }
    if !keep_widths(declarations, assignments) {
        return Ok(false);
    }
    if !blocks_keep(declarations, blocks) {
        return Ok(false);
    }
    let mut marks = no_marks(alloc, declarations.len())?;
    if !mark_targets(&mut marks, assignments) {
        return Ok(false);
    }
    if !all_driven(declarations, &marks) {
        return Ok(false);
    }
    let order = order_marked(alloc, &mut marks, assignments)?;
    Ok(order.is_some())
}

/// Whether the module can run: its widths are kept, each net that an assignment may drive has one,
/// and the assignments can be put in an order in which each reads only what stands before it.
pub fn is_runnable(alloc: Global, design: &Module) -> Result<bool, Memory>
    ensures sound { IfOk result (λ b. b ≡ true → IsRunnable (module_of design.now)) }
    ensures complete { IfOk result (λ b. b ≡ false → IsRunnable (module_of design.now) → ⊥) }
{
    let declarations = design.declarations.as_slice();
    let assignments = design.assignments.as_slice();
    let blocks = design.blocks.as_slice();
    // Named, since a goal speaks of the value.
    let runs = parts_run(alloc, declarations, assignments, blocks)?;
    Ok(runs)
}
