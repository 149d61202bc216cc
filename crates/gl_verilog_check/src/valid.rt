//! The test of a valid module: names, drivers, and all that a module that can run needs.

ghost use Rattle.std.specs.Prelude.{◌≡◌, ◌+◌, true, false, [], IfOk, option_map};
ghost use Rattle.gl_verilog.specs.View.{declaration_of, statement_of, module_of};
ghost use Rattle.gl_verilog.specs.Valid as valid;
ghost use Rattle.gl_verilog.specs.Valid.{IsValid};
ghost use Rattle.gl_verilog_check.specs.Kept.{scope_of, statements_of, AreValid};
ghost use Rattle.gl_verilog_check.specs.Homes.{home_of, all_at_home};
ghost use Rattle.gl_verilog_check.specs.Tests as tests;
ghost use Rattle.gl_verilog_check.specs.Tests.{at_most_two};

use crate::homes::{homes_of, keep_homes};
use crate::runnable::parts_run;
use gl_bits::Memory;
use gl_verilog::laws::valid_modules_run;
use gl_verilog::{Assignment, Declaration, Kind, Module, Statement};
use indexmap::IndexSet;
use std::alloc::Global;

// Whether no name is declared twice.
fn are_distinct(alloc: Global, declarations: &[Declaration]) -> Result<bool, Memory>
    ensures { IfOk result (λ b. b ≡ tests.are_new [] (scope_of declarations.now)) }
{
    let mut names = IndexSet::new(alloc);
    for declaration in declarations {
        let Ok(is_new) = names.insert(declaration.name.as_slice()) else {
            return Err(Memory);
        };
        if !is_new {
            return Ok(false);
        }
    }
    Ok(true)
}

// Whether one of two is so; None where both are.
fn one_of(first: bool, second: bool) -> Option<bool>
    ensures { result ≡ tests.one_of first second }
{
    if first && second {
        return None;
    }
    Some(first || second)
}

// Whether a statement assigns a register; None where two of one list do.
fn assigns(statement: &Statement, register: usize) -> Option<bool>
    ensures { result ≡ tests.assigns_once register (statement_of statement.now) }
{
    match statement {
        Statement::Nothing => Some(false),
        Statement::Put {
            register: target,
            ..
        } => Some(*target == register),
        Statement::Write { .. } => Some(false),
        Statement::Block(statements) => {
            let mut assigned = false;
            for statement in statements {
                let more = assigns(statement, register)?;
                assigned = one_of(assigned, more)?;
            }
            Some(assigned)
        }
        Statement::If { yes, no, .. } => {
            let first = assigns(yes, register)?;
            let second = assigns(no, register)?;
            Some(first || second)
        }
    }
}

// The sum, or 2 where it is more: one is all that has to be told from others.
fn sum(count: u8, more: u8) -> u8
    ensures { result ≡ at_most_two (count + more) }
{
    if count > 1 || more > 1 {
        return 2;
    }
    count + more
}

// How many writes to a memory stand in a statement, or 2 where there are more.
fn writes_in(statement: &Statement, memory: usize) -> u8
    ensures { result ≡ at_most_two (valid.writes_in (statement_of statement.now) memory) }
{
    match statement {
        Statement::Nothing => 0,
        Statement::Put { .. } => 0,
        Statement::Write { memory: target, .. } => u8::from(*target == memory),
        Statement::Block(statements) => {
            let mut count = 0;
            for statement in statements {
                count = sum(count, writes_in(statement, memory));
            }
            count
        }
        Statement::If { yes, no, .. } => sum(writes_in(yes, memory), writes_in(no, memory)),
    }
}

// How many blocks assign a register, or 2 where more do; None where two statements of one list do.
fn blocks_of(blocks: &[Statement], register: usize) -> Option<u8>
    ensures { result ≡ option_map at_most_two
        (tests.blocks_once register (statements_of blocks.now)) }
{
    let mut count = 0;
    for block in blocks {
        let more = assigns(block, register)?;
        count = sum(count, u8::from(more));
    }
    Some(count)
}

// How many writes to a memory there are, or 2 where there are more.
fn writes_of(blocks: &[Statement], memory: usize) -> u8
    ensures { result ≡ at_most_two (valid.writes_of (statements_of blocks.now) memory) }
{
    let mut count = 0;
    for block in blocks {
        count = sum(count, writes_in(block, memory));
    }
    count
}

// Whether the register or memory of this number has a driver.
fn is_assigned(declaration: &Declaration, n: usize, blocks: &[Statement]) -> bool
    ensures { result ≡ tests.is_assigned (statements_of blocks.now) n
        (declaration_of declaration.now).kind }
{
    match declaration.kind {
        Kind::Input | Kind::OutputWire | Kind::Wire => true,
        Kind::OutputRegister | Kind::Register => blocks_of(blocks, n) == Some(1),
        Kind::Memory { .. } => writes_of(blocks, n) == 1,
    }
}

// Whether every register and memory has a driver, by all blocks for each of them.
fn are_assigned(declarations: &[Declaration], blocks: &[Statement]) -> bool
    ensures { result ≡ tests.all_assigned (statements_of blocks.now) 0 (scope_of declarations.now) }
{
    for (n, declaration) in declarations.iter().enumerate() {
        if !is_assigned(declaration, n, blocks) {
            return false;
        }
    }
    true
}

// Whether the register or memory of this number has a driver in its home.
fn is_at_home(declaration: &Declaration, n: usize, blocks: &[Statement], homes: &[usize]) -> bool
    ensures { result ≡ tests.is_assigned (home_of homes.now (statements_of blocks.now) n) n
        (declaration_of declaration.now).kind }
{
    let Some(home) = homes.get(n) else {
        return is_assigned(declaration, n, &[]);
    };
    let Some(block) = blocks.get(*home) else {
        return is_assigned(declaration, n, &[]);
    };
    is_assigned(declaration, n, std::slice::from_ref(block))
}

// Whether every register and memory has a driver in its home.
fn are_at_home(declarations: &[Declaration], blocks: &[Statement], homes: &[usize]) -> bool
    ensures { result ≡ all_at_home homes.now (statements_of blocks.now) 0
        (scope_of declarations.now) }
{
    for (n, declaration) in declarations.iter().enumerate() {
        if !is_at_home(declaration, n, blocks, homes) {
            return false;
        }
    }
    true
}

// Whether every register and memory has a driver: by the one block that assigns it, where no other
// does, in time that grows with the text.
fn have_drivers(
    alloc: Global,
    declarations: &[Declaration],
    blocks: &[Statement],
) -> Result<bool, Memory>
    ensures { IfOk result (λ b. b ≡ tests.all_assigned (statements_of blocks.now) 0
        (scope_of declarations.now)) }
{
    let Ok(homes) = homes_of(alloc, declarations.len(), blocks) else {
        return Err(Memory);
    };
    if keep_homes(&homes, blocks) {
        return Ok(are_at_home(declarations, blocks, &homes));
    }
    Ok(are_assigned(declarations, blocks))
}

// Whether these parts make a valid module.
fn parts_are_valid(
    alloc: Global,
    declarations: &[Declaration],
    assignments: &[Assignment],
    blocks: &[Statement],
) -> Result<bool, Memory>
    ensures yes { IfOk result (λ b. b ≡ true → AreValid declarations.now assignments.now
        blocks.now) }
    ensures all { IfOk result (λ b. AreValid declarations.now assignments.now blocks.now → b
        ≡ true) }
{
    valid_modules_run();
    let distinct = are_distinct(alloc, declarations)?;
    if !distinct {
        return Ok(false);
    }
    let runs = parts_run(alloc, declarations, assignments, blocks)?;
    if !runs {
        return Ok(false);
    }
    // Named, since a goal speaks of the value.
    let assigned = have_drivers(alloc, declarations, blocks)?;
    Ok(assigned)
}

/// Whether the module is valid: its names differ, its widths are kept, every net, register and
/// memory has its driver, and no net depends on itself through assignments.
pub fn is_valid(alloc: Global, design: &Module) -> Result<bool, Memory>
    ensures sound { IfOk result (λ b. b ≡ true → IsValid (module_of design.now)) }
    ensures complete { IfOk result (λ b. b ≡ false → IsValid (module_of design.now) → ⊥) }
{
    let declarations = design.declarations.as_slice();
    let assignments = design.assignments.as_slice();
    let blocks = design.blocks.as_slice();
    let valid = parts_are_valid(alloc, declarations, assignments, blocks)?;
    Ok(valid)
}
