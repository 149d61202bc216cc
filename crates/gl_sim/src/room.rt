//! The memory that a simulator takes.

ghost use Rattle.std.specs.Prelude.{◌≡◌, ℕ, ◌^◌, ◌≤◌, map, replicate, not, ◌&&◌, IfOk, MatchOption, [], vec_capacity};
ghost use Rattle.std.specs.List.{AllByRecursion};
ghost use Rattle.gl_verilog.specs.View.{declaration_of, kind_of, statement_of, chained};
ghost use Rattle.gl_verilog.specs.Widths.{HasSize, IsMemory, words_in, is_clock};
ghost use Rattle.gl_verilog.specs.Runnable.{inputs_from, is_input};
ghost use Rattle.gl_sim.specs.Updates.{writes_in};
ghost use Rattle.gl_sim.specs.Starts.{zero_bank};

use crate::update::Update;
use gl_bits::Memory;
use gl_verilog::{Bank, Declaration, Kind, Statement};
use std::alloc::Global;

/// So many zeros.
pub fn zeros(alloc: Global, len: usize) -> Result<Vec<u128>, Memory>
    ensures { IfOk result (λ v. v.items ≡ replicate len 0) }
{
    Ok(vec![in alloc; 0u128; len]?)
}

// A bank of zeros; one without words where the kind is no memory's.
fn bank_of(alloc: Global, kind: Kind) -> Result<Bank, Memory>
    requires { (bits : ℕ) → IsMemory (kind_of kind) bits → bits ≤ 32 }
    ensures { IfOk result (λ b. b ≡ replicate (words_in (kind_of kind)) 0) }
{
    match kind {
        Kind::Memory { address_bits } => Bank::new(alloc, 1usize << address_bits),
        _ => Bank::new(alloc, 0),
    }
}

/// A bank of zeros for each declaration.
pub fn banks_of(alloc: Global, declarations: &[Declaration]) -> Result<Vec<Bank>, Memory>
    requires { AllByRecursion HasSize (map declaration_of declarations.now) }
    ensures { IfOk result (λ v. v.items ≡ map zero_bank (map declaration_of declarations.now)) }
{
    let mut banks = Vec::new(alloc);
    for declaration in declarations {
        banks.push(bank_of(alloc, declaration.kind)?)?;
    }
    Ok(banks)
}

// Whether it is an input port, and not the clock.
fn is_set(declaration: &Declaration) -> bool
    ensures { result ≡ (is_input (kind_of declaration.now.kind) && not
        (is_clock (declaration_of declaration.now))) }
{
    matches!(declaration.kind, Kind::Input) && declaration.name.as_slice() != b"clk".as_slice()
}

/// The numbers of the input ports but the clock, in their order.
pub fn ports_of(alloc: Global, declarations: &[Declaration]) -> Result<Vec<usize>, Memory>
    ensures { IfOk result (λ v. v.items ≡ inputs_from 0 (map declaration_of declarations.now)) }
{
    let mut ports = Vec::new(alloc);
    for (n, declaration) in declarations.iter().enumerate() {
        if is_set(declaration) {
            ports.push(n)?;
        }
    }
    Ok(ports)
}

// The writes that stand in a statement, where they can be counted.
fn count_writes(statement: &Statement) -> Option<usize>
    ensures { let writes = writes_in (statement_of statement.now) in
        MatchOption result (2 ^ 64 ≤ writes) (λ n. n ≡ writes) }
{
    match statement {
        Statement::Nothing => Some(0),
        Statement::Put { .. } => Some(0),
        Statement::Write { .. } => Some(1),
        Statement::Block(statements) => {
            let mut count = 0usize;
            for statement in statements {
                count = count.checked_add(count_writes(statement)?)?;
            }
            Some(count)
        }
        Statement::If { yes, no, .. } => count_writes(yes)?.checked_add(count_writes(no)?),
    }
}

/// The writes that stand in all blocks, where they can be counted.
pub fn count_all(blocks: &[Statement]) -> Option<usize>
    ensures { let writes = writes_in (chained blocks.now) in
        MatchOption result (2 ^ 64 ≤ writes) (λ n. n ≡ writes) }
{
    let mut count = 0usize;
    for block in blocks {
        count = count.checked_add(count_writes(block)?)?;
    }
    Some(count)
}

/// Room for all the words that these blocks may write in one cycle.
pub fn updates_of(alloc: Global, blocks: &[Statement]) -> Result<Vec<Update>, Memory>
    ensures none { IfOk result (λ v. v.items ≡ []) }
    ensures room { IfOk result (λ v. writes_in (chained blocks.now) ≤ vec_capacity v) }
{
    let Some(count) = count_all(blocks) else {
        // No memory has room for 2^64 words.
        return Err(Memory);
    };
    Ok(Vec::with_capacity(alloc, count)?)
}
