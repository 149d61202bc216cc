//! The block in which each register and memory is assigned. That no other assigns it is tried where
//! the table is used, by `keep_homes`: nothing else that is proved rests on it.

ghost use Rattle.std.specs.Prelude.{◌≡◌, map};
ghost use Rattle.gl_verilog.specs.View.{statement_of};
ghost use Rattle.gl_verilog_check.specs.Homes as specs;

use gl_verilog::Statement;
use std::alloc::{AllocError, Global};

// The block has this number: it is the home of what this statement assigns.
fn note_homes(statement: &Statement, block: usize, homes: &mut Vec<usize>) {
    match statement {
        Statement::Nothing => {}
        Statement::Put { register, .. } => {
            if let Some(home) = homes.get_mut(*register) {
                *home = block;
            }
        }
        Statement::Write { memory, .. } => {
            if let Some(home) = homes.get_mut(*memory) {
                *home = block;
            }
        }
        Statement::Block(statements) => {
            for statement in statements {
                note_homes(statement, block, homes);
            }
        }
        Statement::If { yes, no, .. } => {
            note_homes(yes, block, homes);
            note_homes(no, block, homes);
        }
    }
}

/// The number of the last block that assigns it, for each of `count` registers and memories.
pub(crate) fn homes_of(
    alloc: Global,
    count: usize,
    blocks: &[Statement],
) -> Result<Vec<usize>, AllocError> {
    let mut homes = vec![in alloc; 0usize; count]?;
    for (block, statement) in blocks.iter().enumerate() {
        note_homes(statement, block, &mut homes);
    }
    Ok(homes)
}

// Whether the home of a register or memory is this block.
fn is_home(homes: &[usize], n: usize, block: usize) -> bool
    ensures { result ≡ specs.is_home homes.now n block }
{
    match homes.get(n) {
        Some(home) => *home == block,
        None => false,
    }
}

// Whether this block is the home of all that this statement assigns.
fn keeps_home(homes: &[usize], block: usize, statement: &Statement) -> bool
    ensures { result ≡ specs.keeps_home homes.now block (statement_of statement.now) }
{
    match statement {
        Statement::Nothing => true,
        Statement::Put { register, .. } => is_home(homes, *register, block),
        Statement::Write { memory, .. } => is_home(homes, *memory, block),
        Statement::Block(statements) => {
            for statement in statements {
                if !keeps_home(homes, block, statement) {
                    return false;
                }
            }
            true
        }
        Statement::If { yes, no, .. } => {
            keeps_home(homes, block, yes) && keeps_home(homes, block, no)
        }
    }
}

/// Whether each block is the home of all that it assigns.
pub(crate) fn keep_homes(homes: &[usize], blocks: &[Statement]) -> bool
    ensures { result ≡ specs.keep_homes homes.now 0 (map statement_of blocks.now) }
{
    for (block, statement) in blocks.iter().enumerate() {
        if !keeps_home(homes, block, statement) {
            return false;
        }
    }
    true
}
