//! The words that blocks write, until the clock's edge.

ghost use Rattle.std.specs.Prelude.{◌≡◌, ℕ, ◌+◌, ◌<◌, ◌≤◌, length, unwrap_or, slice_index, vec_len, vec_capacity};
ghost use Rattle.gl_verilog.specs.Module.{assigned, written, later_or, Write};
ghost use Rattle.gl_verilog.specs.View.{statement_of, expr_of};
ghost use Rattle.gl_verilog.specs.Evaluate.{nets_of, memories_of};
ghost use Rattle.gl_sim.specs.Updates.{put_of, AreInside, writes_in, CanExecute};

use gl_verilog::{Bank, Expr, Statement, evaluate};

/// A word of a memory that takes a value at the edge.
#[derive(Clone, Copy, Debug)]
pub struct Update {
    /// The number of the memory's declaration.
    pub memory: usize,
    /// The address of the word.
    pub address: usize,
    /// What the word takes.
    pub value: u128,
}

// The write of a word waits for the edge.
fn note(
    memory: usize,
    address: &Expr,
    value: &Expr,
    values: &[u128],
    banks: &[Bank],
    waiting: &mut Vec<Update>,
)
    requires can { CanExecute values.now banks.now
        (Write memory (expr_of address.now) (expr_of value.now)) }
    requires room { vec_len waiting.old < vec_capacity waiting.old }
    requires inside { AreInside banks.now waiting.old.items }
    ensures capacity { vec_capacity waiting.new ≡ vec_capacity waiting.old }
    ensures room { vec_len waiting.new ≡ vec_len waiting.old + 1 }
    ensures inside { AreInside banks.now waiting.new.items }
    ensures words { (k at : ℕ) → put_of waiting.new.items k at
        ≡ later_or (written (nets_of values.now) (memories_of banks.now)
        (Write memory (expr_of address.now) (expr_of value.now)) k at)
        (put_of waiting.old.items k at) }
{
    let at = evaluate(address, values, banks);
    let word = evaluate(value, values, banks);
    waiting.push_reserved(Update {
        memory,
        address: at as usize,
        value: word,
    });
}

/// Executes a statement: reads the values and words of the settled cycle, puts what registers take
/// into `next`, and notes the words that are written.
pub fn execute(
    statement: &Statement,
    values: &[u128],
    banks: &[Bank],
    next: &mut Vec<u128>,
    waiting: &mut Vec<Update>,
)
    requires can { CanExecute values.now banks.now (statement_of statement.now) }
    requires size { length next.old.items ≡ length values.now }
    requires room { vec_len waiting.old + writes_in (statement_of statement.now) ≤ vec_capacity
        waiting.old }
    requires inside { AreInside banks.now waiting.old.items }
    ensures size { length next.new.items ≡ length next.old.items }
    ensures capacity { vec_capacity waiting.new ≡ vec_capacity waiting.old }
    ensures room { vec_len waiting.new ≤ vec_len waiting.old + writes_in
        (statement_of statement.now) }
    ensures inside { AreInside banks.now waiting.new.items }
    ensures registers { (r : ℕ) → slice_index next.new.items r
        ≡ unwrap_or (assigned (nets_of values.now) (memories_of banks.now)
        (statement_of statement.now) r) (slice_index next.old.items r) }
    ensures words { (k at : ℕ) → put_of waiting.new.items k at
        ≡ later_or (written (nets_of values.now) (memories_of banks.now)
        (statement_of statement.now) k at) (put_of waiting.old.items k at) }
{
    match statement {
        Statement::Nothing => {}
        Statement::Put { register, value } => {
            next[*register] = evaluate(value, values, banks);
        }
        Statement::Write {
            memory,
            address,
            value,
        } => note(*memory, address, value, values, banks, waiting),
        Statement::Block(statements) => {
            for statement in statements {
                execute(statement, values, banks, next, waiting);
            }
        }
        Statement::If { test, yes, no } => {
            if evaluate(test, values, banks) == 1 {
                execute(yes, values, banks, next, waiting);
            } else {
                execute(no, values, banks, next, waiting);
            }
        }
    }
}
