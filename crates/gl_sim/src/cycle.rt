//! The parts of a cycle: inputs, assignments, blocks, words.

ghost use Rattle.std.specs.Prelude.{◌≡◌, ℕ, ◌+◌, ◌<◌, ◌≤◌, length, [], unwrap_or, slice_index, slice_index_or, vec_len, vec_capacity};
ghost use Rattle.gl_verilog.specs.Module.{assigned, written, later_or};
ghost use Rattle.gl_verilog.specs.View.{module_of, chained};
ghost use Rattle.gl_verilog.specs.Evaluate.{nets_of, memories_of, IsStore};
ghost use Rattle.gl_verilog.specs.Order.{evaluated};
ghost use Rattle.gl_verilog.specs.Runnable.{IsRunnable, inputs_of, FitInputs};
ghost use Rattle.gl_sim.specs.Inputs.{with_inputs};
ghost use Rattle.gl_verilog_check.specs.Orders.{IsOrderOf, picked};
ghost use Rattle.gl_sim.specs.Updates.{put_of, AreInside, writes_in, CanExecute};

use crate::update::{Update, execute};
use gl_verilog::{Bank, Module, Statement, evaluate};

/// Gives each assigned net its value, in this order of the assignments.
pub fn settle(design: &Module, order: &[usize], values: &mut Vec<u128>, banks: &[Bank])
    requires runnable { IsRunnable (module_of design.now) }
    requires order { IsOrderOf (module_of design.now).assignments order.now }
    requires store { IsStore (module_of design.now).declarations values.old.items banks.now }
    ensures store { IsStore (module_of design.now).declarations values.new.items banks.now }
    ensures settled { nets_of values.new.items
        ≡ evaluated (picked (module_of design.now).assignments order.now) (memories_of banks.now)
        (nets_of values.old.items) }
{
    let assignments = design.assignments.as_slice();
    for k in order {
        let assignment = &assignments[*k];
        values[assignment.target] = evaluate(&assignment.value, values, banks);
    }
}

/// Sets the input ports with these numbers.
pub fn set_inputs(
    design: &Module,
    ports: &[usize],
    inputs: &[u128],
    values: &mut Vec<u128>,
    banks: &[Bank],
)
    requires ports { ports.now ≡ inputs_of (module_of design.now) }
    requires fit { FitInputs (module_of design.now) inputs.now }
    requires store { IsStore (module_of design.now).declarations values.old.items banks.now }
    ensures store { IsStore (module_of design.now).declarations values.new.items banks.now }
    ensures set { nets_of values.new.items ≡ with_inputs ports.now inputs.now
        (nets_of values.old.items) }
{
    for (i, port) in ports.iter().enumerate() {
        values[*port] = inputs[i];
    }
}

/// Keeps the settled values.
pub fn keep(values: &[u128], shown: &mut Vec<u128>)
    requires { length shown.old.items ≡ length values.now }
    ensures { shown.new.items ≡ values.now }
{
    shown.copy_from_slice(values);
}

/// Executes the blocks on the settled values.
pub fn run_blocks(
    blocks: &[Statement],
    values: &[u128],
    banks: &[Bank],
    next: &mut Vec<u128>,
    waiting: &mut Vec<Update>,
)
    requires can { CanExecute values.now banks.now (chained blocks.now) }
    requires size { length next.old.items ≡ length values.now }
    requires room { vec_len waiting.old + writes_in
        (chained blocks.now) ≤ vec_capacity waiting.old }
    requires inside { AreInside banks.now waiting.old.items }
    ensures size { length next.new.items ≡ length next.old.items }
    ensures capacity { vec_capacity waiting.new ≡ vec_capacity waiting.old }
    ensures inside { AreInside banks.now waiting.new.items }
    ensures registers { (r : ℕ) → slice_index next.new.items r
        ≡ unwrap_or (assigned (nets_of values.now) (memories_of banks.now) (chained blocks.now) r)
        (slice_index next.old.items r) }
    ensures words { (k at : ℕ) → put_of waiting.new.items k at
        ≡ later_or (written (nets_of values.now) (memories_of banks.now) (chained blocks.now) k at)
        (put_of waiting.old.items k at) }
{
    for block in blocks {
        execute(block, values, banks, next, waiting);
    }
}

/// Puts the words that waited for the edge.
pub fn write_words(updates: &[Update], banks: &mut Vec<Bank>)
    requires { AreInside banks.old.items updates.now }
    ensures size { length banks.new.items ≡ length banks.old.items }
    ensures sizes { (k : ℕ) → length (slice_index_or banks.new.items k [])
        ≡ length (slice_index_or banks.old.items k []) }
    ensures words { (k at : ℕ) → memories_of banks.new.items k at
        ≡ unwrap_or (put_of updates.now k at) (memories_of banks.old.items k at) }
{
    for update in updates {
        let bank = &mut banks[update.memory];
        bank.set(update.address, update.value);
    }
}
