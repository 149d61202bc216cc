//! The clock's edge.

ghost use Rattle.std.specs.Prelude.{◌≡◌, ℕ, [], ◌≤◌, unwrap_or, slice_index, vec_capacity};
ghost use Rattle.gl_verilog.specs.Module.{assigned_by, written_by};
ghost use Rattle.gl_verilog.specs.View.{module_of, chained};
ghost use Rattle.gl_verilog.specs.Evaluate.{nets_of, memories_of, IsStore};
ghost use Rattle.gl_verilog.specs.Runnable.{IsRunnable};
ghost use Rattle.gl_sim.specs.Updates.{writes_in};

use crate::cycle::{run_blocks, write_words};
use crate::update::Update;
use gl_verilog::{Bank, Module};

/// Updates registers and words all at once, by what was settled. `next` holds the settled values
/// before, and the registers' next values after; `waiting` is room for the words.
pub fn clock(
    design: &Module,
    settled: &[u128],
    next: &mut Vec<u128>,
    banks: &mut Vec<Bank>,
    waiting: &mut Vec<Update>,
)
    requires runnable { IsRunnable (module_of design.now) }
    requires store { IsStore (module_of design.now).declarations settled.now banks.old.items }
    requires same { next.old.items ≡ settled.now }
    requires none { waiting.old.items ≡ [] }
    requires room { writes_in (chained design.now.blocks) ≤ vec_capacity waiting.old }
    ensures store { IsStore (module_of design.now).declarations next.new.items banks.new.items }
    ensures none { waiting.new.items ≡ [] }
    ensures room { vec_capacity waiting.new ≡ vec_capacity waiting.old }
    ensures registers { (r : ℕ) → slice_index next.new.items r
        ≡ unwrap_or (assigned_by (nets_of settled.now) (memories_of banks.old.items)
        (module_of design.now).blocks r) (slice_index settled.now r) }
    ensures words { (k at : ℕ) → memories_of banks.new.items k at
        ≡ unwrap_or (written_by (nets_of settled.now) (memories_of banks.old.items)
        (module_of design.now).blocks k at) (memories_of banks.old.items k at) }
{
    run_blocks(design.blocks.as_slice(), settled, banks, next, waiting);
    write_words(waiting, banks);
    waiting.clear();
}
