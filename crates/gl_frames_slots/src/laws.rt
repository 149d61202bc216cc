//! Laws of rows by slots, each of which stands in a function's contract.

ghost use Rattle.std.specs.Prelude.{ℕ};
ghost use Rattle.gl_frames_slots.specs.Stages.{RowsToldLate, SlotStagesMeet};

/// A column tells what is made of the rows of each slot, and one on rows as late tells what is made
/// of that: it tells what both make of the rows.
pub fn slot_stages_meet()
    ensures told { RowsToldLate }
    ensures meet { SlotStagesMeet ℕ ℕ ℕ }
{}
