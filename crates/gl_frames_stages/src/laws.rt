//! Laws of frames in stages, each of which stands in a function's contract.

ghost use Rattle.std.specs.Prelude.{ℕ};
ghost use Rattle.gl_frames_stages.specs.Counted.{FramesAreCounted};
ghost use Rattle.gl_frames_stages.specs.DoublingNets.{DoublingsAreBits};
ghost use Rattle.gl_frames_stages.specs.Laws.{BestsDouble, ChangesSum, StagesMeet};

/// A column tells what is made of the rows so far, and one on lines as late what is made of that: it
/// tells what both make of the rows.
pub fn stages_meet()
    ensures { StagesMeet ℕ ℕ ℕ }
{}

/// The sum of all changes up to a row is the sum of the last words.
pub fn changes_sum()
    ensures { ChangesSum }
{}

/// The better one of two windows of bests is the best of more rows.
pub fn bests_double()
    ensures { BestsDouble }
{}

/// One row is doubled as often as the number of rows before the last one has bits.
pub fn doublings_are_bits()
    ensures { DoublingsAreBits }
{}

/// What frames cost at most is within what a plan counts for their node.
pub fn frames_are_counted()
    ensures { FramesAreCounted }
{}
