//! What beats that keep a gap keep.

ghost use Rattle.std.specs.Prelude.{◌↔◌, ℕ};
ghost use Rattle.gl_schema.specs.Beats.{Beats, KeepsGap};
ghost use Rattle.gl_gaps.specs.Keeps.{KeepsGaps, even_gaps};

/// Beats that keep a gap keep it of ticks too.
pub fn ticks_keep_the_gap()
    ensures { (gap : ℕ) (all : Beats) → KeepsGaps (even_gaps gap) all ↔ KeepsGap gap all }
{}
