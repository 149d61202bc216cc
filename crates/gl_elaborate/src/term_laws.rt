//! Laws of terms. The contract of each function is the law; it does nothing.

ghost use Rattle.gl_elaborate.specs.Depths.{LevelsAreByDepth};

/// A level has the operations of its depth.
pub fn levels_are_by_depth()
    ensures { LevelsAreByDepth }
{}
