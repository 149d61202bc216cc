//! The laws of a tree of keys. The contract of each function is the law; it does nothing.

ghost use Rattle.gl_frames_tree.specs.Laws.{FirstKeysLead, LastIsFirst, LastIsKept, LevelsNumber};
ghost use Rattle.gl_frames_tree.specs.Worked.{WorkedTree};

/// A level over rows whose nodes are numbered numbers their children.
pub fn levels_number()
    ensures { LevelsNumber }
{}

/// No row of one of the first keys is lost at any level, and at the last one no other is kept.
pub fn first_keys_lead()
    ensures lead { FirstKeysLead }
    ensures kept { LastIsKept }
    ensures first { LastIsFirst }
{}

/// The worked rows are as they are written.
pub fn worked_rows()
    ensures { WorkedTree }
{}
