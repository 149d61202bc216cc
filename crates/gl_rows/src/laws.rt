//! Laws of the operators of rows.

ghost use Rattle.gl_rows.specs.Counted.{ComputesAreCounted, KindsAreNarrow, ProjectsAreCounted, SelectsAreCounted};

/// What the operators cost at most is within what a plan counts for them in nodes, registers and memories.
pub fn rows_are_counted()
    ensures computes { ComputesAreCounted }
    ensures selects { SelectsAreCounted }
    ensures projects { ProjectsAreCounted }
    ensures narrow { KindsAreNarrow }
{}
