//! The laws of windows with spare copies.

ghost use Rattle.gl_spare.specs.Costs.{SparesAreCounted};
ghost use Rattle.gl_spare.specs.LateEnds.{LateLinesAreLate};
ghost use Rattle.gl_spare.specs.Laws.{SparesRotate, SparesSchedule, SparesServe};
ghost use Rattle.gl_spare.specs.Worked.{WorkedSpare};

/// Each copy takes whole windows, spaced as its body asks.
pub fn spares_schedule()
    ensures { SparesSchedule }
{}

/// A front with late ends over more copies than can be open at once, and a back, serve all windows of one stream.
pub fn spares_serve()
    ensures { SparesServe }
{}

/// The spare copies that windows have make a rotation.
pub fn spares_rotate()
    ensures { SparesRotate }
{}

/// What a rotation with spare copies costs is within what a plan counts for its copies.
pub fn costs_are_counted()
    ensures { SparesAreCounted }
{}

/// A worked stream: late ends and the definition of a front give the visits that were worked out by hand.
pub fn worked_spare()
    ensures { WorkedSpare }
{}

/// The lines of a circuit with late ends give a wire with late ends.
pub fn late_lines_are_late()
    ensures { LateLinesAreLate }
{}
