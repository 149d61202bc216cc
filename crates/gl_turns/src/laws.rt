//! Laws of sides that take turns, from what their wires carry alone.

ghost use Rattle.gl_turns.specs.Counted.{TurnsAreCounted, TurnsOfStreams};
ghost use Rattle.gl_turns.specs.Turns.{ArrivalsInterleave, TurnsLeaveNext, TurnsServe};

/// Sides that take turns serve their order of arrival, and no row waits.
pub fn turns_serve()
    ensures order { TurnsServe }
    ensures next { TurnsLeaveNext }
    ensures interleave { ArrivalsInterleave }
{}

/// What turns cost is within their weight. Turns over streams have the number of streams as gap.
pub fn turns_are_counted()
    ensures weight { TurnsAreCounted }
    ensures streams { TurnsOfStreams }
{}
