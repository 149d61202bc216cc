//! Laws of totals.

ghost use Rattle.gl_totals.specs.Counted.{AggregatesAreCounted};

/// What aggregates cost at most is within what a plan counts for them in nodes, registers and memories.
pub fn aggregates_are_counted()
    ensures { AggregatesAreCounted }
{}
