//! Laws of the blocks on queues: what they serve, from the equations of their lines alone, and what they cost.

ghost use Rattle.gl_queue.specs.Counted.{JoinersAreCounted, SpacersAreCounted, UnionsAreCounted};
ghost use Rattle.gl_queue.specs.Joining.{JoinerServes};
ghost use Rattle.gl_queue.specs.Merging.{UnionServes};
ghost use Rattle.gl_queue.specs.Spacing.{SpacerServes, SpacerSpaces};

use gl_wire::laws::fits_is_side;

/// A union over two queues serves the interleavings of its inputs.
pub fn union_serves()
    ensures { UnionServes }
{
    fits_is_side();
}

/// A spacer over a queue serves the same rows.
pub fn spacer_serves()
    ensures { SpacerServes }
{
    fits_is_side();
}

/// Over beats that are spaced, what a spacer carries is apart.
pub fn spacer_spaces()
    ensures { SpacerSpaces }
{
    fits_is_side();
}

/// A joiner of two sides that bring a row with each end serves the rows side by side.
pub fn joiner_serves()
    ensures { JoinerServes }
{
    fits_is_side();
}

/// What the blocks cost at most is within what a plan counts for them in nodes, registers and memories.
pub fn costs_are_counted()
    ensures unions { UnionsAreCounted }
    ensures joiners { JoinersAreCounted }
    ensures spacers { SpacersAreCounted }
{}
