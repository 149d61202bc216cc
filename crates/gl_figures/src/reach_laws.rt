//! A law and a worked plan, each of which stands in a function's contract.

ghost use Rattle.gl_figures.specs.Reach.{OnceIsLess};
ghost use Rattle.gl_figures.specs.WorkedReach.{WorkedReach};

use gl_algebra::laws::nodes_follow_tables;

/// What roots reach, each node once, counts no more than the roots do together.
pub fn once_is_less()
    ensures { OnceIsLess }
{
    nodes_follow_tables();
}

/// A worked plan.
pub fn worked_reach()
    ensures { WorkedReach }
{}
