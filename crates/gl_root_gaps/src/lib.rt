//! The gaps of a plan's root: how far apart beats are, and ticks where they are farther apart than tuples.
#![tactic(auto)]

ghost use Rattle.std.specs.Prelude.{◌≡◌};
ghost use Rattle.gl_root_gaps.specs.Roots.{rows_below};

use gl_algebra::{PlanId, PlanNode};

/// The gaps of windows of time that no more than rows stand above: ticks are farther apart than tuples, so that a window is
/// told while tuples of the next one come.
#[derive(Clone, Copy, PartialEq, Eq, Debug)]
pub struct TickGaps {
    /// The fewest cycles from one beat to the next.
    pub gap: u32,
    /// The fewest cycles from a tick to the next one, and to the end.
    pub ticks: u32,
}

/// The node whose rows this one takes one by one, where it does: computed columns, a filter, or picked columns.
pub fn rows_below(node: &PlanNode) -> Option<PlanId>
    ensures { result ≡ rows_below node.now }
{
    match node {
        PlanNode::Compute { child, .. } => Some(*child),
        PlanNode::Select { child, .. } => Some(*child),
        PlanNode::Project { child, .. } => Some(*child),
        _ => None,
    }
}
