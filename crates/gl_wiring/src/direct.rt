//! Whether the states of a group's slots can stand in memories.

ghost use Rattle.std.specs.Prelude.{◌≡◌, ◌<◌, length};
ghost use Rattle.gl_algebra.specs.Direct.{form_of, is_direct, is_rowwise};

use crate::below::laws_below;
use gl_algebra::{Plan, PlanId, PlanNode};

// Whether a node gives of each row of a body's input one or none.
fn is_rowwise(plan: &Plan, id: PlanId) -> bool
    requires { id < length plan.now }
    ensures { result ≡ is_rowwise (form_of plan.now id) }
{
    laws_below();
    match plan.node(id) {
        PlanNode::Body(_) => true,
        PlanNode::Compute { child, .. } => is_rowwise(plan, *child),
        PlanNode::Select { child, .. } => is_rowwise(plan, *child),
        PlanNode::Project { child, .. } => is_rowwise(plan, *child),
        _ => false,
    }
}

/// Whether a body is totals of rows that come of its input one by one, so that it can stand once for all slots.
pub(crate) fn is_direct(plan: &Plan, body: PlanId) -> bool
    requires { body < length plan.now }
    ensures { result ≡ is_direct (form_of plan.now body) }
{
    laws_below();
    match plan.node(body) {
        PlanNode::Aggregate { child, aggs } => {
            !aggs.as_slice().is_empty() && is_rowwise(plan, *child)
        }
        _ => false,
    }
}
