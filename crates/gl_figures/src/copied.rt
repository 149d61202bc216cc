//! The copies of bodies in each node of a plan.

ghost use Rattle.std.specs.Prelude.{◌≡◌, ◌<◌, ◌*◌, ◌^◌, length};
ghost use Rattle.std.specs.List.{AllByRecursion};
ghost use Rattle.gl_algebra.specs.Fits.{Fits};
ghost use Rattle.gl_algebra.specs.Nodewise.{named_by};
ghost use Rattle.gl_algebra.specs.Weights.{copies_from, copies_of};
ghost use Rattle.gl_figures.specs.Answered.{capped};
ghost use Rattle.gl_figures.specs.Known.{capped_at, HasValues};

use gl_algebra::laws::nodes_follow_tables;
use gl_algebra::table::{copies_of_partition, copies_of_time, copies_of_window};
use gl_algebra::{Plan, PlanId, PlanNode};

/// A number, or 2^62 where it is more.
pub fn cap(number: u128) -> u64
    ensures { result ≡ capped number }
{
    number.min(0x4000_0000_0000_0000) as u64
}

// The product of a large number and a small one.
pub(crate) fn times(large: u128, small: u128) -> u128
    requires large { large < 2 ^ 70 }
    requires small { small < 2 ^ 40 }
    ensures value { result ≡ large * small }
    ensures turned { result ≡ small * large }
    ensures below { result < 2 ^ 110 }
{
    large * small
}

// Writes the copies of each node into the node's place.
pub(crate) fn count_copies(plan: &Plan, into: &mut [u64])
    requires { length into.old ≡ length plan.now }
    ensures { HasValues (copies_of plan.now) into.new (length plan.now) }
{
    nodes_follow_tables();
    for number in 0..plan.len() {
        into[number] = copies_over(plan, into, number, plan.node(plan.id(number)));
    }
}

// The copies of a node before this one.
pub(crate) fn copies_at(plan: &Plan, copies: &[u64], number: usize, id: PlanId) -> u128
    requires below { id < number }
    requires known { HasValues (copies_of plan.now) copies.now number }
    ensures { result ≡ capped (copies_of plan.now id) }
{
    // Clauses alone speak of it.
    let _ = plan;
    let _ = number;
    copies[id.number()] as u128
}

// The copies of the node of this number, from those of the nodes before it.
fn copies_over(plan: &Plan, copies: &[u64], number: usize, node: &PlanNode) -> u64
    requires before { AllByRecursion (λ child. child < number) (named_by node.now) }
    requires fits { Fits plan.now number node.now }
    requires known { HasValues (copies_of plan.now) copies.now number }
    ensures { result ≡ capped (copies_from (capped_at (copies_of plan.now)) node.now) }
{
    match node {
        PlanNode::Stream(_, _) => 0,
        PlanNode::Body(_) => 0,
        PlanNode::Compute { child, .. } => cap(copies_at(plan, copies, number, *child)),
        PlanNode::Select { child, .. } => cap(copies_at(plan, copies, number, *child)),
        PlanNode::Project { child, .. } => cap(copies_at(plan, copies, number, *child)),
        PlanNode::Frames { child, .. } => cap(copies_at(plan, copies, number, *child)),
        PlanNode::Aggregate { child, .. } => cap(copies_at(plan, copies, number, *child)),
        PlanNode::Union { left, right } => {
            cap(copies_at(plan, copies, number, *left) + copies_at(plan, copies, number, *right))
        }
        PlanNode::Merge { left, right } => {
            cap(copies_at(plan, copies, number, *left) + copies_at(plan, copies, number, *right))
        }
        PlanNode::Beside { left, right } => {
            cap(copies_at(plan, copies, number, *left) + copies_at(plan, copies, number, *right))
        }
        PlanNode::Window {
            source,
            body,
            size,
            advance,
        } => {
            let each = 1 + copies_at(plan, copies, number, *body);
            let own = times(each, copies_of_window(*size, *advance) as u128);
            cap(copies_at(plan, copies, number, *source) + own)
        }
        PlanNode::TimeWindow {
            source,
            body,
            size,
            advance,
        } => {
            let each = 1 + copies_at(plan, copies, number, *body);
            let own = times(each, copies_of_time(*size, *advance) as u128);
            cap(copies_at(plan, copies, number, *source) + own)
        }
        PlanNode::Group {
            source,
            body,
            groups,
            ..
        } => {
            let each = 1 + copies_at(plan, copies, number, *body);
            let own = times(each, *groups as u128);
            cap(copies_at(plan, copies, number, *source) + own)
        }
        PlanNode::Partition {
            source,
            body,
            groups,
            size,
            advance,
            ..
        } => {
            let each = 1 + copies_at(plan, copies, number, *body);
            let own = times(each, copies_of_partition(*groups, *size, *advance) as u128);
            cap(copies_at(plan, copies, number, *source) + own)
        }
    }
}
