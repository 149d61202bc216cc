//! The circuit of a node without a body.

ghost use Rattle.std.specs.Prelude.{◌≡◌, IfOk, Some, false, option_map, slice_get};
ghost use Rattle.gl_wiring.specs.Copies.{is_over};
ghost use Rattle.gl_wiring.specs.Put.{CanPut, IsPutBehind};
ghost use Rattle.gl_wiring.specs.Roots.{GivesOnce};
ghost use Rattle.gl_wiring.specs.Tables.{HaveChildren};
ghost use Rattle.gl_wiring.specs.Words.{HaveWords};

use crate::arms::{
    aggregate_node, beside_node, compute_node, leaf_of, merge_node, project_node, select_node,
    union_node,
};
use crate::below::laws_below;
use crate::parted::{FramesOf, frames_by};
use crate::site::Site;
use gl_algebra::{PlanId, PlanNode};
use gl_bits::Memory;
use gl_net::NetBuilder;
use gl_wire::Emitted;

/// Whether a node is put over copies of a body.
pub(crate) fn is_over(node: &PlanNode) -> bool
    ensures { result ≡ is_over node.now }
{
    matches!(
        node,
        PlanNode::Window { .. }
            | PlanNode::TimeWindow { .. }
            | PlanNode::Group { .. }
            | PlanNode::Partition { .. }
    )
}

/// Adds the circuit of a node without a body behind those of its children, which are in the table.
pub(crate) fn put_behind(
    net: &mut NetBuilder,
    site: Site<'_>,
    id: PlanId,
    table: &[Option<Emitted>],
) -> Result<Emitted, Memory>
    requires alone { option_map is_over (slice_get site.plan.now id) ≡ Some false }
    requires can { CanPut site.plan.now site.figures.now id net.old site.tick site.leaves.now }
    requires children { HaveChildren site.plan.now id net.old site.tick site.leaves.now table.now }
    requires words { HaveWords site.plan.now net.old site.words.now }
    ensures put { let s = site.entry in
        IfOk result (λ e. IsPutBehind s.plan.now id net.old net.new s.tick s.leaves.now e) }
    ensures once { let s = site.entry in
        IfOk result (λ e. GivesOnce s.plan.now id net.new s.tick s.leaves.now e) }
{
    laws_below();
    match site.plan.node(id) {
        PlanNode::Stream(number, _) => {
            let e = leaf_of(site.alloc, site.leaves, usize::from(*number))?;
            Ok(e)
        }
        PlanNode::Body(_) => {
            let e = leaf_of(site.alloc, site.leaves, 0)?;
            Ok(e)
        }
        PlanNode::Compute { child, ops } => compute_node(net, site, id, *child, ops, table),
        PlanNode::Select { child, column } => select_node(net, site, id, *child, *column, table),
        PlanNode::Project { child, items } => project_node(net, site, id, *child, items, table),
        PlanNode::Frames { child, by, items } => {
            let frames = FramesOf {
                id,
                child: *child,
                by: *by,
            };
            frames_by(net, site, frames, items, table)
        }
        PlanNode::Aggregate { child, aggs } => aggregate_node(net, site, id, *child, aggs, table),
        PlanNode::Union { left, right } => union_node(net, site, id, *left, *right, table),
        PlanNode::Merge { left, right } => merge_node(net, site, id, *left, *right, table),
        PlanNode::Beside { left, right } => beside_node(net, site, id, *left, *right, table),
        _ => unreachable!(),
    }
}
