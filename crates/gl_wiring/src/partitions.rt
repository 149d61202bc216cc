//! Windows of each group of a plan, and the numbers of their machine.

ghost use Rattle.std.specs.Prelude.{◌≡◌};
ghost use Rattle.gl_partition.specs.Partitionings.{IsPartitioning};
ghost use Rattle.gl_wiring.specs.Partitions.{HasPartition, IsPartitionNode, partitioning_of};

use crate::below::laws_below;
use crate::site::Site;
use gl_algebra::{Plan, PlanId, PlanNode, table};
use gl_partition::Partitioning;

/// Windows of each group of a plan: their number, those of the source and the body, the key's column, how many groups there are, and the
/// rows of a window.
#[derive(Clone, Copy)]
pub struct PartitionOf {
    /// The node's own number.
    pub id: PlanId,
    /// The node whose rows it takes.
    pub source: PlanId,
    /// What it makes of the rows of each window.
    pub body: PlanId,
    /// The place of the key among the source's columns.
    pub key: u8,
    /// The groups that a stream can have.
    pub groups: u16,
    /// The rows of a window.
    pub size: u32,
    /// The rows of a group from the first one of a window to that of the next.
    pub advance: u32,
}

impl PartitionOf {
    /// The windows of each group at a node.
    pub(crate) fn at(plan: &Plan, id: PlanId) -> PartitionOf
        requires { HasPartition plan.now id }
        ensures id { result.id ≡ id }
        ensures node { IsPartitionNode plan.now result }
    {
        match plan.node(id) {
            PlanNode::Partition {
                source,
                body,
                key,
                groups,
                size,
                advance,
            } => PartitionOf {
                id,
                source: *source,
                body: *body,
                key: *key,
                groups: *groups,
                size: *size,
                advance: *advance,
            },
            _ => unreachable!(),
        }
    }

    // The numbers of its circuit.
    pub(crate) fn partitioning(&self, site: Site<'_>) -> Partitioning
        requires node { IsPartitionNode site.plan.now self.now }
        ensures value { let s = site.entry in result ≡ partitioning_of s.plan.now self.now }
        ensures is { IsPartitioning result }
    {
        laws_below();
        let _ = site.figures_at(self.id);
        let body = site.figures_at(self.body);
        let copies = table::copies_of_window(self.size, self.advance);
        Partitioning {
            key: usize::from(self.key),
            slots: u32::from(self.groups),
            size: self.size,
            advance: self.advance,
            copies,
            body,
        }
    }
}
