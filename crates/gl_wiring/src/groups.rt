//! Groups of a plan, and the numbers of their machine.

ghost use Rattle.std.specs.Prelude.{◌≡◌};
ghost use Rattle.gl_groups.specs.Groupings.{IsGrouping};
ghost use Rattle.gl_wiring.specs.Groups.{HasGroup, IsGroupNode, grouping_of};

use crate::below::laws_below;
use crate::site::Site;
use gl_algebra::{Plan, PlanId, PlanNode};
use gl_groups::Grouping;

/// A group of a plan: its number, those of its source and its body, the key's column, and how many groups there are.
#[derive(Clone, Copy)]
pub struct GroupOf {
    /// The group's own number.
    pub id: PlanId,
    /// The node whose rows it takes.
    pub source: PlanId,
    /// What it makes of the rows of each group.
    pub body: PlanId,
    /// The place of the key among the source's columns.
    pub key: u8,
    /// The groups that a stream can have.
    pub groups: u16,
}

impl GroupOf {
    /// The group at a node.
    pub(crate) fn at(plan: &Plan, id: PlanId) -> GroupOf
        requires { HasGroup plan.now id }
        ensures id { result.id ≡ id }
        ensures node { IsGroupNode plan.now result }
    {
        match plan.node(id) {
            PlanNode::Group {
                source,
                body,
                key,
                groups,
            } => GroupOf {
                id,
                source: *source,
                body: *body,
                key: *key,
                groups: *groups,
            },
            _ => unreachable!(),
        }
    }

    // The numbers of its circuit.
    pub(crate) fn grouping(&self, site: Site<'_>) -> Grouping
        requires node { IsGroupNode site.plan.now self.now }
        ensures value { let s = site.entry in result ≡ grouping_of s.plan.now self.now }
        ensures is { IsGrouping result }
    {
        laws_below();
        let _ = site.figures_at(self.id);
        let body = site.figures_at(self.body);
        Grouping {
            key: usize::from(self.key),
            slots: u32::from(self.groups),
            body,
        }
    }
}
