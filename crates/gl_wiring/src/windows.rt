//! Windows of a plan, and the numbers of their machine.

ghost use Rattle.std.specs.Prelude.{◌≡◌};
ghost use Rattle.gl_windows.specs.Rotations.{IsRotation};
ghost use Rattle.gl_wiring.specs.Windows.{HasWindow, IsWindow, rotation_of};

use crate::below::laws_below;
use crate::site::Site;
use gl_algebra::{Plan, PlanId, PlanNode, table};
use gl_windows::Rotation;

/// A window of a plan: its number, those of its source and its body, and its rows.
#[derive(Clone, Copy)]
pub struct WindowOf {
    /// The window's own number.
    pub id: PlanId,
    /// The node whose rows it takes.
    pub source: PlanId,
    /// What it makes of the rows of each window.
    pub body: PlanId,
    /// The rows of a window.
    pub size: u32,
    /// The rows from the first one of a window to that of the next.
    pub advance: u32,
}

impl WindowOf {
    /// The window at a node.
    pub(crate) fn at(plan: &Plan, id: PlanId) -> WindowOf
        requires { HasWindow plan.now id }
        ensures id { result.id ≡ id }
        ensures node { IsWindow plan.now result }
    {
        match plan.node(id) {
            PlanNode::Window {
                source,
                body,
                size,
                advance,
            } => WindowOf {
                id,
                source: *source,
                body: *body,
                size: *size,
                advance: *advance,
            },
            _ => unreachable!(),
        }
    }

    // The rotation over as many copies as windows can be open at once.
    pub(crate) fn rotation(&self, site: Site<'_>) -> Rotation
        requires node { IsWindow site.plan.now self.now }
        ensures value { let s = site.entry in result ≡ rotation_of s.plan.now self.now }
        ensures is { IsRotation result }
    {
        laws_below();
        let _ = site.figures_at(self.id);
        let body = site.figures_at(self.body);
        let copies = table::copies_of_window(self.size, self.advance);
        Rotation {
            size: self.size,
            advance: self.advance,
            copies,
            body,
        }
    }
}
