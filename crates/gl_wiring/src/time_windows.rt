//! Windows of time of a plan, and the numbers of their machine.

ghost use Rattle.std.specs.Prelude.{◌≡◌};
ghost use Rattle.gl_windows.specs.TimeRotations.{IsTimeRotation};
ghost use Rattle.gl_wiring.specs.TimeWindows.{HasTimeWindow, IsTimeWindow, time_rotation_of};

use crate::below::laws_below;
use crate::site::Site;
use gl_algebra::{Plan, PlanId, PlanNode};
use gl_windows::TimeRotation;

/// A window of time of a plan: its number, those of its source, a stream, and of its body, and its ticks.
#[derive(Clone, Copy)]
pub struct TimeWindowOf {
    /// The window's own number.
    pub id: PlanId,
    /// The stream whose rows it takes.
    pub source: PlanId,
    /// What it makes of the rows of each window.
    pub body: PlanId,
    /// The ticks of a window.
    pub size: u32,
    /// The ticks from the begin of a window to that of the next.
    pub advance: u32,
}

impl TimeWindowOf {
    /// The window of time at a node.
    pub(crate) fn at(plan: &Plan, id: PlanId) -> TimeWindowOf
        requires { HasTimeWindow plan.now id }
        ensures id { result.id ≡ id }
        ensures node { IsTimeWindow plan.now result }
    {
        match plan.node(id) {
            PlanNode::TimeWindow {
                source,
                body,
                size,
                advance,
            } => TimeWindowOf {
                id,
                source: *source,
                body: *body,
                size: *size,
                advance: *advance,
            },
            _ => unreachable!(),
        }
    }

    // The rotation over as many copies as windows can be open at once.
    pub(crate) fn rotation(&self, site: Site<'_>) -> TimeRotation
        requires node { IsTimeWindow site.plan.now self.now }
        ensures value { let s = site.entry in result ≡ time_rotation_of s.plan.now self.now }
        ensures is { IsTimeRotation result }
    {
        laws_below();
        let _ = site.figures_at(self.id);
        let body = site.figures_at(self.body);
        TimeRotation {
            size: self.size,
            advance: self.advance,
            body,
        }
    }
}
