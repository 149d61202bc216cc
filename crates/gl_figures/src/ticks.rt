//! The gaps of windows of time at the root of a plan, or under rows there, where ticks are farther apart than tuples.

ghost use Rattle.std.specs.Prelude.{◌≡◌, ◌<◌, ◌≤◌, None, length, option_and_then, slice_get};
ghost use Rattle.gl_algebra.specs.FigureTable.{IsSound, stride_of};
ghost use Rattle.gl_root_gaps.specs.Roots.{gap_with, rows_below, tick_gaps_at, ticks_with};
ghost use Rattle.gl_root_gaps.specs.Together.{gap_alone, ticks_alone};
ghost use Rattle.gl_algebra.specs.Small.{AreFigures};
ghost use Rattle.gl_root_gaps.specs.TickGaps.{tick_gaps_of};

use crate::roots::figures_at;
use gl_algebra::laws::figures_are_sound;
use gl_algebra::{Figures, Plan, PlanId, PlanNode};
use gl_root_gaps::{TickGaps, rows_below};

// The cycles by which the ends of two copies of a body are apart.
fn stride(body: &Figures) -> u32
    requires { IsSound body.now }
    ensures { result ≡ stride_of body.now }
{
    body.le - body.a + 1
}

/// The gaps of windows of time; None where tuples come no closer than where a tick is a beat like any other.
pub fn tick_gaps(body: &Figures, size: u32, advance: u32) -> Option<TickGaps>
    requires body { IsSound body.now }
    requires advance { 1 ≤ advance }
    ensures { result ≡ tick_gaps_of size advance body.now }
{
    if body.gt < body.ge {
        let told = stride(body).div_ceil(advance.saturating_sub(size).max(1));
        let ready = body
            .ge
            .div_ceil(advance.saturating_sub(size % advance).max(1));
        Some(TickGaps {
            gap: body.gt,
            ticks: body.gt.max(told).max(ready),
        })
    } else {
        None
    }
}

/// Those of a root: windows of time may have some, and rows above them have theirs. The figures are those of all nodes.
pub fn root_ticks(plan: &Plan, root: PlanId, figures: &[Figures]) -> Option<TickGaps>
    requires root { root < length plan.now }
    requires figures { AreFigures plan.now figures.now }
    ensures { result ≡ tick_gaps_at plan.now root }
{
    let below = rows_below(plan.node(root));
    match below {
        Some(child) => root_ticks(plan, child, figures),
        None => own_ticks(plan, root, figures),
    }
}

// Those of a node that takes no rows one by one.
fn own_ticks(plan: &Plan, id: PlanId, figures: &[Figures]) -> Option<TickGaps>
    requires within { id < length plan.now }
    requires figures { AreFigures plan.now figures.now }
    requires alone { option_and_then rows_below (slice_get plan.now id) ≡ None }
    ensures { result ≡ tick_gaps_at plan.now id }
{
    figures_are_sound();
    match plan.node(id) {
        PlanNode::TimeWindow {
            body,
            size,
            advance,
            ..
        } => {
            let inside = figures_at(plan, figures, *body);
            tick_gaps(&inside, *size, *advance)
        }
        _ => None,
    }
}

// The gap of beats with such gaps, or this one.
pub(crate) fn gap_with(it: Option<TickGaps>, own: u32) -> u32
    ensures { result ≡ gap_with it own }
{
    match it {
        None => own,
        Some(it) => it.gap,
    }
}

// That of ticks, where it is another one.
pub(crate) fn ticks_with(it: Option<TickGaps>) -> Option<u32>
    ensures { result ≡ ticks_with it }
{
    match it {
        None => None,
        Some(it) => Some(it.ticks),
    }
}

/// The gap of beats of a root that stands beside others: its node's, or that of tuples where ticks are farther apart.
pub fn gap_alone(plan: &Plan, root: PlanId, figures: &[Figures]) -> u32
    requires root { root < length plan.now }
    requires figures { AreFigures plan.now figures.now }
    ensures { result ≡ gap_alone plan.now root }
{
    let own = figures_at(plan, figures, root);
    let ticks = root_ticks(plan, root, figures);
    gap_with(ticks, own.gt)
}

/// That of its ticks, or the same.
pub fn ticks_alone(plan: &Plan, root: PlanId, figures: &[Figures]) -> u32
    requires root { root < length plan.now }
    requires figures { AreFigures plan.now figures.now }
    ensures { result ≡ ticks_alone plan.now root }
{
    let own = figures_at(plan, figures, root);
    let ticks = root_ticks(plan, root, figures);
    match ticks {
        None => own.gt,
        Some(it) => it.ticks,
    }
}
