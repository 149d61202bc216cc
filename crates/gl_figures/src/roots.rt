//! The spare copies of windows at the root of a plan, and what is printed of the plan with them.

ghost use Rattle.std.specs.Prelude.{◌≡◌, ◌<◌, ◌≤◌, ◌+◌, ◌*◌, ◌^◌, length, None, Some};
ghost use Rattle.gl_algebra.specs.FigureTable.{figures_of};
ghost use Rattle.gl_algebra.specs.Roots.{spare_at};
ghost use Rattle.gl_algebra.specs.Small.{AreFigures};
ghost use Rattle.gl_algebra.specs.Weights.{copies_of, weight_of};
ghost use Rattle.gl_figures.specs.Answered.{capped, AreWeights, IsPrinted};
ghost use Rattle.gl_figures.specs.Known.{copies_inside, weight_alone, HasValues};
ghost use Rattle.gl_bits.specs.Limits.{most_weight};

use crate::Printed;
use crate::copied::{cap, copies_at, times};
use crate::spares::{last_with_spare, spare};
use crate::ticks::{gap_with, root_ticks, ticks_with};
use crate::weights::lines_of;
use gl_algebra::laws::{figures_are_sound, nodes_follow_tables};
use gl_algebra::table::copies_of_window;
use gl_algebra::{Figures, Plan, PlanId, PlanNode, Spare};
use gl_bits::limits::MOST_WEIGHT;

/// The figures of a node, of those of all.
pub fn figures_at(plan: &Plan, figures: &[Figures], id: PlanId) -> Figures
    requires within { id < length plan.now }
    requires figures { AreFigures plan.now figures.now }
    ensures { result ≡ figures_of plan.now id }
{
    // Clauses alone speak of it.
    let _ = plan;
    figures[id.number()]
}

// The weight of a node, or 2^62 where it is more.
fn weight_at(plan: &Plan, weights: &[u64], id: PlanId) -> u64
    requires within { id < length plan.now }
    requires weights { AreWeights plan.now weights.now }
    ensures { result ≡ capped (weight_of plan.now id) }
{
    // Clauses alone speak of it.
    let _ = plan;
    weights[id.number()]
}

// The weight with the output, or 2^62 where it is more, of windows that have `further` copies more: their own weight, that of
// their body, the lines of their source and their own.
fn weight_with_further(weight: u64, body: u64, source: u128, own: u128, further: u32) -> u64
    requires source { source < 2 ^ 65 }
    requires own { own < 2 ^ 65 }
    ensures { result ≡ capped (weight + further * (body + 8 * (source + own + 4)) + 8 * (own + 8)) }
{
    let each = body as u128 + 8 * (source + own + 4);
    cap(weight as u128 + times(each, further as u128) + 8 * (own + 8))
}

/// The spare copies of a root: windows that have some, where the plan is no heavier with them than a plan may be. The figures
/// are those of all nodes, the weights those that `weigh` leaves.
pub fn root_spare(plan: &Plan, root: PlanId, figures: &[Figures], weights: &[u64]) -> Option<Spare>
    requires root { root < length plan.now }
    requires figures { AreFigures plan.now figures.now }
    requires weights { AreWeights plan.now weights.now }
    ensures { result ≡ spare_at plan.now root }
{
    figures_are_sound();
    match plan.node(root) {
        PlanNode::Window {
            source,
            body,
            size,
            advance,
        } => {
            let around = figures_at(plan, figures, *source);
            let inside = figures_at(plan, figures, *body);
            let it = spare(&around, &inside, *size, *advance)?;
            let further = it.copies - copies_of_window(*size, *advance);
            let weight = weight_at(plan, weights, root);
            let each = weight_at(plan, weights, *body);
            let lines = lines_of(plan, *source);
            if weight_with_further(weight, each, lines, lines_of(plan, root), further)
                > MOST_WEIGHT
            {
                return None;
            }
            Some(it)
        }
        _ => None,
    }
}

// The copies in the body of a root, or 2^62 where they are more; 0 where it has none.
pub(crate) fn copies_inside(plan: &Plan, root: PlanId, copies: &[u64]) -> u64
    requires root { root < length plan.now }
    requires copies { HasValues (copies_of plan.now) copies.now (length plan.now) }
    ensures { result ≡ copies_inside plan.now root }
{
    match plan.node(root) {
        PlanNode::Window { body, .. } => cap(copies_at(plan, copies, plan.len(), *body)),
        _ => 0,
    }
}

// What is printed of a plan that is light enough, whose root has no spare copies.
pub(crate) fn printed_alone(plan: &Plan, root: PlanId, figures: &[Figures], copies: u64) -> Printed
    requires root { root < length plan.now }
    requires figures { AreFigures plan.now figures.now }
    requires light { weight_alone plan.now root ≤ most_weight }
    requires copies { copies ≡ capped (copies_of plan.now root) }
    requires spare { spare_at plan.now root ≡ None }
    ensures { IsPrinted plan.now root result }
{
    nodes_follow_tables();
    // What `len` ensures of it is what the goals below ask for.
    let _ = plan.len();
    let own = figures_at(plan, figures, root);
    let ticks = root_ticks(plan, root, figures);
    Printed {
        latency: own.le as u64 + 1,
        gap: gap_with(ticks, own.gt),
        ticks: ticks_with(ticks),
        copies,
    }
}

// What is printed of a plan whose root is windows with these spare copies.
pub(crate) fn printed_with(
    plan: &Plan,
    root: PlanId,
    figures: &[Figures],
    copies: u64,
    inside: u64,
    it: Spare,
) -> Printed
    requires root { root < length plan.now }
    requires figures { AreFigures plan.now figures.now }
    requires copies { copies ≡ capped (copies_of plan.now root) }
    requires inside { inside ≡ copies_inside plan.now root }
    requires spare { spare_at plan.now root ≡ Some it }
    ensures { IsPrinted plan.now root result }
{
    nodes_follow_tables();
    match plan.node(root) {
        PlanNode::Window {
            source,
            body,
            size,
            advance,
        } => {
            let around = figures_at(plan, figures, *source);
            let within = figures_at(plan, figures, *body);
            let turns = copies_of_window(*size, *advance);
            let last = last_with_spare(turns, it.shift as u64, &around, &within);
            let further = times(1 + inside as u128, (it.copies - turns) as u128);
            Printed {
                latency: cap(last + 1),
                gap: it.gap,
                ticks: None,
                copies: cap(copies as u128 + further),
            }
        }
        _ => unreachable!(),
    }
}
