//! The weights of nodes, part by part.

ghost use Rattle.std.specs.Prelude.{◌≡◌, ◌<◌, ◌≤◌, ◌+◌, ◌*◌, ◌^◌, All, length, sum_by};
ghost use Rattle.std.specs.List.{AllByRecursion};
ghost use Rattle.gl_algebra.specs.Columns.{AggFits};
ghost use Rattle.gl_algebra.specs.FigureTable.{figures_of, window_gap};
ghost use Rattle.gl_algebra.specs.Fits.{Fits};
ghost use Rattle.gl_algebra.specs.Nodewise.{named_by};
ghost use Rattle.gl_algebra.specs.Shapes.{shape_of};
ghost use Rattle.gl_algebra.specs.Weights.{lines_of, pad_of, sum_over_children, weight_of, weight_of_agg, weight_of_copies, weight_of_spacer};
ghost use Rattle.gl_figures.specs.Answered.{capped};
ghost use Rattle.gl_figures.specs.Known.{capped_at, own_weight_by, weight_by, HasFigures, HasValues};

use crate::copied::{cap, times};
use crate::figured::figures_at;
use crate::frames::weight_by_key;
use gl_algebra::table::{
    copies_of_partition, copies_of_time, copies_of_window, delay_of_agg, delay_of_aggs, wait_of,
    waits,
};
use gl_algebra::{Figures, Plan, PlanAgg, PlanId, PlanNode};
use gl_values::Kind;

// The lines of a node's wire.
pub(crate) fn lines_of(plan: &Plan, id: PlanId) -> u128
    requires { id < length plan.now }
    ensures value { result ≡ lines_of (shape_of plan.now id) }
    ensures below { result < 2 ^ 65 }
{
    plan.kinds(id).len() as u128 + 2
}

// The delay that is added to the shorter of two sides.
fn pad_of(p: &Figures, q: &Figures) -> u128
    ensures value { result ≡ pad_of p.now q.now }
    ensures below { result < 2 ^ 32 }
{
    wait_of(p, q).max(wait_of(q, p)) as u128
}

// The part of an aggregate, its delay aside.
fn weight_of_agg(kinds: &[Kind], agg: &PlanAgg) -> u128
    requires { AggFits kinds.now agg.now }
    ensures value { result ≡ weight_of_agg kinds.now agg.now }
    ensures below { result < 2 ^ 38 }
{
    match agg {
        PlanAgg::Count => 24,
        PlanAgg::Sum(_) => 24,
        PlanAgg::Min(_) => 24,
        PlanAgg::Max(_) => 24,
        PlanAgg::Avg(_) => 16 * delay_of_agg(kinds, agg) as u128,
        PlanAgg::Wsum(_, weights) => 24 + 8 * weights.len() as u128,
    }
}

// The parts of aggregates with this delay.
fn weight_of_aggs(kinds: &[Kind], delay: u32, aggs: &[PlanAgg]) -> u128
    requires fit { All (AggFits kinds.now) aggs.now }
    requires room { length aggs.now < 2 ^ 64 }
    ensures value { result ≡ sum_by (λ agg. 2 * delay + weight_of_agg kinds.now agg) aggs.now }
    ensures below { result ≤ length aggs.now * 2 ^ 40 }
{
    match aggs.split_first() {
        None => 0,
        Some((agg, others)) => {
            let own = 2 * delay as u128 + weight_of_agg(kinds, agg);
            own + weight_of_aggs(kinds, delay, others)
        }
    }
}

// The part of the spacer before a body of this gap, where one stands, over a source of `lines` lines.
fn weight_of_spacer(gap: u32, f: &Figures, lines: u128) -> u128
    requires { lines < 2 ^ 65 }
    ensures value { result ≡ weight_of_spacer gap f.now lines }
    ensures below { result < 2 ^ 110 }
{
    let needed = 1 < gap && f.a < f.le;
    if needed {
        times(8 * lines, f.ne as u128 + 6)
    } else {
        0
    }
}

// So many copies of a body of this weight, with what stands before and behind each.
fn weight_of_copies(copies: u32, weight: u128, source: u128, own: u128) -> u128
    requires weight { weight < 2 ^ 64 }
    requires source { source < 2 ^ 65 }
    requires own { own < 2 ^ 65 }
    ensures value { result ≡ weight_of_copies copies weight source own }
    ensures below { result < 2 ^ 111 }
{
    times(weight + 8 * (source + own + 4), copies as u128) + 8 * (source + own + 16)
}

// The weight of a node before this one.
fn weight_at(plan: &Plan, weights: &[u64], number: usize, id: PlanId) -> u128
    requires below { id < number }
    requires known { HasValues (weight_of plan.now) weights.now number }
    ensures { result ≡ capped (weight_of plan.now id) }
{
    // Clauses alone speak of it.
    let _ = plan;
    let _ = number;
    weights[id.number()] as u128
}

// The weights of the children of the node of this number; a body is none.
fn weight_of_children(plan: &Plan, weights: &[u64], number: usize, node: &PlanNode) -> u128
    requires before { AllByRecursion (λ child. child < number) (named_by node.now) }
    requires known { HasValues (weight_of plan.now) weights.now number }
    ensures value { result ≡ sum_over_children (capped_at (weight_of plan.now)) node.now }
    ensures below { result < 2 ^ 64 }
{
    match node {
        PlanNode::Stream(_, _) => 0,
        PlanNode::Body(_) => 0,
        PlanNode::Compute { child, .. } => weight_at(plan, weights, number, *child),
        PlanNode::Select { child, .. } => weight_at(plan, weights, number, *child),
        PlanNode::Project { child, .. } => weight_at(plan, weights, number, *child),
        PlanNode::Frames { child, .. } => weight_at(plan, weights, number, *child),
        PlanNode::Aggregate { child, .. } => weight_at(plan, weights, number, *child),
        PlanNode::Window { source, .. } => weight_at(plan, weights, number, *source),
        PlanNode::TimeWindow { source, .. } => weight_at(plan, weights, number, *source),
        PlanNode::Group { source, .. } => weight_at(plan, weights, number, *source),
        PlanNode::Partition { source, .. } => weight_at(plan, weights, number, *source),
        PlanNode::Union { left, right } => {
            weight_at(plan, weights, number, *left) + weight_at(plan, weights, number, *right)
        }
        PlanNode::Merge { left, right } => {
            weight_at(plan, weights, number, *left) + weight_at(plan, weights, number, *right)
        }
        PlanNode::Beside { left, right } => {
            weight_at(plan, weights, number, *left) + weight_at(plan, weights, number, *right)
        }
    }
}

// Windows that have `copies` copies of this body over this source.
#[derive(Drop)]
struct Windows {
    source: PlanId,
    body: PlanId,
    copies: u32,
}

// The own part of windows, as the node of this number, which has `lines` lines.
fn weight_of_windows(
    plan: &Plan,
    figures: &[Figures],
    weights: &[u64],
    number: usize,
    own: u128,
    windows: Windows,
) -> u128
    requires within { number < length plan.now }
    requires source { windows.source < number }
    requires body { windows.body < number }
    requires figured { HasFigures plan.now figures.now number }
    requires known { HasValues (weight_of plan.now) weights.now number }
    requires own { own < 2 ^ 65 }
    ensures value { let inside = figures_of plan.now windows.body in
        let lines = lines_of (shape_of plan.now windows.source) in
        result
        ≡ weight_of_copies windows.copies (capped (weight_of plan.now windows.body)) lines own
        + 4 * inside.a
        + weight_of_spacer (window_gap inside) (figures_of plan.now windows.source) lines }
    ensures below { result < 2 ^ 113 }
{
    let inside = figures_at(plan, figures, number, windows.body);
    let around = figures_at(plan, figures, number, windows.source);
    let lines = lines_of(plan, windows.source);
    let spacer = weight_of_spacer(inside.gt.max(inside.ge), &around, lines);
    let weight = weight_at(plan, weights, number, windows.body);
    weight_of_copies(windows.copies, weight, lines, own) + 4 * inside.a as u128 + spacer
}

// The own part of the node of this number, which has `lines` lines.
fn own_weight(
    plan: &Plan,
    figures: &[Figures],
    weights: &[u64],
    number: usize,
    own: u128,
    node: &PlanNode,
) -> u128
    requires within { number < length plan.now }
    requires before { AllByRecursion (λ child. child < number) (named_by node.now) }
    requires fits { Fits plan.now number node.now }
    requires figured { HasFigures plan.now figures.now number }
    requires known { HasValues (weight_of plan.now) weights.now number }
    requires own { own < 2 ^ 65 }
    ensures value { result ≡ own_weight_by plan.now own node.now }
    ensures below { result < 2 ^ 125 }
{
    match node {
        PlanNode::Stream(_, _) => own,
        PlanNode::Body(_) => own,
        PlanNode::Compute { ops, .. } => 4 * (own + ops.len() as u128),
        PlanNode::Select { .. } => 4 * own,
        PlanNode::Project { .. } => 4 * own,
        PlanNode::Frames { child, by, items } => {
            // What `len` ensures of it is what the goals below ask for.
            let _ = items.len();
            weight_by_key(plan.kinds(*child), own, *by, items.as_slice())
        }
        PlanNode::Aggregate { child, aggs } => {
            // What `len` ensures of it is what the goals below ask for.
            let _ = aggs.len();
            let kinds = plan.kinds(*child);
            let delay = delay_of_aggs(kinds, aggs.as_slice());
            4 * own + weight_of_aggs(kinds, delay, aggs.as_slice())
        }
        PlanNode::Union { left, right } => {
            let p = figures_at(plan, figures, number, *left);
            let q = figures_at(plan, figures, number, *right);
            times(8 * own, pad_of(&p, &q) + p.ne as u128 + q.ne as u128 + 4)
        }
        PlanNode::Merge { left, right } => {
            let p = figures_at(plan, figures, number, *left);
            let q = figures_at(plan, figures, number, *right);
            times(8 * own, waits(&p, &q) + 4)
        }
        PlanNode::Beside { left, right } => {
            let p = figures_at(plan, figures, number, *left);
            let q = figures_at(plan, figures, number, *right);
            times(8 * own, pad_of(&p, &q) + 4)
        }
        PlanNode::Window {
            source,
            body,
            size,
            advance,
        } => {
            let windows = Windows {
                source: *source,
                body: *body,
                copies: copies_of_window(*size, *advance),
            };
            weight_of_windows(plan, figures, weights, number, own, windows)
        }
        PlanNode::TimeWindow {
            source,
            body,
            size,
            advance,
        } => {
            let windows = Windows {
                source: *source,
                body: *body,
                copies: copies_of_time(*size, *advance),
            };
            weight_of_windows(plan, figures, weights, number, own, windows)
        }
        PlanNode::Group {
            source,
            body,
            groups,
            ..
        } => {
            let inside = figures_at(plan, figures, number, *body);
            let around = figures_at(plan, figures, number, *source);
            let lines = lines_of(plan, *source);
            let spacer = weight_of_spacer(inside.gt, &around, lines);
            let weight = weight_at(plan, weights, number, *body);
            weight_of_copies(*groups as u32, weight, lines, own) + spacer
        }
        PlanNode::Partition {
            source,
            body,
            groups,
            size,
            advance,
            ..
        } => {
            let inside = figures_at(plan, figures, number, *body);
            let around = figures_at(plan, figures, number, *source);
            let lines = lines_of(plan, *source);
            let spacer = weight_of_spacer(inside.gt.max(inside.ge), &around, lines);
            let copies = copies_of_partition(*groups, *size, *advance);
            let weight = weight_at(plan, weights, number, *body);
            weight_of_copies(copies, weight, lines, own) + 16 * *groups as u128 + spacer
        }
    }
}

// The weight of the node of this number, which has `lines` lines, from those of the nodes before it.
pub(crate) fn weight_over(
    plan: &Plan,
    figures: &[Figures],
    weights: &[u64],
    number: usize,
    own: u128,
    node: &PlanNode,
) -> u64
    requires within { number < length plan.now }
    requires before { AllByRecursion (λ child. child < number) (named_by node.now) }
    requires fits { Fits plan.now number node.now }
    requires figured { HasFigures plan.now figures.now number }
    requires known { HasValues (weight_of plan.now) weights.now number }
    requires own { own < 2 ^ 65 }
    ensures { result ≡ capped (weight_by plan.now own node.now) }
{
    let children = weight_of_children(plan, weights, number, node);
    cap(children + own_weight(plan, figures, weights, number, own, node))
}
