//! The figures of each node of a plan.

ghost use Rattle.std.specs.Prelude.{◌≡◌, ◌<◌, length, Some, IfErr, IfOk, OnOk};
ghost use Rattle.std.specs.List.{AllByRecursion};
ghost use Rattle.gl_algebra.specs.FigureTable.{figures_of};
ghost use Rattle.gl_algebra.specs.Fits.{Fits};
ghost use Rattle.gl_algebra.specs.Nodewise.{named_by};
ghost use Rattle.gl_algebra.specs.Small.{AreFigures};
ghost use Rattle.gl_figures.specs.Answered.{AreSmallBefore, IsLate};
ghost use Rattle.gl_figures.specs.Known.{small_over, HasFigures};

use crate::Limit;
use gl_algebra::keys::delay_by_key;
use gl_algebra::laws::nodes_follow_tables;
use gl_algebra::table::{
    aggregate_figures, beside_figures, copies_of_partition, copies_of_time, copies_of_window,
    delay_of_aggs, frame_figures, group_figures, input_figures, partition_figures, picked_figures,
    row_figures, turn_figures, union_figures, window_figures,
};
use gl_algebra::{Figures, Plan, PlanId, PlanNode};
use gl_bits::Memory;
use std::alloc::Global;

/// A place for the figures of each of `many` nodes.
pub fn places(alloc: Global, many: usize) -> Result<Vec<Figures>, Memory>
    ensures { IfOk result (λ v. length v.items ≡ many) }
{
    Ok(vec![in alloc; input_figures(); many]?)
}

/// Writes the figures of each node into the node's place. A figure of 2^32 or more is refused, at the first node that has one.
pub fn figures(plan: &Plan, into: &mut [Figures]) -> Result<(), Limit>
    requires { length into.old ≡ length plan.now }
    ensures ok { OnOk result (AreFigures plan.now into.new) }
    ensures small { OnOk result (AreSmallBefore plan.now (length plan.now)) }
    ensures err { IfErr result (λ limit. IsLate plan.now into.old into.new limit) }
{
    nodes_follow_tables();
    for number in 0..plan.len() {
        match figures_over(plan, into, number, plan.node(plan.id(number))) {
            Some(own) => into[number] = own,
            None => return Err(Limit::Latency { node: number }),
        }
    }
    Ok(())
}

// The figures of a node before this one.
pub(crate) fn figures_at(plan: &Plan, figures: &[Figures], number: usize, id: PlanId) -> Figures
    requires below { id < number }
    requires known { HasFigures plan.now figures.now number }
    ensures { result ≡ figures_of plan.now id }
{
    // Clauses alone speak of it.
    let _ = plan;
    let _ = number;
    figures[id.number()]
}

// The figures of the node of this number, from those of the nodes before it; None where one of them would reach 2^32.
fn figures_over(plan: &Plan, figures: &[Figures], number: usize, node: &PlanNode) -> Option<Figures>
    requires within { number < length plan.now }
    requires before { AllByRecursion (λ child. child < number) (named_by node.now) }
    requires fits { Fits plan.now number node.now }
    requires known { HasFigures plan.now figures.now number }
    ensures { result ≡ small_over plan.now node.now }
{
    match node {
        PlanNode::Stream(_, _) => Some(input_figures()),
        PlanNode::Body(_) => Some(input_figures()),
        PlanNode::Compute { child, .. } => row_figures(&figures_at(plan, figures, number, *child)),
        PlanNode::Select { child, .. } => row_figures(&figures_at(plan, figures, number, *child)),
        PlanNode::Project { child, .. } => picked_figures(&figures_at(
            plan, figures, number, *child,
        )),
        PlanNode::Frames { child, by, items } => {
            let delay = delay_by_key(plan.kinds(*child), *by, items.as_slice());
            frame_figures(delay, &figures_at(plan, figures, number, *child))
        }
        PlanNode::Aggregate { child, aggs } => {
            let delay = delay_of_aggs(plan.kinds(*child), aggs.as_slice());
            aggregate_figures(delay, &figures_at(plan, figures, number, *child))
        }
        PlanNode::Union { left, right } => union_figures(
            &figures_at(plan, figures, number, *left),
            &figures_at(plan, figures, number, *right),
        ),
        PlanNode::Merge { left, right } => turn_figures(
            &figures_at(plan, figures, number, *left),
            &figures_at(plan, figures, number, *right),
        ),
        PlanNode::Beside { left, right } => beside_figures(
            &figures_at(plan, figures, number, *left),
            &figures_at(plan, figures, number, *right),
        ),
        PlanNode::Window {
            source,
            body,
            size,
            advance,
        } => {
            window_figures(
                copies_of_window(*size, *advance),
                &figures_at(plan, figures, number, *source),
                &figures_at(plan, figures, number, *body),
            )
        }
        PlanNode::TimeWindow {
            source,
            body,
            size,
            advance,
        } => {
            window_figures(
                copies_of_time(*size, *advance),
                &figures_at(plan, figures, number, *source),
                &figures_at(plan, figures, number, *body),
            )
        }
        PlanNode::Group {
            source,
            body,
            groups,
            ..
        } => {
            group_figures(
                *groups as u32,
                &figures_at(plan, figures, number, *source),
                &figures_at(plan, figures, number, *body),
            )
        }
        PlanNode::Partition {
            source,
            body,
            groups,
            size,
            advance,
            ..
        } => {
            partition_figures(
                copies_of_partition(*groups, *size, *advance),
                &figures_at(plan, figures, number, *source),
                &figures_at(plan, figures, number, *body),
            )
        }
    }
}
