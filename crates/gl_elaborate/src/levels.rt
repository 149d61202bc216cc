//! The nodes of the levels of operations.

ghost use Rattle.std.specs.Prelude.{◌≡◌, ◌+◌, ◌<◌, ◌≤◌, ◌↔◌, IfOk, IsTrue, map, option_map};
ghost use Rattle.gl_algebra.specs.Added.{added, placed_at};
ghost use Rattle.gl_elaborate.specs.Terms.{depth_of_all, ops_in_all};
ghost use Rattle.gl_elaborate.specs.Trees.{term};
ghost use Rattle.gl_elaborate.specs.Plans.{levelled, levelled_at, with_filter, Keeps};
ghost use Rattle.gl_elaborate.specs.Fitting.{FitsNext, IsStep, LevelledFit};

use crate::{Tree, are_flat, is_flat, level_over, ops_of, reduce_all, reduce_some};
use gl_algebra::{Plan, PlanId, PlanNode};
use gl_bits::Memory;
use std::alloc::Global;

/// Adds a node that fits.
pub fn put(plan: &mut Plan, node: PlanNode) -> Result<PlanId, Memory>
    requires { FitsNext plan.old node }
    ensures added { IfOk result (λ id. placed_at plan.new id ≡ added plan.old node) }
    ensures keeps { Keeps plan.old plan.new }
{
    plan.add(node)
}

// Whether no operation is left.
fn are_done(items: &[Tree], filter: &Option<Tree>) -> bool
    ensures { IsTrue result
        ↔ (depth_of_all (with_filter (map term items.now) (option_map term filter.now)) ≡ 0) }
{
    are_flat(items) && is_flat(filter)
}

// Adds one level, and makes columns of its operations.
fn add_level(
    alloc: Global,
    plan: &mut Plan,
    at: PlanId,
    base: u16,
    items: &mut [Tree],
    filter: &mut Option<Tree>,
) -> Result<(PlanId, u16), Memory>
    requires deep { 1
        ≤ depth_of_all (with_filter (map term items.old) (option_map term filter.old)) }
    requires fit { LevelledFit base (placed_at plan.old at)
        (map term items.old) (option_map term filter.old) }
    requires room { base
        + ops_in_all (with_filter (map term items.old) (option_map term filter.old)) < 65536 }
    ensures step { IfOk result (λ r.
        IsStep base (placed_at plan.old at) (map term items.old) (option_map term filter.old)
        r.1 (placed_at plan.new r.0) (map term items.new) (option_map term filter.new)) }
    ensures keeps { Keeps plan.old plan.new }
{
    let level = level_over(alloc, items, filter)?;
    let ops = ops_of(alloc, &level)?;
    let next = put(plan, PlanNode::Compute { child: at, ops })?;
    let wider = base + level.len() as u16;
    reduce_all(base, &level, items);
    reduce_some(base, &level, filter);
    Ok((next, wider))
}

/// Adds the levels of items and of a filter over a node, and makes columns, literals or parameters
/// of them.
pub fn levelled(
    alloc: Global,
    plan: &mut Plan,
    at: PlanId,
    base: u16,
    items: &mut [Tree],
    filter: &mut Option<Tree>,
) -> Result<PlanId, Memory>
    requires fit { LevelledFit base (placed_at plan.old at)
        (map term items.old) (option_map term filter.old) }
    requires room { base
        + ops_in_all (with_filter (map term items.old) (option_map term filter.old)) < 65536 }
    ensures levels { IfOk result (λ id.
        levelled_at plan.new id (map term items.new) (option_map term filter.new)
        ≡ levelled base (placed_at plan.old at) (map term items.old) (option_map term filter.old)) }
    ensures keeps { Keeps plan.old plan.new }
{
    if are_done(items, filter) {
        return Ok(at);
    }
    let (next, wider) = add_level(alloc, plan, at, base, items, filter)?;
    levelled(alloc, plan, next, wider, items, filter)
}
